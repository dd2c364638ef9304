// Values as they are printed, and fractions as they are read.

use pp_base::{Memory, Text};
use pp_units::{Unit, forced_unit, pick_unit, put_value, read_fraction};
use std::alloc::Global;
use std::test::Fail;

// A value, its unit, the total that its unit is picked for, and its text.
const PICKED: &str = "1536 bytes 1536 1.50kB
999 nanoseconds 999 999ns
1000 Nanosecond 1000 1us
999999 ns 999999 1000us
1125899906842624 b 1125899906842624 1PB
1024 kb 1024 1MB
-9223372036854775808 byte 9223372036854775808 -8192PB
5 Widgets 5 5Widgets
1 gb 0 1073741824B";

// One of each spelling, in the columns of `PICKED`.
const SPELLED: &str = "1 ns 1 1ns
1 nanosecond 1 1ns
1 nanoseconds 1 1ns
1 us 1 1us
1 microsecond 1 1us
1 microseconds 1 1us
1 ms 1 1ms
1 millisecond 1 1ms
1 milliseconds 1 1ms
1 s 1 1s
1 sec 1 1s
1 second 1 1s
1 seconds 1 1s
1 hr 1 1hrs
1 hrs 1 1hrs
1 hour 1 1hrs
1 hours 1 1hrs
1 b 1 1B
1 byte 1 1B
1 bytes 1 1B
1 kb 1 1kB
1 kilobyte 1 1kB
1 kilobytes 1 1kB
1 mb 1 1MB
1 megabyte 1 1MB
1 megabytes 1 1MB
1 gb 1 1GB
1 gigabyte 1 1GB
1 gigabytes 1 1GB
1 tb 1 1TB
1 terabyte 1 1TB
1 terabytes 1 1TB
1 pb 1 1PB
1 petabyte 1 1PB
1 petabytes 1 1PB
1 count 1 1
1 sample 1 1
1 samples 1 1
1 unit 1 1";

#[test]
fn picked_units(rt: HostRuntime) -> Result<(), Fail> {
    for row in PICKED.split('\n') {
        assert!(rt; is_picked(rt.alloc(), row)?, "{row}");
    }
    for row in SPELLED.split('\n') {
        assert!(rt; is_picked(rt.alloc(), row)?, "{row}");
    }
    Ok(())
}

fn is_picked(alloc: Global, row: &str) -> Result<bool, Memory> {
    let [value, unit, total, owed] = words_of(row);
    let picked = pick_unit(alloc, total.parse::<u64>().unwrap_or(0), unit.as_bytes())?;
    is_printed(alloc, value, &picked, owed)
}

fn is_printed(alloc: Global, value: &str, unit: &Unit, owed: &str) -> Result<bool, Memory> {
    let mut text = Text::new(alloc);
    put_value(number(value), unit, &mut text)?;
    Ok(text.as_slice() == owed.as_bytes())
}

fn number(digits: &str) -> i64 {
    digits.parse::<i64>().unwrap_or(0)
}

// The four words of a row.
fn words_of(row: &str) -> [&str; 4] {
    let (first, rest) = row.split_once(' ').unwrap_or((row, ""));
    let (second, rest) = rest.split_once(' ').unwrap_or((rest, ""));
    let (third, fourth) = rest.split_once(' ').unwrap_or((rest, ""));
    [first, second, third, fourth]
}

// A value, its unit, the unit that is wanted, and its text, or `none` where the units are of different kinds.
const FORCED: &str = "1499999 nanoseconds ms 1.50ms
-4999 nanoseconds ms 0
-5000 nanoseconds ms -0.01ms
5000 nanoseconds ms 0.01ms
-9223372036854775808 hrs ns -33204139332677192908800000000000ns
3 count Samples 3
3 widgets WIDGETS 3WIDGETS
3 widgets gadgets none
3 ms mb none";

#[test]
fn forced_units(rt: HostRuntime) -> Result<(), Fail> {
    for row in FORCED.split('\n') {
        assert!(rt; is_forced(rt.alloc(), row)?, "{row}");
    }
    Ok(())
}

fn is_forced(alloc: Global, row: &str) -> Result<bool, Memory> {
    let [value, unit, wanted, owed] = words_of(row);
    let Some(unit) = forced_unit(alloc, wanted.as_bytes(), unit.as_bytes())? else {
        return Ok(owed == "none");
    };
    is_printed(alloc, value, &unit, owed)
}

// A fraction and its billionths, or -1 where it is not read.
const FRACTIONS: &str = "0.005 5000000
1 1000000000
.25 250000000
1.5 -1
. -1
1. -1
0.0000000001 -1
-0 -1";

#[test]
fn fractions_are_read(rt: HostRuntime) -> Result<(), Fail> {
    for row in FRACTIONS.split('\n') {
        let [text, billionths, _, _] = words_of(row);
        assert!(rt; billionths_of(text) == number(billionths), "{row}");
    }
    Ok(())
}

fn billionths_of(text: &str) -> i64 {
    match read_fraction(text.as_bytes()) {
        Some(fraction) => i64::from(fraction.billionths),
        None => -1,
    }
}
