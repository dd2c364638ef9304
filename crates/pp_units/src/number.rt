//! Values and percentages.
ghost use Rattle.std.specs.Prelude.{◌≡◌, ◌+◌, ◌*◌, ◌/◌, ◌<◌, ◌≤◌, [], ◌++◌, ◌↔◌, length, pos, unsigned_abs, codes, decimal, OnOk, OnErr};
ghost use Rattle.pp_units.specs.Shown.{shown, to_at};
ghost use Rattle.pp_units.specs.Numbers.{number_text, suffix_after, value_text, percent_text, sign_text, shortened, decimals};
ghost use Rattle.pp_units.specs.Rounded.{nearest, rounded};

use crate::right::put_both;
use crate::rounded::nearest;
use crate::{Small, Unit};
use itoa::Buffer;
use pp_base::{Memory, Text};

/// Makes the value's number, without what stands after it, the content: in hundredths, rounded half
/// away from zero, without `.00`.
pub fn write_value(value: i64, unit: &Unit, out: &mut Small)
    ensures text { out.new ≡ number_text value (shown unit.now) }
    ensures zero { let to = to_at (unsigned_abs value) (shown unit.now) in
        (out.new ≡ codes "0") ↔ (rounded value (100 * unit.now.from) to ≡ pos 0) }
{
    write_signed(value, unit, out);
}

#[tactic(auto, unfolding(crate::specs::Numbers::number_text))]
fn write_signed(value: i64, unit: &Unit, out: &mut Small)
    ensures { out.new ≡ number_text value (shown unit.now) }
{
    write_number(value < 0, value.unsigned_abs(), unit, out);
}

// What stands after a number: the unit's suffix, or nothing after `0`.
pub(crate) fn suffix_after<'a>(number: &[u8], suffix: &'a [u8]) -> &'a [u8]
    ensures { result.now ≡ suffix_after number.now suffix.now }
{
    if number == b"0".as_slice() {
        &[]
    } else {
        suffix
    }
}

/// Appends the value's whole text.
#[tactic(auto, unfolding(crate::specs::Numbers::value_text))]
pub fn put_value(value: i64, unit: &Unit, out: &mut Text) -> Result<(), Memory>
    ensures ok { OnOk result (out.new ≡ out.old ++ value_text value (shown unit.now)) }
    ensures err { OnErr result (out.new ≡ out.old) }
{
    let mut number = Small::new();
    write_value(value, unit, &mut number);
    let suffix = suffix_after(number.bytes(), unit.suffix_at(value.unsigned_abs()));
    put_both(number.bytes(), suffix, out)
}

/// Makes the value's percentage of the total the content, with two decimals; `0%` where the total
/// is 0.
#[tactic(auto, unfolding(crate::specs::Numbers::percent_text))]
pub fn write_percent(value: i64, total: u64, out: &mut Small)
    ensures { out.new ≡ percent_text value total }
{
    out.clear();
    if total == 0 {
        out.extend(b"0%");
        return;
    }
    let hundredths = nearest(u128::from(value.unsigned_abs()) * 10_000, u128::from(total));
    put_whole(value < 0, hundredths, out);
    put_decimals(hundredths, out);
    out.push(b'%');
}

/// The number of a value with this sign and this absolute value, in the unit: with two decimals, or with none where
/// both would be 0.
pub fn write_number(negative: bool, size: u64, unit: &Unit, out: &mut Small)
    ensures { let h = nearest (size * (100 * unit.now.from)) (to_at size (shown unit.now)) in
        out.new ≡ sign_text negative h ++ shortened h }
{
    out.clear();
    let amount = u128::from(size) * u128::from(unit.from) * 100;
    let hundredths = nearest(amount, u128::from(unit.to_at(size)));
    put_whole(negative, hundredths, out);
    if hundredths % 100 != 0 {
        put_decimals(hundredths, out);
    }
}

// The whole part of a number of hundredths, after a minus where they are negative and not 0.
fn put_whole(negative: bool, hundredths: u128, out: &mut Small)
    requires { out.old ≡ [] }
    ensures text { out.new ≡ sign_text negative hundredths ++ decimal (hundredths / 100) }
    ensures short { length out.new ≤ 41 }
{
    if negative && hundredths > 0 {
        out.push(b'-');
    }
    out.extend(Buffer::new().format(hundredths / 100).as_bytes());
}

// The two decimals of a number of hundredths.
fn put_decimals(hundredths: u128, out: &mut Small)
    requires { length out.old ≤ 45 }
    ensures text { out.new ≡ out.old ++ decimals hundredths }
    ensures longer { length out.new ≡ length out.old + 3 }
{
    out.push(b'.');
    out.push(b'0' + (hundredths % 100 / 10) as u8);
    out.push(b'0' + (hundredths % 10) as u8);
}
