//! The table of units.
ghost use Rattle.std.specs.Prelude.{◌≡◌, ◌≤◌, ◌^◌, [], ◌∷◌, find, nat_le};
ghost use Rattle.pp_units.specs.Scales.{family_of_scale, factor, suffix_of_scale, is_spelled, is_among, is_named, scale_of};

use crate::Family;

/// A unit of the table.
#[derive(Clone, Copy, Debug, PartialEq, Eq)]
pub enum Scale {
    Nanoseconds,
    Microseconds,
    Milliseconds,
    Seconds,
    Hours,
    SingleBytes,
    Kilobytes,
    Megabytes,
    Gigabytes,
    Terabytes,
    Petabytes,
    Counts,
}

const EVERY: [Scale; 12] = [
    Scale::Hours,
    Scale::Seconds,
    Scale::Milliseconds,
    Scale::Microseconds,
    Scale::Nanoseconds,
    Scale::Petabytes,
    Scale::Terabytes,
    Scale::Gigabytes,
    Scale::Megabytes,
    Scale::Kilobytes,
    Scale::SingleBytes,
    Scale::Counts,
];

/// The unit of the table that is spelled so, in letters of either case.
#[tactic(auto, unfolding(crate::specs::Scales::scale_of))]
pub fn scale_of(unit: &[u8]) -> Option<Scale>
    ensures { result ≡ scale_of unit.now }
{
    first_named(unit, &EVERY)
}

/// The first of the units of which the amount has one.
pub fn first_within(amount: u128, scales: &[Scale]) -> Option<Scale>
    ensures { result ≡ find (λ scale. nat_le (factor scale) amount) scales.now }
{
    scales
        .iter()
        .find(|scale| u128::from(scale.factor()) <= amount)
        .copied()
}

fn first_named(unit: &[u8], scales: &[Scale]) -> Option<Scale>
    ensures { result ≡ find (λ scale. is_named scale unit.now) scales.now }
{
    scales.iter().find(|scale| scale.is_named(unit)).copied()
}

impl Scale {
    /// What the unit measures. Units of one family are converted into each other.
    pub fn family(self) -> Family
        ensures { result ≡ family_of_scale self }
    {
        match self {
            Scale::Nanoseconds
            | Scale::Microseconds
            | Scale::Milliseconds
            | Scale::Seconds
            | Scale::Hours => Family::Time,
            Scale::SingleBytes
            | Scale::Kilobytes
            | Scale::Megabytes
            | Scale::Gigabytes
            | Scale::Terabytes
            | Scale::Petabytes => Family::Bytes,
            Scale::Counts => Family::Plain,
        }
    }

    /// How many of the smallest unit of its family it is.
    pub fn factor(self) -> u64
        ensures value { result ≡ factor self }
        ensures positive { 1 ≤ result }
        ensures bounded { result ≤ 2 ^ 50 }
    {
        match self {
            Scale::Nanoseconds | Scale::SingleBytes | Scale::Counts => 1,
            Scale::Microseconds => 1_000,
            Scale::Milliseconds => 1_000_000,
            Scale::Seconds => 1_000_000_000,
            Scale::Hours => 3_600 * 1_000_000_000,
            Scale::Kilobytes => 1 << 10,
            Scale::Megabytes => 1 << 20,
            Scale::Gigabytes => 1 << 30,
            Scale::Terabytes => 1 << 40,
            Scale::Petabytes => 1 << 50,
        }
    }

    /// What is printed after a number in it.
    pub fn suffix(self) -> &'static [u8]
        ensures { result.now ≡ suffix_of_scale self }
    {
        match self {
            Scale::Nanoseconds => b"ns",
            Scale::Microseconds => b"us",
            Scale::Milliseconds => b"ms",
            Scale::Seconds => b"s",
            Scale::Hours => b"hrs",
            Scale::SingleBytes => b"B",
            Scale::Kilobytes => b"kB",
            Scale::Megabytes => b"MB",
            Scale::Gigabytes => b"GB",
            Scale::Terabytes => b"TB",
            Scale::Petabytes => b"PB",
            Scale::Counts => b"",
        }
    }

    // Whether the unit is spelled as one of its names, in letters of either case.
    #[tactic(auto, unfolding(crate::specs::Scales::is_named))]
    fn is_named(self, unit: &[u8]) -> bool
        ensures { result ≡ is_named self unit.now }
    {
        match self {
            Scale::Nanoseconds => is_one_of(unit, b"ns", b"nanosecond", b"nanoseconds"),
            Scale::Microseconds => is_one_of(unit, b"us", b"microsecond", b"microseconds"),
            Scale::Milliseconds => is_one_of(unit, b"ms", b"millisecond", b"milliseconds"),
            Scale::Seconds => {
                is_one_of(unit, b"s", b"sec", b"second") || is_spelled(unit, b"seconds")
            }
            Scale::Hours => is_one_of(unit, b"hr", b"hrs", b"hour") || is_spelled(unit, b"hours"),
            Scale::SingleBytes => is_one_of(unit, b"b", b"byte", b"bytes"),
            Scale::Kilobytes => is_one_of(unit, b"kb", b"kilobyte", b"kilobytes"),
            Scale::Megabytes => is_one_of(unit, b"mb", b"megabyte", b"megabytes"),
            Scale::Gigabytes => is_one_of(unit, b"gb", b"gigabyte", b"gigabytes"),
            Scale::Terabytes => is_one_of(unit, b"tb", b"terabyte", b"terabytes"),
            Scale::Petabytes => is_one_of(unit, b"pb", b"petabyte", b"petabytes"),
            Scale::Counts => {
                is_one_of(unit, b"", b"count", b"sample") || is_either(unit, b"samples", b"unit")
            }
        }
    }
}

fn is_one_of(unit: &[u8], first: &[u8], second: &[u8], third: &[u8]) -> bool
    ensures { result ≡ is_among unit.now (first.now ∷ second.now ∷ third.now ∷ []) }
{
    is_spelled(unit, first) || is_either(unit, second, third)
}

fn is_either(unit: &[u8], first: &[u8], second: &[u8]) -> bool
    ensures { result ≡ is_among unit.now (first.now ∷ second.now ∷ []) }
{
    is_spelled(unit, first) || is_spelled(unit, second)
}

fn is_spelled(unit: &[u8], spelling: &[u8]) -> bool
    ensures { result ≡ is_spelled unit.now spelling.now }
{
    unit.eq_ignore_ascii_case(spelling)
}
