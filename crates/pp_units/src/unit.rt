//! How the values of one unit are printed.
ghost use Rattle.std.specs.Prelude.{◌≡◌, ◌≤◌, ◌^◌};

use crate::Family;
use crate::picked::largest_within;
use crate::scale::Scale;
use pp_base::Text;

/// How the values of one unit are printed: times `from`, divided by `to`, and the suffix after the
/// number. Nanoseconds in milliseconds are from 1 to 1,000,000 with the suffix `ms`.
#[derive(Debug, Drop)]
pub struct Unit {
    /// How many of the family's smallest unit a value of 1 is.
    pub from: u64,
    /// How many of the family's smallest unit the printed unit is.
    pub to: u64,
    /// What stands after a number, but for 0.
    pub suffix: Text,
    /// The family of which each value has a unit of its own, in the place of `to` and `suffix`; None where all values
    /// have this one.
    pub each: Option<Family>,
    ghost from_positive: { 1 ≤ from },
    ghost from_bounded: { from ≤ 2 ^ 50 },
    ghost to_positive: { 1 ≤ to },
    ghost to_bounded: { to ≤ 2 ^ 50 },
}

impl Unit {
    ghost use Rattle.pp_units.specs.Shown.{shown, own_scale, to_at, suffix_at};

    // The unit of the table in which a value of this size is printed, where each value has its own.
    fn own_scale(&self, size: u64) -> Option<Scale>
        ensures { result ≡ own_scale size (shown self.now) }
    {
        let family = self.each?;
        let amount = u128::from(size) * u128::from(self.from);
        Some(largest_within(amount, family))
    }

    // How many of the family's smallest unit the unit is in which a value of this size is printed.
    pub(crate) fn to_at(&self, size: u64) -> u64
        ensures value { result ≡ to_at size (shown self.now) }
        ensures positive { 1 ≤ result }
        ensures bounded { result ≤ 2 ^ 50 }
    {
        match self.own_scale(size) {
            Some(scale) => scale.factor(),
            None => self.to,
        }
    }

    // What stands after the number of a value of this size, but for 0.
    pub(crate) fn suffix_at(&self, size: u64) -> &[u8]
        ensures { result.now ≡ suffix_at size (shown self.now) }
    {
        match self.own_scale(size) {
            Some(scale) => scale.suffix(),
            None => self.suffix.as_slice(),
        }
    }
}
