//! The unit that a report is asked to use.
ghost use Rattle.std.specs.Prelude.{◌≡◌, ◌≤◌, ◌^◌, IfOk, option_map};
ghost use Rattle.pp_units.specs.Shown.{shown, forced, is_same_kind, factor_of, suffix_of};

use crate::scale::scale_of;
use crate::{Family, Unit, family_of};
use pp_base::{Memory, Text};
use std::alloc::Global;

/// The unit that is wanted for values of the other one, or `None` where it measures something else:
/// where it is of another family, or where neither is in the table and they are spelled otherwise.
#[tactic(auto, unfolding(crate::specs::Shown::forced))]
pub fn forced_unit(alloc: Global, wanted: &[u8], unit: &[u8]) -> Result<Option<Unit>, Memory>
    ensures { IfOk result (λ found. option_map shown found ≡ forced wanted.now unit.now) }
{
    if !is_same_kind(wanted, unit) {
        return Ok(None);
    }
    Ok(Some(Unit {
        from: factor_of(unit),
        to: factor_of(wanted),
        suffix: Text::from_slice(alloc, suffix_of(wanted))?,
        each: None,
    }))
}

/// Whether two units measure the same.
#[tactic(auto, unfolding(crate::specs::Shown::is_same_kind))]
pub fn is_same_kind(wanted: &[u8], unit: &[u8]) -> bool
    ensures { result ≡ is_same_kind wanted.now unit.now }
{
    match (family_of(wanted), family_of(unit)) {
        (Family::Time, Family::Time)
        | (Family::Bytes, Family::Bytes)
        | (Family::Plain, Family::Plain) => true,
        (Family::Other, Family::Other) => wanted.eq_ignore_ascii_case(unit),
        _ => false,
    }
}

/// How many of the smallest unit of its family the unit is.
pub fn factor_of(unit: &[u8]) -> u64
    ensures value { result ≡ factor_of unit.now }
    ensures positive { 1 ≤ result }
    ensures bounded { result ≤ 2 ^ 50 }
{
    match scale_of(unit) {
        Some(scale) => scale.factor(),
        None => 1,
    }
}

// What is printed after a number in the unit.
pub(crate) fn suffix_of(unit: &[u8]) -> &[u8]
    ensures { result.now ≡ suffix_of unit.now }
{
    match scale_of(unit) {
        Some(scale) => scale.suffix(),
        None => unit,
    }
}
