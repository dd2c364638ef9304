//! A unit for each value.
ghost use Rattle.std.specs.Prelude.{◌≡◌, IfOk};
ghost use Rattle.pp_units.specs.Shown.{shown, picked_for_each, known_family};

use crate::forced::{factor_of, suffix_of};
use crate::scale::scale_of;
use crate::{Family, Unit};
use pp_base::{Memory, Text};
use std::alloc::Global;

/// How values are printed that have each the unit that would be picked for a total of its absolute value.
#[tactic(auto, unfolding(crate::specs::Shown::picked_for_each))]
pub fn each_unit(alloc: Global, unit: &[u8]) -> Result<Unit, Memory>
    ensures { IfOk result (λ unit'. shown unit' ≡ picked_for_each unit.now) }
{
    Ok(Unit {
        from: factor_of(unit),
        to: factor_of(unit),
        suffix: Text::from_slice(alloc, suffix_of(unit))?,
        each: known_family(unit),
    })
}

// The family of a unit of the table.
fn known_family(unit: &[u8]) -> Option<Family>
    ensures { result ≡ known_family unit.now }
{
    match scale_of(unit) {
        Some(scale) => Some(scale.family()),
        None => None,
    }
}
