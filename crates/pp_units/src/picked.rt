//! The unit that is picked for a total.
ghost use Rattle.std.specs.Prelude.{◌≡◌, IfOk};
ghost use Rattle.pp_units.specs.Shown.{shown, picked, largest_within};

use crate::scale::{Scale, first_within, scale_of};
use crate::{Family, Unit};
use pp_base::{Memory, Text};
use std::alloc::Global;

/// How values are printed beside the total: in the largest unit of the family that the total has
/// one of, and in the smallest for a total of 0. A unit that is not in the table is printed as it
/// stands.
#[tactic(auto, unfolding(crate::specs::Shown::picked))]
pub fn pick_unit(alloc: Global, total: u64, unit: &[u8]) -> Result<Unit, Memory>
    ensures { IfOk result (λ unit'. shown unit' ≡ picked total unit.now) }
{
    let Some(scale) = scale_of(unit) else {
        return Ok(Unit {
            from: 1,
            to: 1,
            suffix: Text::from_slice(alloc, unit)?,
            each: None,
        });
    };
    let amount = u128::from(total) * u128::from(scale.factor());
    let largest = largest_within(amount, scale.family());
    Ok(Unit {
        from: scale.factor(),
        to: largest.factor(),
        suffix: Text::from_slice(alloc, largest.suffix())?,
        each: None,
    })
}

// The largest unit of the family of which the amount has one, and the smallest where it has none.
pub(crate) fn largest_within(amount: u128, family: Family) -> Scale
    ensures { result ≡ largest_within amount family }
{
    match first_within(amount, family.falling()) {
        Some(scale) => scale,
        None => family.smallest(),
    }
}
