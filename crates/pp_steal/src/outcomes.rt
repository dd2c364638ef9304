//! Outcomes at the places of their pieces.
ghost use Rattle.std.specs.Prelude.{◌≡◌, ℕ, ◌<◌, ◌≤◌, [], length, slice_index, slice_index_or, IfOk, OnOk};
ghost use Rattle.pp_steal.specs.Dealing.{AreDistinctPieces};
ghost use Rattle.pp_steal.specs.Closing.{AreGivenOnce};
ghost use Rattle.pp_steal.specs.Running.{HasOutcomes, HasRight, KeepsRight, HaveRight, AllHaveRight, AllHaveOutcomes, AreOutcomes};

use crate::job::Job;
use crate::station::work_on;
use pp_base::{Gate, List, Memory};
use std::alloc::Global;

// A slot for the outcome of each piece.
pub(crate) fn empty_slots<T: Drop>(alloc: Global, pieces: u32) -> Result<Vec<Option<T>>, Memory>
    ensures { IfOk result (λ slots. length slots.items ≡ pieces) }
{
    let mut slots = Vec::with_capacity(alloc, pieces as usize)?;
    for _piece in 0..pieces {
        slots.push_reserved(None);
    }
    Ok(slots)
}

// Puts the outcomes of each lane at the places of the pieces that it took.
pub(crate) fn place_all<J: Job>(
    job: &J,
    taken: &[List<u32>],
    mut outcomes: Vec<Vec<J::Out>>,
    slots: &mut Vec<Option<J::Out>>,
)
    requires outcomes { AllHaveOutcomes (J.right job.now) taken.now outcomes.items }
    requires pieces { AreGivenOnce (length slots.old.items) taken.now }
    ensures count { length slots.new.items ≡ length slots.old.items }
    ensures placed { AllHaveRight (J.right job.now) slots.new.items taken.now }
{
    while let Some(of_lane) = outcomes.pop() {
        let k = outcomes.len();
        place(job, taken[k].as_slice(), of_lane, slots);
    }
}

// Puts the outcomes of these pieces at their places.
fn place<J: Job>(job: &J, list: &[u32], mut outcomes: Vec<J::Out>, slots: &mut Vec<Option<J::Out>>)
    requires outcomes { HasOutcomes (J.right job.now) list.now outcomes.items }
    requires pieces { AreDistinctPieces (length slots.old.items) list.now }
    ensures count { length slots.new.items ≡ length slots.old.items }
    ensures kept { KeepsRight (J.right job.now) slots.old.items slots.new.items }
    ensures placed { HaveRight (J.right job.now) slots.new.items list.now }
{
    while let Some(outcome) = outcomes.pop() {
        let k = outcomes.len();
        slots[list[k] as usize] = Some(outcome);
    }
}

// Runs the pieces that no lane took, in rising order.
pub(crate) fn run_left<J: Job, G: Gate>(
    job: &J,
    gate: &G,
    left: &[u32],
    slots: &mut Vec<Option<J::Out>>,
) -> Result<(), Memory>
    requires pieces { AreDistinctPieces (length slots.old.items) left.now }
    requires job { length slots.old.items ≤ J.pieces job.now }
    ensures count { OnOk result (length slots.new.items ≡ length slots.old.items) }
    ensures kept { OnOk result (KeepsRight (J.right job.now) slots.old.items slots.new.items) }
    ensures placed { OnOk result (HaveRight (J.right job.now) slots.new.items left.now) }
{
    for piece in left {
        slots[*piece as usize] = Some(work_on(job, gate, *piece)?);
    }
    Ok(())
}

// The outcomes, once each slot has one.
pub(crate) fn all_outcomes<J: Job>(
    alloc: Global,
    job: &J,
    slots: Vec<Option<J::Out>>,
) -> Result<List<J::Out>, Memory>
    requires { (x : ℕ) → x < length slots.items → HasRight (J.right job.now) slots.items x }
    ensures { IfOk result (AreOutcomes (J.right job.now) (length slots.items)) }
{
    let mut outcomes = Vec::with_capacity(alloc, slots.len())?;
    for slot in slots {
        let Some(outcome) = slot else { unreachable!() };
        outcomes.push_reserved(outcome);
    }
    Ok(List::from_vec(outcomes))
}
