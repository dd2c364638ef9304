//! The pieces of a job, run on lanes.
ghost use Rattle.std.specs.Prelude.{◌≤◌, IfOk};
ghost use Rattle.pp_steal.specs.Running.{AreOutcomes};

use crate::deal::Deal;
use crate::given::{Given, close};
use crate::job::Job;
use crate::make::Lanes;
use crate::outcomes::{all_outcomes, empty_slots, place_all, run_left};
use crate::station::{Worked, finish, serve_all, stations_for};
use pp_base::{Gate, List, Memory};
use std::alloc::Global;
use std::thread::Threads;

/// The outcome of each piece below `pieces`, at its place. `n` lanes run them, from 1 to 64, each on a thread of its
/// own where one can be made.
///
/// Around each piece the gate's `enter` and `leave` are called. A lane whose job wants memory stops, and the answer is
/// then `Memory`. Where none stopped, the caller runs what the lanes left, the lowest piece first. Where `pieces` is 0,
/// neither the job nor the gate is called. The outcomes do not tell which lane took which piece, nor when.
pub fn run_pieces<R: Threads + Sync, J: Job, G: Gate>(
    rt: &R,
    alloc: Global,
    job: &J,
    pieces: u32,
    n: u32,
    deal: Deal,
    gate: &G,
) -> Result<List<J::Out>, Memory>
    requires some { 1 ≤ n }
    requires few { n ≤ 64 }
    requires pieces { pieces ≤ J.pieces job.now }
    ensures { IfOk result (AreOutcomes (J.right job.now) pieces) }
{
    if pieces == 0 {
        return Ok(List::new(alloc));
    }
    let lanes = Lanes::make(alloc, pieces, n, deal)?;
    let mut stations = stations_for(alloc, lanes)?;
    serve_all(rt, job, gate, &mut stations);
    let Worked { lanes, outcomes } = finish(alloc, stations)?;
    let Given { taken, left } = close(List::from_vec(lanes));
    let mut slots = empty_slots(alloc, pieces)?;
    place_all(job, taken.as_slice(), outcomes, &mut slots);
    run_left(job, gate, left.as_slice(), &mut slots)?;
    all_outcomes(alloc, job, slots)
}
