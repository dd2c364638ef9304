//! Lanes at work.
ghost use Rattle.std.specs.Prelude.{◌≡◌, ℕ, ◌<◌, ◌≤◌, [], false, length, slice_index_or, map, IfOk, OnOk, All};
ghost use Rattle.pp_steal.specs.Lanes.{Standing};
ghost use Rattle.pp_steal.specs.Running.{HasOutcomes, IsIdle, IsServed, AreServed, lane_of_station, outcomes_of_station};

use crate::job::Job;
use crate::lane::Lane;
use crate::spread::for_each_on;
use pp_base::{Gate, List, Memory};
use std::alloc::Global;
use std::thread::Threads;

// A lane at work, and the outcomes of the pieces that it took.
#[derive(Drop)]
pub(crate) struct Station<T> {
    pub(crate) lane: Lane,
    pub(crate) outcomes: Vec<T>,
    // Memory was wanting, and the lane took no further piece.
    pub(crate) stopped: bool,
}

// A station for each lane.
pub(crate) fn stations_for<T: Drop>(
    alloc: Global,
    lanes: List<Lane>,
) -> Result<Vec<Station<T>>, Memory>
    requires { All (λ s. s.taken ≡ []) lanes }
    ensures lanes { IfOk result (λ all. map lane_of_station all.items ≡ lanes) }
    ensures idle { IfOk result (λ all. All IsIdle all.items) }
{
    let lanes = lanes.into_vec();
    let mut all = Vec::with_capacity(alloc, lanes.len())?;
    for lane in lanes {
        all.push_reserved(Station {
            lane,
            outcomes: Vec::new(alloc),
            stopped: false,
        });
    }
    Ok(all)
}

// Each lane works, on a thread of its own where one can be made.
pub(crate) fn serve_all<R: Threads + Sync, J: Job, G: Gate>(
    rt: &R,
    job: &J,
    gate: &G,
    stations: &mut Vec<Station<J::Out>>,
)
    requires some { 0 < length stations.old.items }
    requires idle { All IsIdle stations.old.items }
    requires pieces { All (λ s. s.lane.make.pieces ≤ J.pieces job.now) stations.old.items }
    ensures count { length stations.new.items ≡ length stations.old.items }
    ensures served { AreServed (J.right job.now) stations.old.items stations.new.items }
{
    let threads = stations.len();
    let work = |_: usize, station: &mut Station<J::Out>|
        requires { IsIdle station.now × (station.now.lane.make.pieces ≤ J.pieces job.now) }
        ensures { IsServed (J.right job.entry.now) station.entry.now station.exit.now }
    { serve_or_stop(job, gate, station) };
    for_each_on(rt, stations.as_mut_slice(), threads, &work);
}

// Serves, and notes whether memory was wanting.
fn serve_or_stop<J: Job, G: Gate>(job: &J, gate: &G, station: &mut Station<J::Out>)
    requires idle { IsIdle station.old }
    requires pieces { station.old.lane.make.pieces ≤ J.pieces job.now }
    ensures { IsServed (J.right job.now) station.old station.new }
{
    station.stopped = serve(job, gate, station).is_err();
}

// Works on the pieces that the lane comes by, until no deque gives one.
fn serve<J: Job, G: Gate>(job: &J, gate: &G, station: &mut Station<J::Out>) -> Result<(), Memory>
    requires idle { IsIdle station.old }
    requires pieces { station.old.lane.make.pieces ≤ J.pieces job.now }
    ensures make { station.new.lane.make ≡ station.old.lane.make }
    ensures own { station.new.lane.own ≡ station.old.lane.own }
    ensures outcomes { OnOk result (HasOutcomes (J.right job.now)
        station.new.lane.taken station.new.outcomes.items) }
{
    while let Some(piece) = station.lane.next() {
        let outcome = work_on(job, gate, piece)?;
        station.outcomes.push(outcome)?;
    }
    Ok(())
}

// Runs the piece, between the two calls of the gate.
pub(crate) fn work_on<J: Job, G: Gate>(job: &J, gate: &G, piece: u32) -> Result<J::Out, Memory>
    requires { piece < J.pieces job.now }
    ensures { IfOk result (J.right job.now piece) }
{
    gate.enter(piece);
    let outcome = job.run(piece);
    gate.leave(piece);
    outcome
}

// The lanes after their work, and each lane's outcomes.
pub(crate) struct Worked<T> {
    pub(crate) lanes: Vec<Lane>,
    pub(crate) outcomes: Vec<Vec<T>>,
}

// What the stations did, or want of memory where one stopped.
pub(crate) fn finish<T: Drop>(alloc: Global, stations: Vec<Station<T>>) -> Result<Worked<T>, Memory>
    ensures lanes { IfOk result (λ r. r.lanes.items ≡ map lane_of_station stations.items) }
    ensures outcomes { IfOk result (λ r.
        r.outcomes.items ≡ map outcomes_of_station stations.items) }
    ensures going { IfOk result (λ _. All (λ s. s.stopped ≡ false) stations.items) }
{
    let mut lanes = Vec::with_capacity(alloc, stations.len())?;
    let mut all = Vec::with_capacity(alloc, stations.len())?;
    for station in stations {
        let Station {
            lane,
            outcomes,
            stopped,
        } = station;
        if stopped {
            return Err(Memory);
        }
        lanes.push_reserved(lane);
        all.push_reserved(outcomes);
    }
    Ok(Worked {
        lanes,
        outcomes: all,
    })
}
