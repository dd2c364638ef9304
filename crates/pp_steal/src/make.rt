//! Making lanes.
ghost use Rattle.std.specs.Prelude.{◌≡◌, ◌+◌, ◌<◌, ◌≤◌, ◌∷◌, [], length, IfOk, OnOk};
ghost use Rattle.crossbeam_deque.specs.Handles.{worker_deque, stealer_deque, worker_view, worker_capacity, worker_index};
ghost use Rattle.pp_steal.specs.declared.deal.Deal.{Deal};
ghost use Rattle.pp_steal.specs.declared.view.Role.TheVariants.{Owner as own_role, Marked};
ghost use Rattle.pp_steal.specs.Pool.{AllUnder, Deals, marked, mark};
ghost use Rattle.pp_steal.specs.Dealing.{lane_of};
ghost use Rattle.pp_steal.specs.Closing.{IsWholeMake};
ghost use Rattle.pp_steal.specs.Lanes.{AreDealt, IsFresh, IsReadyTable, IsMarkedTable, IsSameTable, IsChairRow, AreRowsOf, AreNewLanes, IsNewMake, make_of_table};

use crate::chair::{Chair, Owner};
use crate::deal::Deal;
use crate::lane::{Lane, Parts};
use crate::room::room_for;
use crate::view::{Dealt, Hand};
use pp_base::{List, Memory};
use std::alloc::Global;

/// The lanes of a pool.
pub struct Lanes;

impl Lanes {
    /// `n` lanes, from 1 to 64, with the pieces below `pieces` dealt to their deques as `deal` says. Each lane can hold
    /// all of them, and the first one also has the room that `close` needs: no other call on lanes takes memory.
    pub fn make(alloc: Global, pieces: u32, n: u32, deal: Deal) -> Result<List<Lane>, Memory>
        requires some { 1 ≤ n }
        requires few { n ≤ 64 }
        ensures make { IfOk result (IsNewMake deal pieces n) }
        ensures whole { IfOk result IsWholeMake }
    {
        let mut table = DealTable {
            deal,
            pieces,
            workers: deques(alloc, pieces, n)?,
        };
        table.deal_out();
        let rows = table.rows(alloc)?;
        let lanes = table.into_lanes(alloc, rows)?;
        Ok(List::from_vec(lanes))
    }
}

// Deques with room for all pieces, to which nothing was dealt.
fn deques(alloc: Global, pieces: u32, lanes: u32) -> Result<Vec<Owner>, Memory>
    ensures count { IfOk result (λ workers. length workers.items ≡ lanes) }
    ensures unused { IfOk result (λ workers.
        (deal : Deal) → AreDealt deal lanes pieces 0 workers.items) }
{
    let mut workers = Vec::with_capacity(alloc, lanes as usize)?;
    for _lane in 0..lanes {
        workers.push_reserved(Owner::fifo_as(alloc, pieces as usize)?);
    }
    Ok(workers)
}

// The pieces, and the deques to which they are dealt, by lane.
#[derive(Drop)]
struct DealTable {
    deal: Deal,
    pieces: u32,
    workers: Vec<Owner>,
}

impl DealTable {
    // Deals each piece to its lane's deque.
    fn deal_out(&mut self)
        requires some { 0 < length self.old.workers.items }
        requires few { length self.old.workers.items ≤ 64 }
        requires unused { AreDealt self.old.deal (length self.old.workers.items) self.old.pieces 0
            self.old.workers.items }
        ensures deal { self.new.deal ≡ self.old.deal }
        ensures pieces { self.new.pieces ≡ self.old.pieces }
        ensures count { length self.new.workers.items ≡ length self.old.workers.items }
        ensures ready { IsReadyTable self.new }
    {
        let lanes = self.workers.len() as u32;
        for piece in 0..self.pieces {
            let lane = lane_of_piece(self.deal, lanes, piece);
            deal_one(&mut self.workers[lane as usize], piece);
        }
    }

    // For each lane a chair at each deque.
    fn rows(&mut self, alloc: Global) -> Result<Vec<Vec<Chair>>, Memory>
        requires some { 0 < length self.old.workers.items }
        requires ready { IsReadyTable self.old }
        ensures same { OnOk result (IsSameTable self.old self.new) }
        ensures ready { OnOk result (IsReadyTable self.new) }
        ensures marked { OnOk result (IsMarkedTable self.new) }
        ensures count { IfOk result (λ rows. length rows.items ≡ length self.new.workers.items) }
        ensures rows { IfOk result (λ rows. AreRowsOf self.new rows.items) }
    {
        let lanes = self.workers.len();
        let mut rows = Vec::with_capacity(alloc, lanes)?;
        for _lane in 0..lanes {
            rows.push_reserved(self.row(alloc)?);
        }
        Ok(rows)
    }

    // A chair at each deque.
    fn row(&mut self, alloc: Global) -> Result<Vec<Chair>, Memory>
        requires { IsReadyTable self.old }
        ensures same { OnOk result (IsSameTable self.old self.new) }
        ensures ready { OnOk result (IsReadyTable self.new) }
        ensures marked { OnOk result (IsMarkedTable self.new) }
        ensures chairs { IfOk result (IsChairRow self.old) }
    {
        let lanes = self.workers.len();
        let mut chairs = Vec::with_capacity(alloc, lanes)?;
        for lane in 0..lanes {
            chairs.push_reserved(seat(&mut self.workers[lane])?);
        }
        Ok(chairs)
    }

    // The lanes, each with its deque and its chairs.
    fn into_lanes(self, alloc: Global, mut rows: Vec<Vec<Chair>>) -> Result<Vec<Lane>, Memory>
        requires some { 0 < length self.workers.items }
        requires few { length self.workers.items ≤ 64 }
        requires count { length rows.items ≡ length self.workers.items }
        requires ready { IsReadyTable self }
        requires marked { IsMarkedTable self }
        requires rows { AreRowsOf self rows.items }
        ensures count { IfOk result (λ lanes. length lanes.items ≡ length self.workers.items) }
        ensures new { IfOk result (λ lanes. AreNewLanes (make_of_table self) lanes.items) }
    {
        let DealTable {
            deal,
            pieces,
            workers,
        } = self;
        let count = workers.len();
        let mut lanes = Vec::with_capacity(alloc, count)?;
        for worker in workers {
            let own = lanes.len() as u32;
            let Some(chairs) = rows.pop() else {
                unreachable!()
            };
            let parts = Parts {
                deal,
                pieces,
                worker,
                chairs,
                taken: Vec::with_capacity(alloc, pieces as usize)?,
                room: room_for(alloc, own, count, pieces)?,
            };
            lanes.push_reserved(Lane::new(own, parts));
        }
        Ok(lanes)
    }
}

// The lane that a piece is dealt to.
fn lane_of_piece(deal: Deal, lanes: u32, piece: u32) -> u32
    requires { 0 < lanes }
    ensures { result ≡ lane_of deal lanes piece }
{
    match deal {
        Deal::Round => piece % lanes,
        Deal::First => 0,
    }
}

// Deals a piece to a deque that has room for it.
fn deal_one(worker: &mut Owner, piece: u32)
    requires unmarked { (worker_view worker.old).role ≡ own_role }
    requires above { AllUnder piece (worker_view worker.old).dealt }
    requires room { worker_index worker.old < worker_capacity worker.old }
    ensures room { worker_capacity worker.old ≤ worker_capacity worker.new }
    ensures used { worker_index worker.new ≡ worker_index worker.old + 1 }
    ensures view { Deals (worker_view worker.old) (piece ∷ []) (worker_view worker.new) }
{
    let Ok(()) = worker.push_as::<Dealt>(piece) else {
        unreachable!()
    };
}

// A new chair at the deque.
fn seat(worker: &mut Owner) -> Result<Chair, Memory>
    requires { marked (worker_view worker.old).role ≡ Marked }
    ensures same { worker_deque worker.new ≡ worker_deque worker.old }
    ensures view { IfOk result (λ _. worker_view worker.new ≡ mark (worker_view worker.old)) }
    ensures at { IfOk result (λ chair. stealer_deque chair.thief ≡ worker_deque worker.old) }
    ensures fresh { IfOk result (IsFresh (worker_view worker.old).dealt) }
{
    let thief = worker.stealer()?;
    let pass = worker.another::<Hand>();
    Ok(Chair {
        thief,
        pass,
        misses: 0,
    })
}
