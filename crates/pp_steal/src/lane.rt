//! A lane: its own deque, and a chair at each deque.
ghost use Rattle.std.specs.Prelude.{◌≡◌, ◌≢◌, ℕ, ◌<◌, ◌≤◌, length, slice_index, slice_index_or, [], map, vec_capacity, IfSome, IfNone};
ghost use Rattle.crossbeam_deque.specs.Handles.{worker_deque, stealer_deque, worker_view};
ghost use Rattle.pp_steal.specs.declared.chair.Chair.{Chair};
ghost use Rattle.pp_steal.specs.declared.view.Role.TheVariants.{Marked};
ghost use Rattle.pp_steal.specs.Dealing.{AreDistinctPieces};
ghost use Rattle.pp_steal.specs.Room.{RoomFor};
ghost use Rattle.pp_steal.specs.Lanes.{IsReadyView, AreFresh, HasItsPieces, make_of, homes_at, deque_of, Tends};
ghost use Rattle.pp_steal.specs.Reaching.{Gave, NoneFell, AllRose, CameInTurn};

use crate::chair::{Chair, Owner};
use crate::deal::Deal;
use crate::reach::{Reach, sweep};
use crate::room::LaneRoom;
use crate::view::Take;
use std::marker::Model;

/// A lane of a pool. Contracts see which make it is of, its number, the pieces that its own deque was dealt, those
/// that it took, and its counts.
#[derive(Drop)]
pub struct Lane {
    deal: Deal,
    pieces: u32,
    own: u32,
    worker: Owner,
    // One at each lane's deque, in order. That at its own deque is not used: there the worker has a pass.
    chairs: Vec<Chair>,
    taken: Vec<u32>,
    empties: u64,
    room: Option<LaneRoom>,
}

impl Model for Lane {
    ghost use Rattle.std.specs.Prelude.{◌≡◌, ◌≤◌, length, map, vec_capacity, slice_index_or};
    ghost use Rattle.crossbeam_deque.specs.Handles.{worker_deque, stealer_deque, worker_view};
    ghost use Rattle.pp_steal.specs.declared.chair.Chair.{Chair};
    ghost use Rattle.pp_steal.specs.Lanes.{Standing, deque_of, the_make, Tends};
    ghost use Rattle.pp_steal.specs.Room.{RoomFor};

    ghost Value = { Standing };

    ghost view = { λ a. record {
      make = the_make (map deque_of a.chairs.items) a.deal a.pieces;
      own = a.own;
      dealt = (worker_view a.worker).dealt;
      taken = a.taken.items;
      empties = a.empties;
      misses = map (λ c. c.misses) a.chairs.items;
    } };

    ghost invariant = { λ a. Tends a.deal a.pieces a.own a.taken.items
        (worker_view a.worker) a.chairs.items
        × (a.pieces ≤ vec_capacity a.taken)
        × ((c : Chair) → worker_deque a.worker
        ≡ stealer_deque (slice_index_or a.chairs.items a.own c).thief)
        × RoomFor a.own (length a.chairs.items) a.pieces a.room };
}

impl Lane {
    /// The next piece for this lane: of its own deque, or else of another lane's, from its right neighbour round. With
    /// `None` the count of its own deque rose, and that of each other lane. With `Some` the counts rose of the deques
    /// that were asked before, and no others. No memory.
    pub fn next(&mut self) -> Option<u32>
        ensures same_make { self.new.make ≡ self.old.make }
        ensures same_own { self.new.own ≡ self.old.own }
        ensures dealt { HasItsPieces self.new }
        ensures pieces { AreDistinctPieces self.new.make.pieces self.new.taken }
        ensures counts { NoneFell self.old.empties (slice_index self.old.misses)
            self.new.empties (slice_index self.new.misses) }
        ensures some { IfSome result (Gave self.old.taken self.new.taken) }
        ensures round { IfSome result (λ _. CameInTurn (length self.old.make.deques) self.old.own
            self.old.empties (slice_index self.old.misses)
            self.new.empties (slice_index self.new.misses)) }
        ensures none { IfNone result (self.new.taken ≡ self.old.taken) }
        ensures tried { IfNone result (AllRose (length self.old.make.deques) self.old.own
            self.old.empties (slice_index self.old.misses)
            self.new.empties (slice_index self.new.misses)) }
    {
        let piece = sweep(self);
        // A field is read, so that the invariant of the lane as it is now is known.
        let _ = &self.own;
        piece
    }

    /// The pieces that it took, in order. No memory.
    pub fn taken(&self) -> &[u32]
        ensures { result.now ≡ self.now.taken }
    {
        self.taken.as_slice()
    }
}

impl Reach for Lane {
    ghost use Rattle.std.specs.Prelude.{length, slice_index};

    ghost lanes = { λ s. length s.make.deques };

    ghost own = { λ s. s.own };

    ghost make = { λ s. s.make };

    ghost taken = { λ s. s.taken };

    ghost empties = { λ s. s.empties };

    ghost misses = { λ s lane. slice_index s.misses lane };

    fn lanes(&self) -> u32 {
        self.chairs.len() as u32
    }

    fn own(&self) -> u32 {
        self.own
    }

    fn pop(&mut self) -> Option<u32> {
        match self.worker.pop_as::<Take>() {
            Some(piece) => {
                self.taken.push_reserved(piece);
                Some(piece)
            }
            None => {
                self.empties = self.empties.saturating_add(1);
                None
            }
        }
    }

    fn steal(&mut self, from: u32) -> Option<u32> {
        let chair = &mut self.chairs[from as usize];
        match chair.steal() {
            Some(piece) => {
                self.taken.push_reserved(piece);
                Some(piece)
            }
            None => None,
        }
    }
}

// What a lane is made of, but for its number and its counts.
pub(crate) struct Parts {
    pub(crate) deal: Deal,
    pub(crate) pieces: u32,
    pub(crate) worker: Owner,
    pub(crate) chairs: Vec<Chair>,
    pub(crate) taken: Vec<u32>,
    pub(crate) room: Option<LaneRoom>,
}

impl Lane {
    // The lane with this number, which has taken nothing.
    pub(crate) fn new(own: u32, parts: Parts) -> Lane
        requires few { (own < length parts.chairs.items) × (length parts.chairs.items ≤ 64) }
        requires ready { IsReadyView parts.deal (length parts.chairs.items) parts.pieces own
            (worker_view parts.worker) }
        requires marked { (worker_view parts.worker).role ≡ Marked }
        requires home { (c : Chair) → worker_deque parts.worker
            ≡ stealer_deque (slice_index_or parts.chairs.items own c).thief }
        requires chairs { AreFresh parts.deal (length parts.chairs.items) parts.pieces
            parts.chairs.items }
        requires taken { (parts.taken.items ≡ []) × (parts.pieces ≤ vec_capacity parts.taken) }
        requires room { RoomFor own (length parts.chairs.items) parts.pieces parts.room }
        ensures make { result.make ≡ make_of (homes_at parts.chairs.items) parts.deal parts.pieces }
        ensures own { result.own ≡ own }
        ensures dealt { HasItsPieces result }
        ensures taken { result.taken ≡ [] }
    {
        let Parts {
            deal,
            pieces,
            worker,
            chairs,
            taken,
            room,
        } = parts;
        Lane {
            deal,
            pieces,
            own,
            worker,
            chairs,
            taken,
            empties: 0,
            room,
        }
    }

    // Takes the lane apart.
    pub(crate) fn into_parts(self) -> Parts
        ensures deal { result.deal ≡ self.make.deal }
        ensures pieces { result.pieces ≡ self.make.pieces }
        ensures deques { map deque_of result.chairs.items ≡ self.make.deques }
        ensures taken { result.taken.items ≡ self.taken }
        ensures tends { Tends self.make.deal self.make.pieces self.own self.taken
            (worker_view result.worker) result.chairs.items }
        ensures home { (c : Chair) → worker_deque result.worker
            ≡ stealer_deque (slice_index_or result.chairs.items self.own c).thief }
        ensures room { RoomFor self.own (length result.chairs.items) self.make.pieces result.room }
    {
        let Lane {
            deal,
            pieces,
            own: _,
            worker,
            chairs,
            taken,
            empties: _,
            room,
        } = self;
        Parts {
            deal,
            pieces,
            worker,
            chairs,
            taken,
            room,
        }
    }
}
