//! A lane's place at one deque.
ghost use Rattle.std.specs.Prelude.{◌≡◌, ◌≤◌, [], ◌∷◌, IfSome, IfNone};
ghost use Rattle.crossbeam_deque.specs.Handles.{view, IsPassOf, SamePass, stealer_deque};
ghost use Rattle.pp_base.specs.Words.{Rose};
ghost use Rattle.pp_steal.specs.declared.view.Role.TheVariants.{Guest};
ghost use Rattle.pp_steal.specs.Pool.{TakesPieces};

use crate::view::{OnceEach, Take, View};
use crossbeam_deque::{Pass, Steal, Stealer, Worker};
use std::alloc::Global;

// The owner's handle of a deque.
pub(crate) type Owner = Worker<u32, Global, View, OnceEach>;

// A handle of a deque for stealing.
pub(crate) type Thief = Stealer<u32, Global, View, OnceEach>;

// A pass of one deque, and how often a steal with it gave nothing.
#[derive(Drop)]
pub(crate) struct Chair {
    pub(crate) thief: Thief,
    pub(crate) pass: Pass<u32, View>,
    pub(crate) misses: u64,
}

impl Chair {
    // The first piece of the deque.
    pub(crate) fn steal(&mut self) -> Option<u32>
        requires pass { IsPassOf (stealer_deque self.old.thief) self.old.pass }
        requires guest { (view self.old.pass).role ≡ Guest }
        ensures thief { self.new.thief ≡ self.old.thief }
        ensures pass { SamePass self.old.pass self.new.pass }
        ensures later { self.old.misses ≤ self.new.misses }
        ensures some { IfSome result (λ piece.
            TakesPieces (view self.old.pass) (piece ∷ []) (view self.new.pass)) }
        ensures hit { IfSome result (λ _. self.new.misses ≡ self.old.misses) }
        ensures none { IfNone result (view self.new.pass ≡ view self.old.pass) }
        ensures miss { IfNone result (Rose self.old.misses self.new.misses) }
    {
        match self.thief.steal_as::<Take>(&mut self.pass) {
            Steal::Success(piece) => Some(piece),
            // A deque may give nothing though it holds pieces, while another lane takes one.
            Steal::Empty | Steal::Retry => {
                self.misses = self.misses.saturating_add(1);
                None
            }
        }
    }
}
