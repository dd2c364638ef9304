//! Why a report on what a pattern finds was not written.

ghost use Rattle.std.specs.Prelude.{◌≡◌};
ghost use Rattle.pp_base.specs.declared.refusal.MatchRefusal.TheVariants as variants;

use crate::Memory as WantOfMemory;
use std::alloc::{AllocError, AllocFailed};
use thiserror::Error;

/// Why a report on what a pattern finds was not written.
#[derive(Clone, Copy, Debug, PartialEq, Eq, Error)]
pub enum MatchRefusal {
    /// The pattern finds nothing that the report could show.
    #[error("no matches found")]
    NoMatch,
    /// Want of memory.
    #[error("out of memory")]
    Memory,
}

impl From<WantOfMemory> for MatchRefusal {
    ghost from_gives = { λ _ e. e ≡ variants.Memory };

    fn from(_: WantOfMemory) -> Self {
        MatchRefusal::Memory
    }
}

impl From<AllocError> for MatchRefusal {
    ghost from_gives = { λ _ e. e ≡ variants.Memory };

    fn from(_: AllocError) -> Self {
        MatchRefusal::Memory
    }
}

impl<T: Drop> From<AllocFailed<T>> for MatchRefusal {
    ghost from_gives = { λ _ e. e ≡ variants.Memory };

    fn from(_: AllocFailed<T>) -> Self {
        MatchRefusal::Memory
    }
}
