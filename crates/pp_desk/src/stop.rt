//! What stops a stage on its way.
ghost use Rattle.std.specs.Prelude.{◌≡◌};
ghost use Rattle.pp_desk.specs.declared.stop.Stop.TheVariants as stops;

use pp_base::Memory as WantOfMemory;
use std::alloc::{AllocError, AllocFailed};
use thiserror::Error;

/// What stops a stage on its way: the object that failed, or want of memory.
#[derive(Clone, Copy, Debug, PartialEq, Eq, Error)]
pub enum Stop {
    /// A file failed while it was read or written.
    #[error("file fault")]
    File,
    /// Standard input failed.
    #[error("input fault")]
    Input,
    /// Standard output failed.
    #[error("output fault")]
    Out,
    /// Standard error failed.
    #[error("error output fault")]
    Err,
    /// Want of memory.
    #[error("out of memory")]
    Memory,
}

impl From<WantOfMemory> for Stop {
    ghost from_gives = { λ _ e. e ≡ stops.Memory };

    fn from(_: WantOfMemory) -> Self {
        Stop::Memory
    }
}

impl From<AllocError> for Stop {
    ghost from_gives = { λ _ e. e ≡ stops.Memory };

    fn from(_: AllocError) -> Self {
        Stop::Memory
    }
}

impl<T: Drop> From<AllocFailed<T>> for Stop {
    ghost from_gives = { λ _ e. e ≡ stops.Memory };

    fn from(_: AllocFailed<T>) -> Self {
        Stop::Memory
    }
}
