//! What is wrong with a CPU profile, and where.
ghost use Rattle.std.specs.Prelude.{◌≡◌};
ghost use Rattle.pp_legacy.specs.declared.fault.LegacyRefusal.TheVariants as refusals;

use pp_base::Memory as WantOfMemory;
use std::alloc::{AllocError, AllocFailed};
use thiserror::Error;

/// Which rule of the format is broken.
#[derive(Clone, Copy, Debug, PartialEq, Eq, Error)]
pub enum LegacyKind {
    /// The file ends before a word that is needed.
    #[error("truncated")]
    Truncated,
    /// A word of the header has a value that it may not have.
    #[error("bad header")]
    BadHeader,
    /// A record has the count 0 and isn't the trailer, or it has no addresses.
    #[error("bad record")]
    BadRecord,
    /// The counts so far, in nanoseconds, are above 2^63-1.
    #[error("total too large")]
    TooLarge,
}

/// The first fault of a CPU profile, from the front.
#[derive(Clone, Copy, Debug, PartialEq, Eq, Error)]
#[error("{kind} at word {word}")]
pub struct LegacyFault {
    /// Which rule is broken.
    pub kind: LegacyKind,
    /// The number of the word whose value is refused, from 0. Of `TooLarge` it is the first word of the record. Of
    /// `Truncated` it is the number of whole words that the file has.
    pub word: u64,
}

/// Why a file isn't read as a CPU profile.
#[derive(Clone, Copy, Debug, PartialEq, Eq, Error)]
pub enum LegacyRefusal {
    /// The first fault of the file.
    #[error("{0}")]
    Fault(LegacyFault),
    /// Want of memory.
    #[error("out of memory")]
    Memory,
}

impl From<LegacyFault> for LegacyRefusal {
    ghost from_gives = { λ fault e. e ≡ refusals.Fault fault };

    fn from(fault: LegacyFault) -> Self {
        LegacyRefusal::Fault(fault)
    }
}

impl From<WantOfMemory> for LegacyRefusal {
    ghost from_gives = { λ _ e. e ≡ refusals.Memory };

    fn from(_: WantOfMemory) -> Self {
        LegacyRefusal::Memory
    }
}

impl From<AllocError> for LegacyRefusal {
    ghost from_gives = { λ _ e. e ≡ refusals.Memory };

    fn from(_: AllocError) -> Self {
        LegacyRefusal::Memory
    }
}

impl<T: Drop> From<AllocFailed<T>> for LegacyRefusal {
    ghost from_gives = { λ _ e. e ≡ refusals.Memory };

    fn from(_: AllocFailed<T>) -> Self {
        LegacyRefusal::Memory
    }
}
