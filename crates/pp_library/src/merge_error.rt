//! Why profiles are not merged.
ghost use Rattle.std.specs.Prelude.{◌≡◌};
ghost use Rattle.pp_library.specs.Merged.{merge_error};
ghost use Rattle.pp_library.specs.declared.merge_error.MergeError.TheVariants as errors;

use pp_base::Memory as WantOfMemory;
use pp_merge::{MergeRefusal, What};
use thiserror::Error;

/// Why profiles are not merged: the first cause.
#[derive(Clone, Copy, Debug, PartialEq, Eq, Error)]
pub enum MergeError {
    /// There are 2^32 profiles or more, one has 2^32 sample types or more, or together they have 2^32 samples or more.
    #[error("too many profiles, sample types or samples")]
    TooMany,
    /// The first profile of the list, by its place from 0, that does not agree with the one at place 0.
    #[error("profile {source} does not agree with the first one")]
    Incompatible { source: u32, what: What },
    /// The least column, from 0, whose absolute values add up to more than 2^63-1.
    #[error("the sum of column {column} is too large")]
    TotalTooLarge { column: u32 },
    /// The matcher refused the merged profile's own pattern of functions that are dropped with all that they call.
    #[error("drop_frames is refused")]
    DropFrames,
    /// The matcher refused the merged profile's own pattern of functions that stay in spite of it.
    #[error("keep_frames is refused")]
    KeepFrames,
    /// Want of memory.
    #[error("out of memory")]
    Memory,
}

impl From<WantOfMemory> for MergeError {
    ghost from_gives = { λ _ e. e ≡ errors.Memory };

    fn from(_: WantOfMemory) -> Self {
        MergeError::Memory
    }
}

impl From<MergeRefusal> for MergeError {
    ghost from_gives = { λ refusal e. e ≡ merge_error refusal };

    fn from(refusal: MergeRefusal) -> Self {
        match refusal {
            MergeRefusal::Incompatible { source, what } => MergeError::Incompatible {
                source,
                what,
            },
            MergeRefusal::TotalTooLarge { column } => MergeError::TotalTooLarge { column },
            MergeRefusal::Memory => MergeError::Memory,
        }
    }
}
