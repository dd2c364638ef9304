//! Why a profile is not filtered.
ghost use Rattle.std.specs.Prelude.{◌≡◌};
ghost use Rattle.pp_filter.specs.declared.refusal.FilterRefusal.TheVariants as refusals;

use pp_base::Memory as WantOfMemory;
use pp_model::Slot;
use pp_pattern::{FramesRefused, PatternRefused};
use thiserror::Error;

/// The first pattern that the matcher refused, or want of memory.
#[derive(Clone, Copy, Debug, PartialEq, Eq, Error)]
pub enum FilterRefusal {
    /// The profile's own pattern of functions that are dropped with all that they call.
    #[error("drop_frames is no pattern")]
    DropFrames,
    /// The profile's own pattern of functions that stay in spite of it.
    #[error("keep_frames is no pattern")]
    KeepFrames,
    /// The pattern of this option.
    #[error("the pattern of {option:?} is refused")]
    Pattern { option: Slot },
    /// Want of memory.
    #[error("out of memory")]
    Memory,
}

impl From<WantOfMemory> for FilterRefusal {
    ghost from_gives = { λ _ e. e ≡ refusals.Memory };

    fn from(_: WantOfMemory) -> Self {
        FilterRefusal::Memory
    }
}

/// The first pattern that the matcher refused.
#[derive(Clone, Copy, Debug, PartialEq, Eq)]
pub enum Refused {
    /// One of the profile's own two.
    OfProfile(FramesRefused),
    /// That of an option.
    OfOption(PatternRefused),
}
