//! Why profiles can't be merged or scaled.
ghost use Rattle.std.specs.Prelude.{◌≡◌};
ghost use Rattle.pp_merge.specs.declared.refusal.MergeRefusal.TheVariants as refusals;

use pp_base::Memory as WantOfMemory;
use std::alloc::{AllocError, AllocFailed};
use thiserror::Error;

/// What two profiles have to agree in before they are merged.
#[derive(Clone, Copy, Debug, PartialEq, Eq)]
pub enum What {
    /// The types and units of the columns, in their order.
    SampleTypes,
    /// The type and unit of the period.
    PeriodType,
}

/// Why profiles were not merged.
#[derive(Clone, Copy, Debug, PartialEq, Eq, Error)]
pub enum MergeRefusal {
    /// The first profile of the list, by its place from 0, that does not agree with the one at place 0.
    #[error("profile {source} does not agree with the first one")]
    Incompatible { source: u32, what: What },
    /// The least column, from 0, whose absolute values add up to more than 2^63-1.
    #[error("the sum of column {column} is too large")]
    TotalTooLarge { column: u32 },
    /// Want of memory.
    #[error("out of memory")]
    Memory,
}

impl From<WantOfMemory> for MergeRefusal {
    ghost from_gives = { λ _ e. e ≡ refusals.Memory };

    fn from(_: WantOfMemory) -> Self {
        MergeRefusal::Memory
    }
}

/// The least column, from 0, in which the source has nothing but zeros and the base has not.
#[derive(Clone, Copy, Debug, PartialEq, Eq, Error)]
#[error("column {column} has nothing to scale")]
pub struct NothingToScale {
    /// The place of the sample type, from 0.
    pub column: u32,
}
