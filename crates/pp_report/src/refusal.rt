//! Why a report is not made.

use pp_model::Slot;
use thiserror::Error;

/// Why a report is not made.
#[derive(Clone, Copy, Debug, PartialEq, Eq, Error)]
pub enum ReportRefusal {
    /// `sample_index` asks for a sample type that isn't there.
    #[error("no such sample type")]
    BadSampleIndex,
    /// `unit` asks for a unit of something else than the values.
    #[error("unit of another kind")]
    UnitMismatch,
    /// The matcher refused the pattern of this option, which is `Own` for the pattern of a peek or list report.
    #[error("pattern refused")]
    PatternRefused { option: Slot },
    /// The pattern of a peek or list report finds no function that the report could show.
    #[error("no function matches")]
    NoMatch,
    /// A compare or changes report is asked for without a base: none was given to compare with, and no sample carries
    /// the label `pprof::base` of the text `true`.
    #[error("no base")]
    NoBase,
}
