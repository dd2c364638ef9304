//! Why there is no report.
ghost use Rattle.std.specs.Prelude.{◌≡◌, Some};
ghost use Rattle.pp_library.specs.Reports.{report_refusal};
ghost use Rattle.pp_library.specs.declared.report_error.ReportError.TheVariants as errors;

use pp_base::Memory as WantOfMemory;
use pp_model::Slot;
use pp_report::ReportRefusal;
use thiserror::Error;

/// Why there is no report: the first cause.
#[derive(Clone, Copy, Debug, PartialEq, Eq, Error)]
pub enum ReportError {
    /// `sample_index` asks for a sample type that isn't there.
    #[error("no such sample type")]
    BadSampleIndex,
    /// `unit` asks for a unit of something else than the values.
    #[error("unit of another kind")]
    UnitMismatch,
    /// The matcher refused the pattern of this option, which is `Own` for the pattern of a peek report.
    #[error("the pattern of {option:?} is refused")]
    PatternRefused { option: Slot },
    /// The pattern of a peek report finds no function that the report could show.
    #[error("no function matches")]
    NoMatch,
    /// A compare or changes report is asked for, and there is nothing to compare with. No base was given for that, and no
    /// sample carries the label `pprof::base` of the text `true`.
    #[error("no base")]
    NoBase,
    /// Want of memory.
    #[error("out of memory")]
    Memory,
}

impl From<WantOfMemory> for ReportError {
    ghost from_gives = { λ _ e. e ≡ errors.Memory };

    fn from(_: WantOfMemory) -> Self {
        ReportError::Memory
    }
}

impl From<ReportRefusal> for ReportError {
    ghost from_gives = { λ refusal e. report_refusal e ≡ Some refusal };

    fn from(refusal: ReportRefusal) -> Self {
        match refusal {
            ReportRefusal::BadSampleIndex => ReportError::BadSampleIndex,
            ReportRefusal::UnitMismatch => ReportError::UnitMismatch,
            ReportRefusal::PatternRefused { option } => ReportError::PatternRefused { option },
            ReportRefusal::NoMatch => ReportError::NoMatch,
            ReportRefusal::NoBase => ReportError::NoBase,
        }
    }
}
