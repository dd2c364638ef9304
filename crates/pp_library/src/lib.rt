//! The library in few calls, for programs that do what the command does: the bytes of a file loaded, profiles merged,
//! the figures of a report as values, and the text of a report. What one call makes sure of, no other asks for.
//!
//! Begin with `countable`, the profile that the calls hand on. `loading` and `merging` make one, and `tabling` and
//! `reporting` report on it. Each error tells the first cause. `laws` states what loading bytes has to do with the
//! command, and figures with the table report.
#![tactic(auto)]

mod countable;
mod edging;
mod laws;
mod load_error;
mod loading;
mod merge_error;
mod merging;
mod report_error;
mod reporting;
mod tabling;

pub use countable::Countable;
pub use edging::FigureEdge;
pub use laws::{bytes_load_as_files, tables_print_figures};
pub use load_error::LoadError;
pub use loading::load;
pub use merge_error::MergeError;
pub use merging::merge;
pub use report_error::ReportError;
pub use reporting::{reads_sources, report};
pub use tabling::{Figure, FigureTable, figures};
