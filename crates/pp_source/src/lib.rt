//! The list report: the lines of source of the functions that a pattern finds, with what the samples come to in each.
//!
//! Begin with `listing`. First `found` and `lines` find the lines and routines that the pattern matches, and `ledger`
//! adds up the samples in them (`walk`, `tallies`). Then `files` reads each source once, by the paths that `paths`
//! gives, and `split` cuts it into lines. `routine` and `rows` write the text.
#![tactic(auto)]

mod amounts;
mod files;
mod found;
mod ledger;
mod lines;
mod listing;
mod looking;
mod paths;
mod refusal;
mod routine;
mod rows;
mod runs;
mod source;
mod split;
mod tallies;
mod walk;

pub use listing::write_list;
pub use refusal::ListRefusal;
pub use source::{SOURCE_LIMIT, limit_of_sources};
