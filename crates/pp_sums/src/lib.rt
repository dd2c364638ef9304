//! Laws of sums: what figures of reports owe one another, and what merging and writing leave of them.
//!
//! Each law is the contract of a call that does nothing. It is stated over the definitions that the reports are proved
//! against, so it holds of every figure that they print. `specs/` has the statements, a file for each module, and what
//! several of them say of two reports in `Same.antt`.
#![tactic(auto)]

mod callers;
mod changes;
mod coarser;
mod finer;
mod listed;
mod shown;
mod sources;

pub use callers::edges_account_for_keys;
pub use changes::changes_add_up;
pub use coarser::coarser_files_report_alike;
pub use finer::parts_add_up;
pub use listed::listed_lines_add_up;
pub use shown::{tags_add_up, traces_add_up};
pub use sources::{no_key_vanishes_in_a_merge, source_order_is_free};
