//! Reports for other programs: the paths of samples in one line each, and the sums of keys as a table.
//!
//! `folded` writes a line for each path and `table` a line for each key; `escaped` spells names so that paths
//! can be cut again. `laws` says what the lines add up to.
#![tactic(auto)]

mod escaped;
mod folded;
mod laws;
mod path_names;
mod table;

pub use folded::write_folded;
pub use laws::{folded_lines_add_up, table_limits_only_cut};
pub use table::write_table;
