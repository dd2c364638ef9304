//! The reports that are tables of keys: top, compare and changes.
//!
//! Begin with `top`: it writes the head, the heading and a row for each key that is shown, in report order. `rows` has
//! the rows, over the columns of pp_units. `compare` writes what each key comes to in a base and in a source, and how far
//! they differ: a line for all, and a row for each key. `compared_rows` has the rows, `columns` their columns, and
//! `difference` what is before and after a change. `changes` writes the same figures exact.
#![tactic(auto)]

mod changes;
mod columns;
mod compare;
mod compared_rows;
mod difference;
mod rows;
mod top;

pub use changes::write_changes;
pub use compare::write_compare;
pub use top::write_top;
