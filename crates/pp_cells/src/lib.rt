//! Rows of cells for other programs: a heading, a value in decimal, and the name of a key, which ends the row.
//!
//! Cells stand apart by tabs. A tab, a line end and a backslash in a text are escaped, so a row can be cut again.
#![tactic(auto)]

mod cells;

pub use cells::{put_heading_cell, put_name_cell, put_value_cell};
