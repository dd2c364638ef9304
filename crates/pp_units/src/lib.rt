//! Units, numbers, percentages, ranges, fractions and heads: every number that a person reads.
//!
//! A value is printed in steps: `scale` and `family` are the table of units, `picked`, `forced` and `each` choose a
//! unit, `rounded` rounds to hundredths, and `number` writes digits. `row` and `head` have the columns and lines that
//! several reports share, `range` and `fraction` read what options spell.
#![tactic(auto)]

mod each;
mod family;
mod forced;
mod fraction;
mod head;
mod number;
mod picked;
mod range;
mod right;
mod rounded;
mod row;
mod scale;
mod scan;
mod small;
mod unit;

pub use each::each_unit;
pub use family::{Family, family_of};
pub use forced::forced_unit;
pub use fraction::{BILLION, read_fraction};
pub use head::{Head, put_size, write_head};
pub use number::{put_value, write_percent, write_value};
pub use picked::pick_unit;
pub use range::{Bound, Range, in_range, read_range};
pub use right::put_right;
pub use row::{HEADING, put_dropped_edges, put_dropped_nodes, put_limited, put_numbered};
pub use scan::{cut_at, number_within};
pub use small::Small;
pub use unit::Unit;
