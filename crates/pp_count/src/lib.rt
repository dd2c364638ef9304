//! What a report counts: its column and total, its key numbers, and sums over the samples, in pieces on the lanes.
//!
//! Begin with `survey`, which is what a report looks at, and `counted` (`count`). A count has three parts: `table`
//! numbers the keys of each location's lines, `filters` makes the filters ready, and `waves` runs pieces of samples on
//! the lanes.
//!
//! Of a piece, `counting` is the job and `part` the loop over its samples; `seeing` gives a sample's keys, `value` its
//! value, and `tallies` adds them up. `sofar` joins parts in order. `recounting` and `pairs` count edges by the same
//! tables, and `base` the samples of a base. `laws` says what holds of any verdicts.
#![tactic(auto)]

mod base;
mod column;
mod counted;
mod counting;
mod edge;
mod filters;
mod finding;
mod frames;
mod heavy;
mod laws;
mod matched;
mod pairs;
mod part;
mod parts;
mod recounting;
mod rows;
mod scope;
mod seeing;
mod slots;
mod sofar;
mod sums;
mod survey;
mod table;
mod tallies;
mod tally;
mod total;
mod value;
mod waves;

pub use base::{BaseSums, base_sums, counted_whole, has_base};
pub use column::{BadSampleIndex, column_of};
pub use counted::{Counted, count};
pub use edge::Edge;
pub use filters::Filters;
pub use heavy::is_heavy;
pub use laws::verdicts_are_found;
pub use matched::Matched;
pub use pairs::Pairing;
pub use part::{KeySum, Part};
pub use parts::{count_piece, join_parts};
pub use recounting::{Ends, edges_about, recount};
pub use rows::Rows;
pub use scope::{Scope, sample_at};
pub use seeing::see;
pub use sums::Sums;
pub use survey::Survey;
pub use table::{KeyTable, key_table};
pub use tallies::{Tallies, add_sample, tally_of};
pub use tally::Tally;
pub use value::selected;
