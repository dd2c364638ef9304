//! What a program does with a profile that it holds, beside reports: copies of it, labels that are asked for, set and
//! removed, whether it can be counted, and what a report without patterns is made of.
//!
//! `copying` copies profiles. `asking` looks for labels, and `labelling` sets and removes them. `counting` asks whether
//! sums fit, and `verdicts` makes what a report without patterns reads.
#![tactic(auto)]

mod asking;
mod copying;
mod counting;
mod key;
mod labelling;
mod texts;
mod verdicts;

pub use asking::{find_label, has_label, is_of_base};
pub use copying::{copy_compact, copy_profile, copy_valid};
pub use counting::is_countable;
pub use labelling::{remove_label, set_label, set_number_label};
pub use verdicts::{no_verdicts, without_patterns};
