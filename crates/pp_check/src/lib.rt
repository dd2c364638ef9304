//! The table rules of a profile: which of them fails first, and at which index.
//!
//! Rule 1: text 0 is there and empty. Rule 2: all text indices are in range. It is asked of the header, the comments,
//! the sample types, the samples' labels, the mappings and the functions, in this order. Rule 3: a profile with samples
//! has a sample type. Rules 4 and 5: mapping ids are not 0, and distinct; rules 6 and 7, 8 and 9 say the same of
//! functions and of locations. Rule 10: each location's mapping and its lines' functions are 0 or there. Rule 11: each
//! sample's locations are there. Rule 12: each sample has one value per sample type.
//!
//! `checking` is the file to begin with: the rules in the order in which they decide, over `texts`, `ids` and `references`.
//! Samples are many, so `check_on` (`lanes`) tries all rules on each of them in one walk, on several lanes. The walk
//! also hashes them for merging (`asking`). Where they break no rule, they are left out later (`samples`).
#![tactic(auto)]

mod asking;
mod checking;
mod fault;
mod ids;
mod known;
mod lanes;
mod laws;
mod references;
mod samples;
mod texts;

pub use checking::{check, first_fault};
pub use fault::{CheckRefusal, Table, TableFault};
pub use lanes::check_on;
pub use laws::no_fault_means_no_rule_fails;
