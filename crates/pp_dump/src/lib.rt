//! The profile that a report saves, and the report raw, which prints it table by table.
//!
//! `saved` makes the profile that a report saves: `cutting` filters each sample's stack, and pp_restack makes a profile
//! of the stacks that are left. Where no stack is filtered, `whole` copies the samples on the lanes. `raw` prints a profile,
//! with `samples`, `locations` and `digits` below it.
#![tactic(auto)]

mod cutting;
mod digits;
mod locations;
mod raw;
mod samples;
mod saved;
mod whole;

pub use raw::write_raw;
pub use saved::saved_profile;
