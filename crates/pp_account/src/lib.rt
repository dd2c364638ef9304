//! The account report: how many samples and values each filter drops, what the filters leave, and which keys the limits
//! leave out. It answers why a report is empty, and why its rows don't add up to 100%.
#![tactic(auto)]

mod account;
mod first;
mod nodes;
mod portion;
mod portions;
mod rows;
mod samples;

pub use account::write_account;
