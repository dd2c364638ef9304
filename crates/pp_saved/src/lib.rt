//! A saved profile reports as its filters did: laws of the profile that `pp_dump::saved_profile` gives, and of the text
//! that `pp_report::generate` gives for a proto report.
//!
//! Each law is the contract of a call that does nothing, over the definitions that the reports are proved against.
//!
//! Begin with `kept`, what a saved profile keeps. `reports` has the reports as a whole, with their heads and refusals.
#![tactic(auto)]

mod kept;
mod reports;

pub use kept::{saved_figures, saved_lasts, saved_texts};
pub use reports::{saved_bytes, saved_reports};
