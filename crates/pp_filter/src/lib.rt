//! A profile filtered in one call: what the patterns and the filters of a configuration leave of it, as a profile of its
//! own. It needs no desk.
//!
//! Begin with `filtering`; `judging` asks the patterns, and `refusal` has the causes of a refusal.
#![tactic(auto)]

mod filtering;
mod judging;
mod refusal;

pub use filtering::filtered;
pub use refusal::FilterRefusal;
