//! Patterns as regular expressions: a matcher over the crate `regex`, in whose words it is told what a pattern finds.
//!
//! Begin with `matcher`: `building` makes the expression, and `searching` asks it of texts.
#![tactic(auto)]

mod building;
mod matcher;
mod searching;

pub use matcher::RegexMatcher;
