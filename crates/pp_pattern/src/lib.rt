//! The patterns of a report and of a profile, asked of a desk's matcher in their order. The first that is refused ends
//! the asking; else their verdicts are one truth value a text.
//!
//! Begin with `report` (`judge`), which asks a report's patterns, and `load`, which asks a profile's own two. `asking`
//! asks one pattern of all texts that `subjects` lists; `parts` asks those of a tag filter.
#![tactic(auto)]

mod asking;
mod load;
mod parts;
mod report;
mod subjects;

pub use load::{FramesRefused, judge_load};
pub use report::{PatternRefused, judge};
