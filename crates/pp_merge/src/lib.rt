//! Profiles merged, scaled, and subtracted from one another.
//!
//! Begin with `merging`: `compatible` says whether the profiles agree, `totals` and `together` whether their sums fit,
//! and `join` puts their tables one behind the other. pp_share then makes equal things one.
//!
//! `alone` merges one profile, `scaling` and `normalizing` change values, and `subtracting` merges the negated base
//! with a source. `laws` says what holds of every merged profile.
#![tactic(auto)]

mod alone;
mod compatible;
mod durations;
mod join;
mod laws;
mod merging;
mod normalizing;
mod refusal;
mod scaling;
mod subtracting;
mod together;
mod totals;

pub use alone::{merge_alone, merge_alone_on};
pub use compatible::agree;
pub use laws::{
    absolute_sums_are_within, merged_is_again, merged_is_settled, sums_are_kept,
    tables_are_no_longer, written_is_again, written_is_compact, written_is_valid,
};
pub use merging::{merge, merge_on};
pub use normalizing::normalize;
pub use refusal::{MergeRefusal, NothingToScale, What};
pub use scaling::scale;
pub use subtracting::{subtract, subtract_on};
