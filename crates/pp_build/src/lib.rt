//! A profile that is built call by call: its texts, mappings, functions and locations stand once each, its samples in
//! the order in which they were added. What a builder has is at all times a profile in which no table rule fails.
//!
//! Begin with `builder`. `given` has what a caller names and gives, `entries` the tables' entries, and `once` and
//! `seen` find out whether an entry was given before.
#![tactic(auto)]

mod builder;
mod entries;
mod given;
mod once;
mod seen;

pub use builder::Builder;
pub use given::{
    FunctionId, LabelValue, LocationId, MappingId, NewMapping, SampleLabel, SourceLine, TextId,
};
