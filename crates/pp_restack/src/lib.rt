//! A profile made of stacks: locations of which lines may be cut, and the samples that name them.
//!
//! `stacks` puts a sample's frames into groups, a group a location. `places` finds the location with just the lines of a
//! group: the profile's own, one that was cut before, or a new one behind all. `copying` has what is taken over as it
//! stands.
#![tactic(auto)]

mod copying;
mod places;
mod stacks;

pub use copying::{no_items, sample_with, with_cut};
pub use places::{CutKey, Places, place_line, places_of};
pub use stacks::place_stack;
