//! Frames made from labels: for a listed key, a frame at the root or at the leaf of each sample that has a label of
//! that key.
//!
//! Begin with `tagging` (`with_tags`). `keys` reads the lists of keys, `frames` and `frame_name` make a sample's
//! frames, and `growing` adds their functions to the profile. `framing` decides whether a report gets such frames at
//! all.
#![tactic(auto)]

mod frame_name;
mod frames;
mod framing;
mod growing;
mod keys;
mod names;
mod tagging;

pub use framing::{basis, framed_for};
pub use keys::key_list;
pub use tagging::with_tags;
