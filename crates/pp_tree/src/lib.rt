//! The tree report and the peek report. Tree shows each node between its callers and its callees, and peek does so for
//! the nodes that a pattern finds.
//!
//! Begin with `tree` and `peek`. `nodes` writes a node between its callers and callees, which `ends` gathers and `near`
//! sorts and writes. `found` and `own` find the nodes of peek.
#![tactic(auto)]

mod ends;
mod found;
mod near;
mod nodes;
mod own;
mod peek;
mod tree;

pub use peek::write_peek;
pub use tree::write_tree;
