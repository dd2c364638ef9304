//! Which keys and edges a report shows: the ranking, and the graph of linked edges that is left once it is trimmed.
//!
//! Begin with `ranking`: `heavy` keeps the keys that are heavy enough and sorts them, and `limit` says how many are
//! shown.
//!
//! `graph` links the edges between these keys into two lists for each node (`slot`, `links`); `trimming` cuts the light
//! ones, each in the same time.
#![tactic(auto)]

mod graph;
mod heavy;
mod limit;
mod links;
mod node;
mod ranking;
mod slot;
mod trimming;

pub use graph::Graph;
pub use limit::node_limit;
pub use node::Node;
pub use ranking::{Ranked, rank, rank_all};
pub use trimming::{Trimmed, trim};
