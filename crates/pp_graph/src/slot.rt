//! The slots of a graph: an edge with its place in two lists, and a node with the first edge of each.

use crate::node::Node;
use pp_count::Edge;

/// The two edges beside an edge in a list.
#[derive(Clone, Copy)]
pub struct Hooks {
    /// The edge after it, none at the end.
    pub next: Option<u64>,
    /// The edge before it, none at the start.
    pub prev: Option<u64>,
}

/// An edge, linked into the list of its caller and into that of its callee.
#[derive(Clone, Copy)]
pub struct EdgeSlot {
    /// The edge with its weight.
    pub edge: Edge,
    /// Beside it in the list of the edges that leave its caller.
    pub out: Hooks,
    /// Beside it in the list of the edges that enter its callee.
    pub into: Hooks,
    /// Whether it wasn't cut.
    pub live: bool,
}

/// A node, with the first edge of its two lists.
#[derive(Clone, Copy)]
pub struct Spot {
    /// The node with its sums.
    pub node: Node,
    /// The first edge that leaves it.
    pub first_out: Option<u64>,
    /// The first edge that enters it.
    pub first_in: Option<u64>,
}

/// Which of its two lists an edge is looked at in.
#[derive(Clone, Copy)]
pub enum Side {
    /// The edges that leave a node.
    Out,
    /// The edges that enter it.
    In,
}
