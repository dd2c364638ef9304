//! The callers and callees of a node, found by walking its two lists of edges.
ghost use Rattle.std.specs.Prelude.{◌≡◌, ◌<◌, length, map, IfOk};
ghost use Rattle.std.specs.List.Sorted.{IsPermutation, IsSortedBy};
ghost use Rattle.pp_count.specs.Table.{written_key};
ghost use Rattle.pp_graph.specs.Links.{in_at, out_at};
ghost use Rattle.pp_tree.specs.Ends.{Pairs, ShowsPairs, CanWalk, callers_in, callees_in, caller_end, callee_end, edges_at, neighbour_of};

use crate::near::{Near, near_at, near_order};
use pp_base::Memory;
use pp_count::Sums;
use pp_graph::Graph;
use pp_model::Profile;
use std::alloc::Global;

/// The callers of the node, by absolute value falling, then by their keys.
pub fn callers<'a>(
    alloc: Global,
    p: &'a Profile,
    sums: &Sums,
    graph: &Graph,
    node: u64,
) -> Result<Vec<Near<'a>>, Memory>
    requires walk { CanWalk p.now sums.now graph.now }
    requires below { node < length sums.now.names }
    ensures { (pairs : Pairs) → ShowsPairs p.now sums.now.names graph.now pairs →
        IfOk result (λ nears. map neighbour_of nears.items
        ≡ callers_in pairs (written_key p.now sums.now.names node)) }
{
    let mut nears = incoming(alloc, p, sums, graph, node)?;
    nears.sort_by(|a, b| near_order(a, b))?;
    Ok(nears)
}

/// The callees of the node, in the same order.
pub fn callees<'a>(
    alloc: Global,
    p: &'a Profile,
    sums: &Sums,
    graph: &Graph,
    node: u64,
) -> Result<Vec<Near<'a>>, Memory>
    requires walk { CanWalk p.now sums.now graph.now }
    requires below { node < length sums.now.names }
    ensures { (pairs : Pairs) → ShowsPairs p.now sums.now.names graph.now pairs →
        IfOk result (λ nears. map neighbour_of nears.items
        ≡ callees_in pairs (written_key p.now sums.now.names node)) }
{
    let mut nears = outgoing(alloc, p, sums, graph, node)?;
    nears.sort_by(|a, b| near_order(a, b))?;
    Ok(nears)
}

// The callers in the order of the graph's list.
fn incoming<'a>(
    alloc: Global,
    p: &'a Profile,
    sums: &Sums,
    graph: &Graph,
    node: u64,
) -> Result<Vec<Near<'a>>, Memory>
    requires walk { CanWalk p.now sums.now graph.now }
    requires below { node < length sums.now.names }
    ensures { IfOk result (λ nears. map neighbour_of nears.items
        ≡ map (caller_end p.now sums.now.names) (edges_at graph.now (in_at graph.now node))) }
{
    let mut nears = Vec::new(alloc);
    let mut next = graph.first_in(node);
    while let Some(number) = next {
        let edge = graph.edge(number);
        nears.push(near_at(p, &sums.names, edge.from, edge.value))?;
        next = graph.next_in(number);
    }
    Ok(nears)
}

// The callees in the order of the graph's list.
fn outgoing<'a>(
    alloc: Global,
    p: &'a Profile,
    sums: &Sums,
    graph: &Graph,
    node: u64,
) -> Result<Vec<Near<'a>>, Memory>
    requires walk { CanWalk p.now sums.now graph.now }
    requires below { node < length sums.now.names }
    ensures { IfOk result (λ nears. map neighbour_of nears.items
        ≡ map (callee_end p.now sums.now.names) (edges_at graph.now (out_at graph.now node))) }
{
    let mut nears = Vec::new(alloc);
    let mut next = graph.first_out(node);
    while let Some(number) = next {
        let edge = graph.edge(number);
        nears.push(near_at(p, &sums.names, edge.to, edge.value))?;
        next = graph.next_out(number);
    }
    Ok(nears)
}
