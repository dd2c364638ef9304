// The edges of a graph, from their caller on.
ghost use Rattle.std.specs.Prelude.{◌<◌, All, IfOk, IfSome};
ghost use Rattle.pp_graph.specs.Links.{IsUncut};

use pp_base::{List, Memory};
use pp_count::{Edge, Sums};
use pp_grain::{Key, Names};
use pp_graph::Graph;
use pp_keys::HashKeys;
use std::alloc::Global;
use std::test::Fail;

// The nodes a, b and c.
const A: u64 = 0;

const B: u64 = 1;

const C: u64 = 2;

// A caller and a callee. An edge has the number of its place among them.
type Pair = (u64, u64);

#[test]
fn an_edge_is_found(rt: HostRuntime) -> Result<(), Fail> {
    let graph = graph_of(rt.alloc(), &[(A, B), (A, C)])?.ok_or("no graph")?;
    assert_eq!(rt; edge_between(&graph, A, C), Some(1));
    assert_eq!(rt; edge_between(&graph, C, A), None);
    Ok(())
}

#[test]
fn a_cut_edge_leaves_both_lists(rt: HostRuntime) -> Result<(), Fail> {
    let mut graph = graph_of(rt.alloc(), &[(A, B), (A, C)])?.ok_or("no graph")?;
    cut_between(&mut graph, A, B);
    assert!(rt; are_callees(&graph, A, &[C]));
    assert!(rt; are_callers(&graph, B, &[]));
    Ok(())
}

#[test]
fn two_cut_edges_leave_their_lists(rt: HostRuntime) -> Result<(), Fail> {
    let pairs = [(A, B), (A, C), (B, C), (C, A)];
    let mut graph = graph_of(rt.alloc(), &pairs)?.ok_or("no graph")?;
    cut_between(&mut graph, A, C);
    cut_between(&mut graph, A, B);
    assert!(rt; are_callees(&graph, A, &[]));
    assert!(rt; are_callers(&graph, C, &[B]));
    assert!(rt; are_callers(&graph, B, &[]));
    assert!(rt; are_callees(&graph, C, &[A]));
    Ok(())
}

// Cuts the first edge from one node to another, if there is one.
fn cut_between(graph: &mut Graph, from: u64, to: u64) {
    if let Some(number) = edge_between(graph, from, to) {
        graph.cut_edge(number);
    }
}

// Whether the edges that leave the node lead to `callees`, in this order.
fn are_callees(graph: &Graph, node: u64, callees: &[u64]) -> bool {
    if node >= graph.nodes() {
        return false;
    }
    let mut next = graph.first_out(node);
    for place in 0..callees.len() {
        let Some(number) = next else {
            return false;
        };
        if graph.edge(number).to != callees[place] {
            return false;
        }
        next = graph.next_out(number);
    }
    next.is_none()
}

// Whether the edges that enter the node come from `callers`, in this order.
fn are_callers(graph: &Graph, node: u64, callers: &[u64]) -> bool {
    if node >= graph.nodes() {
        return false;
    }
    let mut next = graph.first_in(node);
    for place in 0..callers.len() {
        let Some(number) = next else {
            return false;
        };
        if graph.edge(number).from != callers[place] {
            return false;
        }
        next = graph.next_in(number);
    }
    next.is_none()
}

// The graph of the three nodes and these edges. `None` where an end is no node.
fn graph_of(alloc: Global, pairs: &[Pair]) -> Result<Option<Graph>, Memory> {
    let mut sums = Sums {
        names: Names::new(alloc, HashKeys::fixed())?,
        flat: List::new(alloc),
        cum: List::new(alloc),
    };
    graph_over(alloc, &mut sums, pairs)
}

// The graph, over sums that are given the three nodes.
fn graph_over(alloc: Global, sums: &mut Sums, pairs: &[Pair]) -> Result<Option<Graph>, Memory> {
    put_keys(sums)?;
    let names = sums.names.len();
    if sums.flat.len() as u64 != names || sums.cum.len() as u64 != names {
        return Ok(None);
    }
    let Some(edges) = edges_of(alloc, pairs, names)? else {
        return Ok(None);
    };
    let graph = Graph::make(alloc, sums, edges)?;
    Ok(Some(graph))
}

// Adds three keys, without texts.
fn put_keys(sums: &mut Sums) -> Result<(), Memory> {
    for function in 0..3 {
        sums.names.number(key_of(function))?;
        sums.flat.push(1)?;
        sums.cum.push(1)?;
    }
    Ok(())
}

// The edges, or `None` where an end is none of so many names.
fn edges_of(alloc: Global, pairs: &[Pair], names: u64) -> Result<Option<List<Edge>>, Memory>
    ensures { IfOk result (λ edges. IfSome edges
        (All (λ e. (e.from < names) × (e.to < names)))) }
{
    let mut edges = List::new(alloc);
    for (from, to) in pairs {
        if *from >= names || *to >= names {
            return Ok(None);
        }
        edges.push(Edge {
            from: *from,
            to: *to,
            value: 1,
        })?;
    }
    Ok(Some(edges))
}

fn key_of(function: u64) -> Key {
    Key {
        function,
        file: 0,
        line: 0,
        column: 0,
        address: 0,
        object: 0,
    }
}

// The number of the first edge from one node to another.
fn edge_between(graph: &Graph, from: u64, to: u64) -> Option<u64>
    ensures { IfSome result (IsUncut graph.now) }
{
    if from >= graph.nodes() {
        return None;
    }
    let mut next = graph.first_out(from);
    for step in 0..4u64 {
        let Some(number) = next else {
            return None;
        };
        let edge = graph.edge(number);
        if edge.to == to {
            return Some(number);
        }
        next = graph.next_out(number);
    }
    None
}
