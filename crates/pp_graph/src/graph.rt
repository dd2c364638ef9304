//! Nodes and edges, with the edges of each node linked into two lists.
ghost use Rattle.std.specs.Prelude.{◌≡◌, ◌<◌, ◌++◌, ◌∷◌, ◌+◌, [], length, All, IfOk};
ghost use Rattle.pp_graph.specs.Slots.{bare_spot, bare_spots};

use crate::links::{cut, hang};
use crate::node::Node;
use crate::slot::{EdgeSlot, Hooks, Spot};
use pp_base::{List, Memory};
use pp_count::{Edge, Sums};
use std::alloc::Global;
use std::marker::Model;

/// A graph of names. Each edge stands in the list of those that leave its caller and in that of those that enter its
/// callee. Edges have the numbers from 0 on, which stay theirs when others are cut.
#[derive(Drop)]
pub struct Graph {
    spots: Vec<Spot>,
    slots: Vec<EdgeSlot>,
}

impl Model for Graph {
    ghost use Rattle.pp_graph.specs.Links.{EdgeLinks};
    ghost use Rattle.pp_graph.specs.Slots.{held_links, AreSoundSlots};

    ghost Value = { EdgeLinks };

    ghost view = { λ g. held_links g.spots.items g.slots.items };

    ghost invariant = { λ g. AreSoundSlots g.spots.items g.slots.items };
}

impl Graph {
    ghost use Rattle.std.specs.Prelude.{ℕ, map, slice_get};
    ghost use Rattle.pp_count.specs.Counted.{FitSums};
    ghost use Rattle.pp_graph.specs.Links.{AreEdgesLinked, IsUncut, numbered_edge, live_edges, out_at, in_at, without};
    ghost use Rattle.pp_graph.specs.Trimmed.{HasNodes};

    /// The graph of the names of `sums` and of these edges, which get their numbers in order. `Err` is want of memory.
    pub fn make(alloc: Global, sums: &Sums, edges: List<Edge>) -> Result<Graph, Memory>
        requires flats { length sums.now.flat ≡ length sums.now.names }
        requires cums { length sums.now.cum ≡ length sums.now.names }
        requires ends { All (λ e. (e.from < length sums.now.names)
            × (e.to < length sums.now.names)) edges }
        ensures nodes { IfOk result (HasNodes sums.now) }
        ensures edges { IfOk result (λ g. g.edges ≡ map Some edges) }
        ensures live { IfOk result (λ g. live_edges g ≡ edges) }
        ensures linked { IfOk result AreEdgesLinked }
    {
        let mut graph = Graph::of_nodes(alloc, sums)?;
        for edge in edges.as_slice() {
            graph.add(*edge)?;
        }
        let _linked = graph.nodes();
        Ok(graph)
    }

    // The graph of the names alone.
    fn of_nodes(alloc: Global, sums: &Sums) -> Result<Graph, Memory>
        requires flats { length sums.now.flat ≡ length sums.now.names }
        requires cums { length sums.now.cum ≡ length sums.now.names }
        ensures nodes { IfOk result (HasNodes sums.now) }
        ensures edges { IfOk result (λ g. g.edges ≡ []) }
    {
        let spots = bare_spots(alloc, sums)?;
        Ok(Graph {
            spots,
            slots: Vec::new(alloc),
        })
    }

    // Adds an edge, with the next number, at the start of both its lists.
    fn add(&mut self, edge: Edge) -> Result<(), Memory>
        requires from { edge.from < length self.old.nodes }
        requires to { edge.to < length self.old.nodes }
        ensures nodes { IfOk result (λ _. self.new.nodes ≡ self.old.nodes) }
        ensures edges { IfOk result (λ _. self.new.edges ≡ self.old.edges ++ Some edge ∷ []) }
    {
        let e = self.slots.len() as u64;
        let caller = self.spots[edge.from as usize];
        let callee = self.spots[edge.to as usize];
        self.slots.push(EdgeSlot {
            edge,
            out: Hooks {
                next: caller.first_out,
                prev: None,
            },
            into: Hooks {
                next: callee.first_in,
                prev: None,
            },
            live: true,
        })?;
        hang(self.spots.as_mut_slice(), self.slots.as_mut_slice(), e);
        Ok(())
    }

    /// The number of nodes.
    pub fn nodes(&self) -> u64
        ensures nodes { result ≡ length self.now.nodes }
        ensures linked { AreEdgesLinked self.now }
    {
        self.spots.len() as u64
    }

    /// The node of this number.
    pub fn node(&self, n: u64) -> Node
        requires { n < length self.now.nodes }
        ensures { slice_get self.now.nodes n ≡ Some result }
    {
        self.spots[n as usize].node
    }

    /// The edge of this number.
    pub fn edge(&self, e: u64) -> Edge
        requires { IsUncut self.now e }
        ensures { numbered_edge self.now e ≡ Some result }
    {
        self.slots[e as usize].edge
    }

    /// The first of the edges that leave the node, and none where there are none.
    pub fn first_out(&self, n: u64) -> Option<u64>
        requires { n < length self.now.nodes }
        ensures { result ≡ slice_get (out_at self.now n) 0 }
    {
        self.spots[n as usize].first_out
    }

    /// The edge after this one among those that leave its caller, and none at the end.
    pub fn next_out(&self, e: u64) -> Option<u64>
        requires { IsUncut self.now e }
        ensures { (n i : ℕ) → slice_get (out_at self.now n) i ≡ Some e
            → result ≡ slice_get (out_at self.now n) (i + 1) }
    {
        self.slots[e as usize].out.next
    }

    /// The first of the edges that enter the node, and none where there are none.
    pub fn first_in(&self, n: u64) -> Option<u64>
        requires { n < length self.now.nodes }
        ensures { result ≡ slice_get (in_at self.now n) 0 }
    {
        self.spots[n as usize].first_in
    }

    /// The edge after this one among those that enter its callee, and none at the end.
    pub fn next_in(&self, e: u64) -> Option<u64>
        requires { IsUncut self.now e }
        ensures { (n i : ℕ) → slice_get (in_at self.now n) i ≡ Some e
            → result ≡ slice_get (in_at self.now n) (i + 1) }
    {
        self.slots[e as usize].into.next
    }

    /// Takes the edge out of both its lists. All other edges keep their numbers, and their order in each list.
    pub fn cut_edge(&mut self, e: u64)
        requires { IsUncut self.old e }
        ensures { self.new ≡ without e self.old }
    {
        cut(self.spots.as_mut_slice(), self.slots.as_mut_slice(), e);
    }
}

// The nodes of all names, with no edges.
fn bare_spots(alloc: Global, sums: &Sums) -> Result<Vec<Spot>, Memory>
    requires flats { length sums.now.flat ≡ length sums.now.names }
    requires cums { length sums.now.cum ≡ length sums.now.names }
    ensures { IfOk result (λ spots. spots.items ≡ bare_spots sums.now (length sums.now.names)) }
{
    let mut spots = Vec::new(alloc);
    for name in 0..sums.names.len() {
        spots.push(bare_spot(sums, name))?;
    }
    Ok(spots)
}

// The node of the name, with no edges.
fn bare_spot(sums: &Sums, name: u64) -> Spot
    requires flat { name < length sums.now.flat }
    requires cum { name < length sums.now.cum }
    ensures { result ≡ bare_spot sums.now name }
{
    Spot {
        node: Node {
            name,
            flat: sums.flat.as_slice()[name as usize],
            cum: sums.cum.as_slice()[name as usize],
        },
        first_out: None,
        first_in: None,
    }
}
