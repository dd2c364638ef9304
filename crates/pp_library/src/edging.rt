//! The edges between the rows of figures.
ghost use Rattle.std.specs.Prelude.{◌≡◌, ◌≢◌, ◌<◌, false, length, replicate, All, AllPairs, None, IfOk};
ghost use Rattle.std.specs.List.{filter_map};
ghost use Rattle.pp_model.specs.Finders.{Finders};
ghost use Rattle.pp_count.specs.Counted.{report_samples};
ghost use Rattle.pp_count.specs.Seeing.{HoldsFilters};
ghost use Rattle.pp_graph.specs.Cuts.{kept_flags};
ghost use Rattle.pp_graph.specs.Trimmed.{written_order};
ghost use Rattle.pp_library.specs.Edges.{AreRowEdges};
ghost use Rattle.pp_library.specs.Places.{HasRowPlaces, placed_edge};

use pp_base::{List, Memory, OpenGate};
use pp_count::{Edge, Survey, recount};
use std::alloc::Global;
use std::thread::Threads;

/// An edge between two rows of figures.
#[derive(Clone, Copy, Debug, PartialEq, Eq)]
pub struct FigureEdge {
    /// The caller's row, by its place from 0.
    pub caller: u64,
    /// The callee's row.
    pub callee: u64,
    /// The sum over the samples in which the callee stands directly under the caller, each sample once.
    pub sum: i64,
}

/// The edges between the names of these numbers, each of which has a row.
pub fn row_edges<R: Threads + Sync>(
    rt: &R,
    alloc: Global,
    survey: &Survey<'_>,
    order: &[u64],
) -> Result<List<FigureEdge>, Memory>
    requires below { All (λ n. n < length survey.now.counted.now.sums.names) order.now }
    requires once { AllPairs (λ a b. a ≢ b) order.now }
    ensures { let s = survey.now in (f : Finders) →
        HoldsFilters s.l.now s.v.now s.config.now.filtering f →
        IfOk result (AreRowEdges (report_samples s.l.now.profile f s.config.now s.column)
        (written_order s.l.now.profile s.counted.now.sums.names order.now)) }
{
    let names = survey.counted.sums.names.len();
    let keep = kept(alloc, names, order)?;
    let edges = recount(rt, alloc, survey, &keep, &OpenGate)?;
    let places = places_of(alloc, names, order)?;
    placed_edges(alloc, places.as_slice(), edges.as_slice())
}

// For each name whether it has a row.
fn kept(alloc: Global, names: u64, order: &[u64]) -> Result<List<bool>, Memory>
    requires { All (λ n. n < names) order.now }
    ensures { IfOk result (λ keep. keep ≡ kept_flags names order.now) }
{
    let mut keep = none_kept(alloc, names)?;
    for number in order {
        *keep.item_mut(*number as usize) = true;
    }
    Ok(keep)
}

// No name has a row.
fn none_kept(alloc: Global, names: u64) -> Result<List<bool>, Memory>
    ensures { IfOk result (λ keep. keep ≡ replicate names false) }
{
    let mut keep = List::new(alloc);
    for _ in 0..names {
        keep.push(false)?;
    }
    Ok(keep)
}

// For each name the place of its row, if it has one.
fn places_of(alloc: Global, names: u64, order: &[u64]) -> Result<List<Option<u64>>, Memory>
    requires below { All (λ n. n < names) order.now }
    requires once { AllPairs (λ a b. a ≢ b) order.now }
    ensures { IfOk result (HasRowPlaces names order.now (length order.now)) }
{
    let mut places = no_places(alloc, names)?;
    for row in 0..order.len() {
        *places.item_mut(order[row] as usize) = Some(row as u64);
    }
    Ok(places)
}

fn no_places(alloc: Global, names: u64) -> Result<List<Option<u64>>, Memory>
    ensures { IfOk result (λ places. places ≡ replicate names None) }
{
    let mut places = List::new(alloc);
    for _ in 0..names {
        places.push(None)?;
    }
    Ok(places)
}

// The edges of names with their rows.
fn placed_edges(
    alloc: Global,
    places: &[Option<u64>],
    edges: &[Edge],
) -> Result<List<FigureEdge>, Memory>
    requires { All (λ e. (e.from < length places.now) × (e.to < length places.now)) edges.now }
    ensures { IfOk result (λ placed. placed ≡ filter_map (placed_edge places.now) edges.now) }
{
    let mut placed = List::new(alloc);
    for edge in edges {
        match placed_edge(places, edge) {
            Some(own) => placed.push(own)?,
            None => (),
        }
    }
    Ok(placed)
}

// The edge between two rows, where both names have one.
fn placed_edge(places: &[Option<u64>], edge: &Edge) -> Option<FigureEdge>
    requires from { edge.now.from < length places.now }
    requires to { edge.now.to < length places.now }
    ensures { result ≡ placed_edge places.now edge.now }
{
    let caller = places[edge.from as usize]?;
    let callee = places[edge.to as usize]?;
    Some(FigureEdge {
        caller,
        callee,
        sum: edge.value,
    })
}
