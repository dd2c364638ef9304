//! The graph that a report shows.
ghost use Rattle.std.specs.Prelude.{◌≡◌, ◌<◌, false, length, map, replicate, All, IfOk};
ghost use Rattle.std.specs.List.{filter};
ghost use Rattle.pp_graph.specs.Links.{AreEdgesLinked, live_edges};
ghost use Rattle.pp_graph.specs.Cuts.{kept_flags, is_heavy_edge, is_light_edge};
ghost use Rattle.pp_graph.specs.Trimmed.{IsTrimmedOf};

use crate::graph::Graph;
use crate::ranking::{Ranked, rank};
use pp_base::{Fraction, Gate, List, Memory};
use pp_count::{Edge, Survey, is_heavy, recount};
use std::alloc::Global;
use std::thread::Threads;

/// The keys that a report shows, and the edges between them.
#[derive(Drop)]
pub struct Trimmed {
    /// The keys that are shown.
    pub ranked: Ranked,
    /// A node for each name, shown or not, and the edges that are shown.
    pub graph: Graph,
    /// How many edges between the keys that are shown are too light to be shown.
    pub dropped_edges: u64,
}

/// Ranks the keys, counts the edges between those that are shown, and cuts those below `edgefraction` of the total.
pub fn trim<R: Threads + Sync, G: Gate>(
    rt: &R,
    alloc: Global,
    survey: &Survey<'_>,
    limit: u32,
    gate: &G,
) -> Result<Trimmed, Memory>
    ensures { IfOk result (IsTrimmedOf survey.now.l.now survey.now.v.now survey.now.config.now
        survey.now.column limit survey.now.counted.now) }
{
    let (config, counted) = (survey.config, survey.counted);
    let ranked = rank(alloc, survey.l, counted, config, limit)?;
    let keep = kept(alloc, counted.sums.names.len(), ranked.order.as_slice())?;
    let edges = recount(rt, alloc, survey, &keep, gate)?;
    let count = edges.len() as u64;
    let mut graph = Graph::make(alloc, &counted.sums, edges)?;
    let dropped_edges = cut_light(
        &mut graph,
        count,
        counted.total,
        config.presentation.edgefraction,
    );
    Ok(Trimmed {
        ranked,
        graph,
        dropped_edges,
    })
}

// For each name whether its number is among these.
fn kept(alloc: Global, names: u64, order: &[u64]) -> Result<List<bool>, Memory>
    requires { All (λ n. n < names) order.now }
    ensures { IfOk result (λ keep. keep ≡ kept_flags names order.now) }
{
    let mut keep = none_kept(alloc, names)?;
    for number in order {
        *keep.item_mut(*number as usize) = true;
    }
    Ok(keep)
}

// No name is kept.
fn none_kept(alloc: Global, names: u64) -> Result<List<bool>, Memory>
    ensures { IfOk result (λ keep. keep ≡ replicate names false) }
{
    let mut keep = List::new(alloc);
    for _ in 0..names {
        keep.push(false)?;
    }
    Ok(keep)
}

// Cuts the edges that are too light and counts them. `count` edges are there, and none is cut yet.
fn cut_light(graph: &mut Graph, count: u64, total: u64, least: Fraction) -> u64
    requires count { count ≡ length graph.old.edges }
    requires whole { graph.old.edges ≡ map Some (live_edges graph.old) }
    ensures nodes { graph.new.nodes ≡ graph.old.nodes }
    ensures linked { AreEdgesLinked graph.new }
    ensures live { live_edges graph.new
        ≡ filter (is_heavy_edge total least.billionths) (live_edges graph.old) }
    ensures cut { result
        ≡ length (filter (is_light_edge total least.billionths) (live_edges graph.old)) }
{
    let mut cut = 0;
    for e in 0..count {
        if is_light(&graph.edge(e), total, least) {
            graph.cut_edge(e);
            cut += 1;
        }
    }
    let _linked = graph.nodes();
    cut
}

// Whether the edge is below this fraction of the total.
fn is_light(edge: &Edge, total: u64, least: Fraction) -> bool
    ensures { result ≡ is_light_edge total least.billionths edge.now }
{
    !is_heavy(total, least, edge.value)
}
