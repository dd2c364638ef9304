//! The edges of a profile, counted again after its figures.
use anyhow::Result;
use pp_base::{List, Memory, OpenGate, Text};
use pp_count::{Edge, Survey, recount};
use std::alloc::Global;
use std::thread::Threads;

/// Appends how many edges there are between functions, and what the heaviest comes to.
pub fn put_edges<R: Threads + Sync>(
    rt: &R,
    alloc: Global,
    survey: &Survey<'_>,
    out: &mut Text,
) -> Result<()> {
    let edges = all_edges(rt, alloc, survey)?;
    let number = edges.len();
    let heaviest = heaviest(&edges);
    let line = format!(in alloc; "\n{number} edges, the heaviest of {heaviest}")?;
    Ok(out.extend(line.as_bytes())?)
}

// The edges between all functions.
fn all_edges<R: Threads + Sync>(
    rt: &R,
    alloc: Global,
    survey: &Survey<'_>,
) -> Result<List<Edge>, Memory> {
    let names = survey.counted.sums.names.len();
    let keep = List::from_vec(vec![in alloc; true; names as usize]?);
    let edges = recount(rt, alloc, survey, &keep, &OpenGate);
    drop(keep);
    edges
}

fn heaviest(edges: &List<Edge>) -> i64 {
    let mut heaviest = 0;
    for edge in edges.as_slice() {
        heaviest = edge.value.max(heaviest);
    }
    heaviest
}
