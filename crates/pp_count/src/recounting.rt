//! The edges between the keys that are kept.
ghost use Rattle.std.specs.Prelude.{◌≡◌, ◌++◌, ◌*◌, ◌<◌, ◌^◌, [], ◌∷◌, if◌then◌else◌, None, length, map, replicate, slice_index_or, All, IfOk};
ghost use Rattle.pp_model.specs.Finders.{Finders};
ghost use Rattle.pp_count.specs.Seeing.{HoldsFilters};
ghost use Rattle.pp_count.specs.Counted.{report_samples};
ghost use Rattle.pp_count.specs.Edges.{is_kept_key, is_marked, edge_of_sum, AreOnce, ArePairPlaces, HasPairPlaces};
ghost use Rattle.pp_count.specs.EdgeSums.{AreEdgesOf, AreEdgesAbout, HasPairSums, kept_numbers};

use crate::counted::Counted;
use crate::edge::Edge;
use crate::pairs::{Pairing, is_marked};
use crate::part::KeySum;
use crate::scope::Scope;
use crate::survey::Survey;
use crate::tallies::entries;
use crate::waves::count_all;
use pp_base::{Gate, List, Memory};
use std::alloc::Global;
use std::thread::Threads;

/// Which names an edge may join.
#[derive(Clone, Copy)]
pub struct Ends<'k, 'm> {
    /// For each name, whether it is kept. The others are left out of each stack.
    pub keep: &'k [bool],
    /// For each name, whether it is marked. An edge of two names that aren't is left out.
    pub marked: &'m [bool],
}

/// The edges between the names of the report's sums that are kept, after the other keys are left out of each stack: for
/// each pair that occurs, the sum over the samples in which it does. `keep` has one entry per name. `Err` is want of
/// memory.
///
/// Of the leaf-first stack A, B, C with B left out, the one edge goes from C to A. No edge goes from a key to itself.
pub fn recount<R: Threads + Sync, G: Gate>(
    rt: &R,
    alloc: Global,
    survey: &Survey<'_>,
    keep: &List<bool>,
    gate: &G,
) -> Result<List<Edge>, Memory>
    requires { length keep.now ≡ length survey.now.counted.now.sums.names }
    ensures edges { (f : Finders) →
        HoldsFilters survey.now.l.now survey.now.v.now survey.now.config.now.filtering f →
        IfOk result (λ edges. AreEdgesOf survey.now.l.now.profile
        (report_samples survey.now.l.now.profile f survey.now.config.now survey.now.column)
        survey.now.counted.now.sums.names keep.now edges) }
    ensures within { IfOk result (All (λ e.
        (e.from < length survey.now.counted.now.sums.names)
        × (e.to < length survey.now.counted.now.sums.names))) }
{
    // Both ends of an edge are kept.
    let keep = keep.as_slice();
    let ends = Ends { keep, marked: keep };
    let edges = edges_about(rt, alloc, survey, &ends, gate)?;
    Ok(edges)
}

/// Those of `recount` of which an end is marked: all of them, where each name that is kept is. No other pair is counted,
/// so that a few names cost a few sums.
pub fn edges_about<R: Threads + Sync, G: Gate>(
    rt: &R,
    alloc: Global,
    survey: &Survey<'_>,
    ends: &Ends,
    gate: &G,
) -> Result<List<Edge>, Memory>
    requires { length ends.now.keep.now ≡ length survey.now.counted.now.sums.names }
    ensures edges { (f : Finders) →
        HoldsFilters survey.now.l.now survey.now.v.now survey.now.config.now.filtering f →
        IfOk result (λ edges. AreEdgesAbout survey.now.l.now.profile
        (report_samples survey.now.l.now.profile f survey.now.config.now survey.now.column)
        survey.now.counted.now.sums.names ends.now.keep.now ends.now.marked.now edges) }
    ensures all { (f : Finders) →
        HoldsFilters survey.now.l.now survey.now.v.now survey.now.config.now.filtering f →
        ends.now.keep.now ≡ ends.now.marked.now →
        IfOk result (λ edges. AreEdgesOf survey.now.l.now.profile
        (report_samples survey.now.l.now.profile f survey.now.config.now survey.now.column)
        survey.now.counted.now.sums.names ends.now.keep.now edges) }
    ensures within { IfOk result (All (λ e.
        (e.from < length survey.now.counted.now.sums.names)
        × (e.to < length survey.now.counted.now.sums.names))) }
{
    let counted = survey.counted;
    let _compact = survey.l.profile.get();
    let _distinct = counted.sums.names.len();
    let kept = kept_names(alloc, ends.keep)?;
    let names = kept.as_slice();
    let over = pairing(alloc, counted, names, ends.marked)?;
    let list = pair_sums(rt, alloc, survey, &over, gate)?;
    let sums = list.as_slice();
    edges_of(alloc, sums, names)
}

// The sums of the pairs, by their numbers. The samples that the filters leave are gone over.
fn pair_sums<'x, R: Threads + Sync, G: Gate>(
    rt: &R,
    alloc: Global,
    survey: &'x Survey<'x>,
    over: &'x Pairing,
    gate: &G,
) -> Result<List<KeySum>, Memory>
    requires { HasPairPlaces over.now }
    ensures { IfOk result
        (HasPairSums survey.now.l.now survey.now.v.now survey.now.config.now survey.now.column
        survey.now.counted.now.table.names over.now) }
{
    let counted = survey.counted;
    let kept = counted.kept.as_slice();
    let scope = Scope {
        l: survey.l,
        v: survey.v,
        config: survey.config,
        grouping: survey.config.grouping,
        filters: &counted.filters,
        column: survey.column,
        table: &counted.table,
        over: Some(over),
        chosen: Some(kept),
    };
    let sofar = count_all(rt, alloc, &scope, gate)?;
    entries(alloc, &sofar.tallies)
}

// The numbers of the names that are kept.
fn kept_names(alloc: Global, keep: &[bool]) -> Result<List<u64>, Memory>
    ensures { IfOk result (λ kept. kept ≡ kept_numbers keep.now (length keep.now)) }
{
    let mut kept = List::new(alloc);
    for name in 0..keep.len() {
        push_kept(&mut kept, keep, name)?;
    }
    Ok(kept)
}

// Adds the name, if it is kept.
fn push_kept(kept: &mut List<u64>, keep: &[bool], name: usize) -> Result<(), Memory>
    requires { name < length keep.now }
    ensures { IfOk result (λ _. kept.new
        ≡ kept.old ++ (if is_kept_key keep.now name then name ∷ [] else [])) }
{
    if keep[name] {
        kept.push(name as u64)?;
    }
    Ok(())
}

// The places of the keys of these names, in their order, with their marks.
fn pairing(
    alloc: Global,
    counted: &Counted,
    kept: &[u64],
    marked: &[bool],
) -> Result<Pairing, Memory>
    requires names { All (λ n. n < length counted.now.numbers) kept.now }
    requires below { All (λ n. n < length counted.now.table.names) counted.now.numbers }
    requires once { AreOnce (map (λ n. slice_index_or counted.now.numbers n 0) kept.now) }
    ensures places { IfOk result (λ over.
        ArePairPlaces (map (λ n. slice_index_or counted.now.numbers n 0) kept.now) over.place) }
    ensures marks { IfOk result (λ over. over.marked ≡ map (is_marked marked.now) kept.now) }
    ensures few { IfOk result (λ over. length over.marked < 2 ^ 32) }
{
    // The number of a pair has to fit.
    if kept.len() >= 1 << 32 {
        return Err(Memory);
    }
    let numbers = counted.numbers.as_slice();
    let list = numbers_of(alloc, numbers, kept)?;
    let keys = list.as_slice();
    let count = counted.table.names.len();
    let place = places(alloc, keys, count)?;
    let marked = marks_of(alloc, kept, marked)?;
    Ok(Pairing { place, marked })
}

// The numbers of these names' keys.
fn numbers_of(alloc: Global, numbers: &[u64], kept: &[u64]) -> Result<List<u64>, Memory>
    requires { All (λ n. n < length numbers.now) kept.now }
    ensures { IfOk result (λ keys. keys ≡ map (λ n. slice_index_or numbers.now n 0) kept.now) }
{
    let mut keys = List::new(alloc);
    for name in kept {
        keys.push(numbers[*name as usize])?;
    }
    Ok(keys)
}

// The marks of these names.
fn marks_of(alloc: Global, kept: &[u64], marked: &[bool]) -> Result<List<bool>, Memory>
    ensures { IfOk result (λ marks. marks ≡ map (is_marked marked.now) kept.now) }
{
    let mut marks = List::new(alloc);
    for name in kept {
        marks.push(is_marked(marked, *name))?;
    }
    Ok(marks)
}

// For each of the key numbers below `numbers` its place among `keys`, which are all different.
fn places(alloc: Global, keys: &[u64], numbers: u64) -> Result<List<Option<u32>>, Memory>
    requires few { length keys.now < 2 ^ 32 }
    requires below { All (λ k. k < numbers) keys.now }
    requires once { AreOnce keys.now }
    ensures { IfOk result (ArePairPlaces keys.now) }
{
    let mut place = no_places(alloc, numbers)?;
    for (index, key) in keys.iter().enumerate() {
        *place.item_mut(*key as usize) = Some(index as u32);
    }
    Ok(place)
}

fn no_places(alloc: Global, numbers: u64) -> Result<List<Option<u32>>, Memory>
    ensures { IfOk result (λ place. place ≡ replicate numbers None) }
{
    Ok(List::from_vec(vec![in alloc; None; numbers as usize]?))
}

// The edges of the pairs' sums.
fn edges_of(alloc: Global, sums: &[KeySum], kept: &[u64]) -> Result<List<Edge>, Memory>
    requires { All (λ e. e.key < length kept.now * length kept.now) sums.now }
    ensures { IfOk result (λ edges. edges ≡ map (edge_of_sum kept.now) sums.now) }
{
    let mut edges = List::new(alloc);
    for sum in sums {
        edges.push(edge_of(sum, kept))?;
    }
    Ok(edges)
}

// The edge of a pair's sum.
fn edge_of(sum: &KeySum, kept: &[u64]) -> Edge
    requires { sum.now.key < length kept.now * length kept.now }
    ensures { result ≡ edge_of_sum kept.now sum.now }
{
    let names = kept.len() as u64;
    Edge {
        from: kept[(sum.key / names) as usize],
        to: kept[(sum.key % names) as usize],
        value: sum.cum,
    }
}
