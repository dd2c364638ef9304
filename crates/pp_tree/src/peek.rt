//! The whole peek report.
ghost use Rattle.std.specs.Prelude.{◌≡◌, ◌++◌, Bool, filter, map, replicate, slice_index_or, IfOk, IfErr, OnOk, OnErr, true, false};
ghost use Rattle.pp_model.specs.Finders.{Finders};
ghost use Rattle.pp_model.specs.FrameTexts.{Written};
ghost use Rattle.pp_units.specs.Head.{facts};
ghost use Rattle.pp_grain.specs.Keys.{key_written};
ghost use Rattle.pp_count.specs.Counted.{has_own_match};
ghost use Rattle.pp_count.specs.Seeing.{HoldsFilters};
ghost use Rattle.pp_graph.specs.KeyRows.{CanShow};
ghost use Rattle.pp_tree.specs.Peek.{peek_text};
ghost use Rattle.pp_tree.specs.Ends.{Pairs, ShowsPairs, CanWalk, peeked_text};
ghost use Rattle.pp_tree.specs.Whole.{all_pairs, pairs_about};

use crate::found::found_names;
use crate::nodes::{NodeTable, put_nodes, put_table_heading};
use pp_base::{Gate, List, MatchRefusal, Memory, Text};
use pp_count::{Ends, Survey, edges_about};
use pp_graph::{Graph, rank_all};
use pp_units::{Head, write_head};
use std::alloc::Global;
use std::thread::Threads;

/// Appends the peek report: the lines of the head, the heading, and each node that the own pattern finds, in report
/// order. A node stands between all its callers and all its callees, as in a tree report. Nothing is trimmed.
///
/// A node is found where the pattern finds the function of a frame that counts and has the node's key. `NoMatch` comes
/// where no node is. After an error `out` is as it was.
pub fn write_peek<R: Threads + Sync, G: Gate>(
    rt: &R,
    alloc: Global,
    survey: &Survey<'_>,
    head: &Head,
    gate: &G,
    out: &mut Text,
) -> Result<(), MatchRefusal>
    ensures ok { (f : Finders) →
        HoldsFilters survey.now.l.now survey.now.v.now survey.now.config.now.filtering f →
        OnOk result (out.new ≡ out.old ++ peek_text survey.now.l.now.profile f
        survey.now.config.now survey.now.column (facts head.now)) }
    ensures some { (f : Finders) →
        HoldsFilters survey.now.l.now survey.now.v.now survey.now.config.now.filtering f →
        OnOk result (has_own_match survey.now.l.now.profile f survey.now.config.now
        survey.now.column ≡ true) }
    ensures none { (f : Finders) →
        HoldsFilters survey.now.l.now survey.now.v.now survey.now.config.now.filtering f →
        IfErr result (λ e. e ≡ MatchRefusal.NoMatch →
        has_own_match survey.now.l.now.profile f survey.now.config.now
        survey.now.column ≡ false) }
    ensures err { OnErr result (out.new ≡ out.old) }
{
    let (l, counted) = (survey.l, survey.counted);
    let found = found_names(alloc, survey)?;
    let ranked = rank_all(alloc, l, counted, survey.config, 0)?;
    let graph = graph_about(rt, alloc, survey, found.as_slice(), gate)?;
    let shown = found_of(alloc, ranked.order.as_slice(), found.as_slice())?;
    let mut text = Text::new(alloc);
    let table = NodeTable {
        p: l.profile.get(),
        sums: &counted.sums,
        graph: &graph,
        head,
    };
    put_peek(
        alloc,
        &table,
        ranked.shown_flat,
        shown.as_slice(),
        &mut text,
    )?;
    out.append(text)?;
    Ok(())
}

// The graph of all keys, and of the edges that have a marked end.
fn graph_about<R: Threads + Sync, G: Gate>(
    rt: &R,
    alloc: Global,
    survey: &Survey<'_>,
    marked: &[bool],
    gate: &G,
) -> Result<Graph, Memory>
    ensures walk { IfOk result
        (CanWalk survey.now.l.now.profile survey.now.counted.now.sums) }
    ensures shows { (f : Finders) (own : Written → Bool) →
        HoldsFilters survey.now.l.now survey.now.v.now survey.now.config.now.filtering f →
        marked.now ≡ map (λ key. own (key_written survey.now.l.now.profile key))
        survey.now.counted.now.sums.names →
        IfOk result (λ g. ShowsPairs survey.now.l.now.profile survey.now.counted.now.sums.names g
        (pairs_about own (all_pairs survey.now.l.now.profile f survey.now.config.now
        survey.now.column))) }
{
    let sums = &survey.counted.sums;
    let keep = all_kept(alloc, sums.names.len())?;
    let ends = Ends {
        keep: keep.as_slice(),
        marked,
    };
    let edges = edges_about(rt, alloc, survey, &ends, gate)?;
    Graph::make(alloc, sums, edges)
}

// A mark for each of `names` names, all of them set.
fn all_kept(alloc: Global, names: u64) -> Result<List<bool>, Memory>
    ensures { IfOk result (λ keep. keep ≡ replicate names true) }
{
    let mut keep = List::new(alloc);
    for _ in 0..names {
        keep.push(true)?;
    }
    Ok(keep)
}

// Those of the numbers that are found.
fn found_of(alloc: Global, order: &[u64], found: &[bool]) -> Result<List<u64>, Memory>
    ensures { IfOk result (λ shown.
        shown ≡ filter (λ n. slice_index_or found.now n false) order.now) }
{
    let mut shown = List::new(alloc);
    for number in order {
        if is_found(found, *number) {
            shown.push(*number)?;
        }
    }
    Ok(shown)
}

fn is_found(found: &[bool], number: u64) -> bool
    ensures { result ≡ slice_index_or found.now number false }
{
    match found.get(number as usize) {
        None => false,
        Some(found) => *found,
    }
}

fn put_peek(
    alloc: Global,
    table: &NodeTable,
    sum: i64,
    shown: &[u64],
    out: &mut Text,
) -> Result<(), Memory>
    requires show { CanShow table.now.p.now table.now.sums.now shown.now }
    requires walk { CanWalk table.now.p.now table.now.sums.now table.now.graph.now }
    ensures { (pairs : Pairs) →
        ShowsPairs table.now.p.now table.now.sums.now.names table.now.graph.now pairs →
        IfOk result (λ _. out.new ≡ out.old ++ peeked_text table.now.p.now table.now.sums.now sum
        shown.now pairs (facts table.now.head.now)) }
{
    write_head(alloc, table.head, out)?;
    table.head.put_showing(sum, out)?;
    put_table_heading(out)?;
    put_nodes(alloc, table, shown, out)
}
