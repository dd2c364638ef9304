//! The whole tree report.
ghost use Rattle.std.specs.Prelude.{◌≡◌, ◌++◌, ℕ, Option, length, IfOk, OnOk, OnErr};
ghost use Rattle.pp_model.specs.declared.config.Config.{Config};
ghost use Rattle.pp_model.specs.declared.verdicts.Verdicts.{Verdicts};
ghost use Rattle.pp_model.specs.Finders.{Finders};
ghost use Rattle.pp_units.specs.Head.{facts};
ghost use Rattle.pp_count.specs.Counted.{IsCountedOf};
ghost use Rattle.pp_count.specs.Seeing.{HoldsFilters};
ghost use Rattle.pp_graph.specs.Trimmed.{IsTrimmedOf};
ghost use Rattle.pp_graph.specs.KeyRows.{CanShow};
ghost use Rattle.pp_tree.specs.Tree.{summary_text, tree_text};
ghost use Rattle.pp_tree.specs.Ends.{Pairs, ShowsPairs, CanWalk, trimmed_text};

use crate::nodes::{NodeTable, put_nodes, put_table_heading};
use pp_base::{Memory, Text};
use pp_count::Counted;
use pp_graph::Trimmed;
use pp_model::Loaded;
use pp_units::{Head, put_dropped_edges, put_dropped_nodes, put_limited, write_head};
use std::alloc::Global;

/// Appends the tree report: the lines of the head, the heading, and each node of the ranking in its order, between its
/// callers and its callees. Edges stand by absolute value falling, then by the key at the other end. Percentages of
/// nodes are of the head's total, those of edges of the node's absolute cum. `Err` is want of memory, and `out` is then
/// as it was.
pub fn write_tree(
    alloc: Global,
    l: &Loaded,
    c: &Counted,
    t: &Trimmed,
    head: &Head,
    out: &mut Text,
) -> Result<(), Memory>
    requires show { CanShow l.now.profile c.now.sums t.now.ranked.order }
    requires walk { CanWalk l.now.profile c.now.sums t.now.graph }
    ensures ok { (v : Verdicts) (config : Config) (column : Option ℕ) (limit : ℕ) (f : Finders) →
        IsCountedOf l.now v config column c.now →
        IsTrimmedOf l.now v config column limit c.now t.now →
        HoldsFilters l.now v config.filtering f →
        OnOk result (out.new
        ≡ out.old ++ tree_text l.now.profile f config column limit (facts head.now)) }
    ensures err { OnErr result (out.new ≡ out.old) }
{
    let mut text = Text::new(alloc);
    put_tree(alloc, l, c, t, head, &mut text)?;
    out.append(text)
}

fn put_tree(
    alloc: Global,
    l: &Loaded,
    c: &Counted,
    t: &Trimmed,
    head: &Head,
    out: &mut Text,
) -> Result<(), Memory>
    requires show { CanShow l.now.profile c.now.sums t.now.ranked.order }
    requires walk { CanWalk l.now.profile c.now.sums t.now.graph }
    ensures { (pairs : Pairs) → ShowsPairs l.now.profile c.now.sums.names t.now.graph pairs →
        IfOk result (λ _. out.new
        ≡ out.old ++ trimmed_text l.now.profile c.now.sums t.now pairs (facts head.now)) }
{
    let table = NodeTable {
        p: l.profile.get(),
        sums: &c.sums,
        graph: &t.graph,
        head,
    };
    write_head(alloc, head, out)?;
    put_summary(t, head, out)?;
    put_table_heading(out)?;
    put_nodes(alloc, &table, t.ranked.order.as_slice(), out)
}

fn put_summary(t: &Trimmed, head: &Head, out: &mut Text) -> Result<(), Memory>
    ensures { IfOk result (λ _. out.new ≡ out.old
        ++ summary_text (facts head.now) t.now.ranked.shown_flat t.now.ranked.dropped_nodes
        t.now.dropped_edges (length t.now.ranked.order) t.now.ranked.candidates) }
{
    head.put_showing(t.ranked.shown_flat, out)?;
    put_dropped_nodes(t.ranked.dropped_nodes, out)?;
    put_dropped_edges(t.dropped_edges, out)?;
    put_limited(t.ranked.order.len() as u64, t.ranked.candidates, out)
}
