//! The whole report.
ghost use Rattle.std.specs.Prelude.{◌≡◌, ◌++◌, ℕ, Option, IfOk, OnOk, OnErr, length};
ghost use Rattle.pp_model.specs.declared.config.Config.{Config};
ghost use Rattle.pp_model.specs.declared.verdicts.Verdicts.{Verdicts};
ghost use Rattle.pp_model.specs.Finders.{Finders};
ghost use Rattle.pp_units.specs.Head.{facts};
ghost use Rattle.pp_count.specs.Counted.{IsCountedOf};
ghost use Rattle.pp_count.specs.Seeing.{HoldsFilters};
ghost use Rattle.pp_graph.specs.Trimmed.{IsRankedOf};
ghost use Rattle.pp_graph.specs.KeyRows.{CanShow};
ghost use Rattle.pp_top.specs.Top.{top_summary, ranked_text, top_text};

use crate::rows::{TopTable, put_rows};
use pp_base::{Memory, Text};
use pp_count::Counted;
use pp_graph::Ranked;
use pp_model::Loaded;
use pp_units::{HEADING, Head, put_dropped_nodes, put_limited, write_head};
use std::alloc::Global;

/// Appends the top report: the lines of the head, the heading, and a row for each key of the ranking, in its order.
/// Percentages are of the head's total. `Err` is want of memory, and `out` is then as it was.
pub fn write_top(
    alloc: Global,
    l: &Loaded,
    c: &Counted,
    t: &Ranked,
    head: &Head,
    out: &mut Text,
) -> Result<(), Memory>
    requires { CanShow l.now.profile c.now.sums t.now.order }
    ensures ok { (v : Verdicts) (config : Config) (column : Option ℕ) (limit : ℕ) (f : Finders) →
        IsCountedOf l.now v config column c.now →
        IsRankedOf l.now v config column limit c.now t.now →
        HoldsFilters l.now v config.filtering f →
        OnOk result (out.new
        ≡ out.old ++ top_text l.now.profile f config column limit (facts head.now)) }
    ensures err { OnErr result (out.new ≡ out.old) }
{
    let mut text = Text::new(alloc);
    put_top(alloc, l, c, t, head, &mut text)?;
    out.append(text)
}

fn put_top(
    alloc: Global,
    l: &Loaded,
    c: &Counted,
    t: &Ranked,
    head: &Head,
    out: &mut Text,
) -> Result<(), Memory>
    requires { CanShow l.now.profile c.now.sums t.now.order }
    ensures { IfOk result (λ _. out.new
        ≡ out.old ++ ranked_text l.now.profile c.now.sums t.now (facts head.now)) }
{
    write_head(alloc, head, out)?;
    put_summary(t, head, out)?;
    out.extend(HEADING)?;
    let sums = &c.sums;
    put_rows(alloc, &TopTable { l, sums, head }, t.order.as_slice(), out)
}

fn put_summary(t: &Ranked, head: &Head, out: &mut Text) -> Result<(), Memory>
    ensures { IfOk result (λ _. out.new ≡ out.old ++ top_summary (facts head.now) t.now.shown_flat
        t.now.dropped_nodes (length t.now.order) t.now.candidates) }
{
    head.put_showing(t.shown_flat, out)?;
    put_dropped_nodes(t.dropped_nodes, out)?;
    put_limited(t.order.len() as u64, t.candidates, out)
}
