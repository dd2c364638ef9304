//! The whole report.
ghost use Rattle.std.specs.Prelude.{◌≡◌, ◌++◌, ◌<◌, ℕ, All, IfOk, OnOk, OnErr, length};
ghost use Rattle.pp_model.specs.Finders.{Finders};
ghost use Rattle.pp_units.specs.Head.{facts};
ghost use Rattle.pp_units.specs.Rows.{dropped_line, dropped_nodes, limited_line};
ghost use Rattle.pp_units.specs.Shown.{shown};
ghost use Rattle.pp_grain.specs.Keys.{IsKeyOf};
ghost use Rattle.pp_count.specs.Counted.{FitSums};
ghost use Rattle.pp_count.specs.Seeing.{HoldsFilters};
ghost use Rattle.pp_graph.specs.Trimmed.{IsRankedOf};
ghost use Rattle.pp_count.specs.Base.{AreBaseSums, FitBase};
ghost use Rattle.pp_top.specs.Compare.{compare_text, difference_line};
ghost use Rattle.pp_top.specs.ComparedRows.{compared_ranking, whole_at};

use crate::columns::{put_columns, put_end, put_heading};
use crate::compared_rows::{CompareTable, put_rows};
use crate::difference::difference_of;
use pp_base::{Memory, Text};
use pp_count::{BaseSums, Survey, counted_whole};
use pp_graph::Ranked;
use pp_units::{Head, put_dropped_nodes, put_limited, write_head};
use std::alloc::Global;

/// Appends the compare report: the lines of the head, the heading, the row of all samples, and a row for each key of
/// the ranking, in its order. Percentages are of the base's absolute figures. `Err` is want of memory, and `out` is
/// then as it was.
pub fn write_compare(
    alloc: Global,
    survey: &Survey<'_>,
    base: &BaseSums,
    t: &Ranked,
    head: &Head,
    out: &mut Text,
) -> Result<(), Memory>
    requires fits { FitBase survey.now.counted.now.sums.names base.now }
    requires below { All (λ n. n < length survey.now.counted.now.sums.names) t.now.order }
    ensures ok { (limit : ℕ) (f : Finders) →
        IsRankedOf survey.now.l.now survey.now.v.now survey.now.config.now survey.now.column limit
        survey.now.counted.now t.now →
        HoldsFilters survey.now.l.now survey.now.v.now survey.now.config.now.filtering f →
        AreBaseSums survey.now.l.now.profile f survey.now.config.now survey.now.column
        survey.now.counted.now.sums base.now →
        OnOk result (out.new ≡ out.old ++ compare_text survey.now.l.now.profile f
        survey.now.config.now survey.now.column limit (facts head.now)) }
    ensures err { OnErr result (out.new ≡ out.old) }
{
    let mut text = Text::new(alloc);
    let table = CompareTable {
        l: survey.l,
        sums: &survey.counted.sums,
        base,
        sort: survey.config.presentation.sort,
        head,
    };
    let change = counted_whole(survey);
    put_compare(alloc, &table, t, change, &mut text)?;
    out.append(text)
}

// The whole text, where the values of all samples have this sum.
fn put_compare(
    alloc: Global,
    table: &CompareTable,
    t: &Ranked,
    change: i64,
    out: &mut Text,
) -> Result<(), Memory>
    requires keys { All (IsKeyOf table.now.l.now.profile) table.now.sums.now.names }
    requires fits { FitSums table.now.sums.now }
    requires base { FitBase table.now.sums.now.names table.now.base.now }
    requires below { All (λ n. n < length table.now.sums.now.names) t.now.order }
    ensures { IfOk result (λ _. out.new ≡ out.old
        ++ compared_ranking table.now.l.now.profile table.now.sort table.now.sums.now table.now.base.now
        change t.now (facts table.now.head.now)) }
{
    write_head(alloc, table.head, out)?;
    put_counts(t, out)?;
    put_heading(table.sort, out)?;
    put_whole(alloc, table, change, out)?;
    put_rows(alloc, table, t.order.as_slice(), out)
}

// How many keys are too light, and how many of the others are shown.
fn put_counts(t: &Ranked, out: &mut Text) -> Result<(), Memory>
    ensures { IfOk result (λ _. out.new ≡ out.old
        ++ (dropped_line dropped_nodes t.now.dropped_nodes
        ++ limited_line (length t.now.order) t.now.candidates)) }
{
    put_dropped_nodes(t.dropped_nodes, out)?;
    put_limited(t.order.len() as u64, t.candidates, out)
}

// The row of all samples.
fn put_whole(alloc: Global, table: &CompareTable, change: i64, out: &mut Text) -> Result<(), Memory>
    ensures { IfOk result (λ _. out.new ≡ out.old
        ++ difference_line (shown table.now.head.now.unit) (whole_at table.now.base.now change)) }
{
    let mut scratch = Text::new(alloc);
    let figures = difference_of(table.base.whole, change);
    put_columns(table.head, &figures, &mut scratch, out)?;
    put_end(b"(all)", out)
}
