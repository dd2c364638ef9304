//! The changes report.
ghost use Rattle.std.specs.Prelude.{◌≡◌, ◌++◌, ◌<◌, ℕ, All, IfOk, OnOk, OnErr, length};
ghost use Rattle.std.specs.List.{flat_map};
ghost use Rattle.pp_model.specs.Finders.{Finders};
ghost use Rattle.pp_grain.specs.Keys.{IsKeyOf};
ghost use Rattle.pp_count.specs.Base.{AreBaseSums, FitBase};
ghost use Rattle.pp_count.specs.Counted.{FitSums};
ghost use Rattle.pp_count.specs.Seeing.{HoldsFilters};
ghost use Rattle.pp_graph.specs.Trimmed.{IsWholeRanking};
ghost use Rattle.pp_top.specs.Changes.{exact_figures, change_line, changes_heading, changes_text};
ghost use Rattle.pp_top.specs.ComparedRows.{compared_at};

use crate::compared_rows::figures;
use crate::difference::Difference;
use pp_base::{Memory, Text};
use pp_cells::{put_heading_cell, put_name_cell, put_value_cell};
use pp_count::{BaseSums, Sums, Survey};
use pp_graph::Ranked;
use pp_model::{Loaded, Sort};
use std::alloc::Global;

// What the lines of keys are made of.
#[derive(Clone, Copy)]
struct ChangesTable<'a> {
    l: &'a Loaded,
    sums: &'a Sums,
    base: &'a BaseSums,
    sort: Sort,
}

/// Appends the changes report, whose cells stand apart by tabs: a heading, and a line for each key of the ranking, in
/// its order. A line has the key's figure in the base, that in the source, the second less the first, and the name.
/// Figures are in decimal, in the unit of the sample type, which stands behind a `/` in the heading where its text isn't
/// empty. A unit and a name are escaped as in the table report. `Err` is want of memory, and `out` is then as it was.
pub fn write_changes(
    alloc: Global,
    survey: &Survey<'_>,
    base: &BaseSums,
    t: &Ranked,
    unit: &[u8],
    out: &mut Text,
) -> Result<(), Memory>
    requires fits { FitBase survey.now.counted.now.sums.names base.now }
    requires below { All (λ n. n < length survey.now.counted.now.sums.names) t.now.order }
    ensures ok { (limit : ℕ) (f : Finders) →
        IsWholeRanking survey.now.l.now survey.now.v.now survey.now.config.now survey.now.column
        limit survey.now.counted.now t.now →
        HoldsFilters survey.now.l.now survey.now.v.now survey.now.config.now.filtering f →
        AreBaseSums survey.now.l.now.profile f survey.now.config.now survey.now.column
        survey.now.counted.now.sums base.now →
        OnOk result (out.new ≡ out.old ++ changes_text survey.now.l.now.profile f
        survey.now.config.now survey.now.column limit unit.now) }
    ensures err { OnErr result (out.new ≡ out.old) }
{
    let mut text = Text::new(alloc);
    let table = ChangesTable {
        l: survey.l,
        sums: &survey.counted.sums,
        base,
        sort: survey.config.presentation.sort,
    };
    put_heading(unit, &mut text)?;
    put_lines(alloc, &table, t.order.as_slice(), &mut text)?;
    out.append(text)
}

fn put_heading(unit: &[u8], out: &mut Text) -> Result<(), Memory>
    ensures { IfOk result (λ _. out.new ≡ out.old ++ changes_heading unit.now) }
{
    put_heading_cell(b"before", unit, out)?;
    put_heading_cell(b"after", unit, out)?;
    put_heading_cell(b"change", unit, out)?;
    out.extend(b"name\n")
}

// A line for each of the names with these numbers.
fn put_lines(
    alloc: Global,
    table: &ChangesTable,
    order: &[u64],
    out: &mut Text,
) -> Result<(), Memory>
    requires keys { All (IsKeyOf table.now.l.now.profile) table.now.sums.now.names }
    requires fits { FitSums table.now.sums.now }
    requires base { FitBase table.now.sums.now.names table.now.base.now }
    requires below { All (λ n. n < length table.now.sums.now.names) order.now }
    ensures { IfOk result (λ _. out.new ≡ out.old ++ flat_map (λ n. change_line
        (compared_at table.now.l.now.profile table.now.sort table.now.sums.now table.now.base.now n))
        order.now) }
{
    let mut name = Text::new(alloc);
    for number in order {
        put_line(table, *number, &mut name, out)?;
    }
    Ok(())
}

// The line of the name with the number. The scratch text is written over.
fn put_line(
    table: &ChangesTable,
    number: u64,
    name: &mut Text,
    out: &mut Text,
) -> Result<(), Memory>
    requires keys { All (IsKeyOf table.now.l.now.profile) table.now.sums.now.names }
    requires fits { FitSums table.now.sums.now }
    requires base { FitBase table.now.sums.now.names table.now.base.now }
    requires below { number < length table.now.sums.now.names }
    ensures { IfOk result (λ _. out.new ≡ out.old ++ change_line
        (compared_at table.now.l.now.profile table.now.sort table.now.sums.now table.now.base.now number)) }
{
    let d = figures(table.sums, table.base, table.sort, number);
    put_figures(&d, out)?;
    put_name_cell(table.l, &table.sums.names.key(number), name, out)
}

fn put_figures(d: &Difference, out: &mut Text) -> Result<(), Memory>
    ensures { IfOk result (λ _. out.new ≡ out.old ++ exact_figures d.now) }
{
    put_value_cell(d.before, out)?;
    put_value_cell(d.after, out)?;
    put_value_cell(d.change, out)
}
