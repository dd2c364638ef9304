//! The table report.
ghost use Rattle.std.specs.Prelude.{◌≡◌, ◌++◌, ◌<◌, ℕ, length, map, All, Option, IfOk, OnOk, OnErr};
ghost use Rattle.pp_model.specs.declared.config.Config.{Config};
ghost use Rattle.pp_model.specs.declared.verdicts.Verdicts.{Verdicts};
ghost use Rattle.pp_model.specs.Finders.{Finders};
ghost use Rattle.pp_grain.specs.Keys.{IsKeyOf};
ghost use Rattle.pp_count.specs.Counted.{FitSums, IsCountedOf};
ghost use Rattle.pp_count.specs.Seeing.{HoldsFilters};
ghost use Rattle.pp_graph.specs.KeyRows.{row_at, CanShow};
ghost use Rattle.pp_graph.specs.Trimmed.{IsWholeRanking};
ghost use Rattle.pp_export.specs.Table.{exact_heading, row_line, table_rows, exact_table};

use pp_base::{Memory, Text};
use pp_cells::{put_heading_cell, put_name_cell, put_value_cell};
use pp_count::{Counted, Sums};
use pp_graph::Ranked;
use pp_model::Loaded;
use std::alloc::Global;

/// Appends the table report, whose cells stand apart by tabs: a heading, and a line for each key of the ranking, in its
/// order, with its flat, its cum and its name. Sums are in decimal, in the unit of the sample type, which stands behind
/// a `/` in the heading where it is known. In a unit and in a name, a tab is written `\t`, a line feed `\n`, a carriage
/// return `\r` and a backslash `\\`. `Err` is want of memory, and `out` is then as it was.
pub fn write_table(
    alloc: Global,
    l: &Loaded,
    c: &Counted,
    t: &Ranked,
    unit: &[u8],
    out: &mut Text,
) -> Result<(), Memory>
    requires { CanShow l.now.profile c.now.sums t.now.order }
    ensures ok { (v : Verdicts) (config : Config) (column : Option ℕ) (limit : ℕ) (f : Finders) →
        IsCountedOf l.now v config column c.now →
        IsWholeRanking l.now v config column limit c.now t.now →
        HoldsFilters l.now v config.filtering f →
        OnOk result (out.new
        ≡ out.old ++ exact_table l.now.profile f config column limit unit.now) }
    ensures err { OnErr result (out.new ≡ out.old) }
{
    let mut text = Text::new(alloc);
    put_heading(unit, &mut text)?;
    put_rows(alloc, l, &c.sums, t.order.as_slice(), &mut text)?;
    out.append(text)
}

fn put_heading(unit: &[u8], out: &mut Text) -> Result<(), Memory>
    ensures { IfOk result (λ _. out.new ≡ out.old ++ exact_heading unit.now) }
{
    put_heading_cell(b"flat", unit, out)?;
    put_heading_cell(b"cum", unit, out)?;
    out.extend(b"name\n")
}

// A line for each of the names with these numbers.
fn put_rows(
    alloc: Global,
    l: &Loaded,
    sums: &Sums,
    order: &[u64],
    out: &mut Text,
) -> Result<(), Memory>
    requires keys { All (IsKeyOf l.now.profile) sums.now.names }
    requires fits { FitSums sums.now }
    requires below { All (λ n. n < length sums.now.names) order.now }
    ensures { IfOk result (λ _. out.new
        ≡ out.old ++ table_rows (map (row_at l.now.profile sums.now) order.now)) }
{
    let mut name = Text::new(alloc);
    for number in order {
        put_row(l, sums, *number, &mut name, out)?;
    }
    Ok(())
}

// The line of the name with the number. The scratch text is written over.
fn put_row(
    l: &Loaded,
    sums: &Sums,
    number: u64,
    name: &mut Text,
    out: &mut Text,
) -> Result<(), Memory>
    requires keys { All (IsKeyOf l.now.profile) sums.now.names }
    requires fits { FitSums sums.now }
    requires below { number < length sums.now.names }
    ensures { IfOk result (λ _.
        out.new ≡ out.old ++ row_line (row_at l.now.profile sums.now number)) }
{
    put_value_cell(sums.flat.as_slice()[number as usize], out)?;
    put_value_cell(sums.cum.as_slice()[number as usize], out)?;
    put_name_cell(l, &sums.names.key(number), name, out)
}
