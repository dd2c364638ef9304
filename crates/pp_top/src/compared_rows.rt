//! The rows of compare.
ghost use Rattle.std.specs.Prelude.{◌≡◌, ◌++◌, ◌<◌, length, All, IfOk};
ghost use Rattle.std.specs.List.{flat_map};
ghost use Rattle.pp_units.specs.Rows.{name_end};
ghost use Rattle.pp_units.specs.Shown.{shown};
ghost use Rattle.pp_grain.specs.Keys.{IsKeyOf, key_written};
ghost use Rattle.pp_grain.specs.Naming.{name_text};
ghost use Rattle.pp_count.specs.Counted.{FitSums};
ghost use Rattle.pp_count.specs.Base.{FitBase};
ghost use Rattle.pp_graph.specs.Ranks.{sum_of_name};
ghost use Rattle.pp_top.specs.Compare.{difference_line};
ghost use Rattle.pp_top.specs.ComparedRows.{figures_at, compared_at};

use crate::columns::put_columns;
use crate::difference::{Difference, difference_of};
use pp_base::{List, Memory, Text};
use pp_count::{BaseSums, Sums};
use pp_grain::{Key, write_name};
use pp_model::{Loaded, Sort};
use pp_units::Head;
use std::alloc::Global;

/// What the rows of keys are made of.
#[derive(Clone, Copy)]
pub struct CompareTable<'a> {
    /// The profile whose keys they are.
    pub l: &'a Loaded,
    /// The sums over all samples, by key number.
    pub sums: &'a Sums,
    /// The sums over the base's samples, by key number. Their values are negated.
    pub base: &'a BaseSums,
    /// Which figure of a key is compared.
    pub sort: Sort,
    /// How values are printed.
    pub head: &'a Head,
}

/// Appends a line for each of the names with these numbers, in their order.
pub fn put_rows(
    alloc: Global,
    table: &CompareTable,
    order: &[u64],
    out: &mut Text,
) -> Result<(), Memory>
    requires keys { All (IsKeyOf table.now.l.now.profile) table.now.sums.now.names }
    requires fits { FitSums table.now.sums.now }
    requires base { FitBase table.now.sums.now.names table.now.base.now }
    requires below { All (λ n. n < length table.now.sums.now.names) order.now }
    ensures { IfOk result (λ _. out.new ≡ out.old ++ flat_map (λ n.
        difference_line (shown table.now.head.now.unit)
        (compared_at table.now.l.now.profile table.now.sort table.now.sums.now table.now.base.now n))
        order.now) }
{
    let mut scratch = Text::new(alloc);
    for number in order {
        put_row(table, *number, &mut scratch, out)?;
    }
    Ok(())
}

fn put_row(
    table: &CompareTable,
    number: u64,
    scratch: &mut Text,
    out: &mut Text,
) -> Result<(), Memory>
    requires keys { All (IsKeyOf table.now.l.now.profile) table.now.sums.now.names }
    requires fits { FitSums table.now.sums.now }
    requires base { FitBase table.now.sums.now.names table.now.base.now }
    requires below { number < length table.now.sums.now.names }
    ensures { IfOk result (λ _. out.new ≡ out.old ++ difference_line (shown table.now.head.now.unit)
        (compared_at table.now.l.now.profile table.now.sort table.now.sums.now table.now.base.now number)) }
{
    let figures = figures(table.sums, table.base, table.sort, number);
    put_columns(table.head, &figures, scratch, out)?;
    put_name(table.l, &table.sums.names.key(number), out)
}

/// What is compared of the name with this number.
pub fn figures(sums: &Sums, base: &BaseSums, sort: Sort, number: u64) -> Difference
    requires fits { FitSums sums.now }
    requires base { FitBase sums.now.names base.now }
    requires below { number < length sums.now.names }
    ensures { result ≡ figures_at sort sums.now base.now number }
{
    let (before, all) = match sort {
        Sort::Flat => (&base.flat, &sums.flat),
        Sort::Cum => (&base.cum, &sums.cum),
    };
    difference_of(at(before, number), at(all, number))
}

// The figure at the place.
fn at(figures: &List<i64>, place: u64) -> i64
    requires { place < length figures.now }
    ensures { result ≡ sum_of_name figures.now place }
{
    figures.as_slice()[place as usize]
}

fn put_name(l: &Loaded, key: &Key, out: &mut Text) -> Result<(), Memory>
    requires { IsKeyOf l.now.profile key.now }
    ensures { IfOk result (λ _. out.new ≡ out.old
        ++ name_end (name_text (key_written l.now.profile key.now))) }
{
    out.extend(b"  ")?;
    write_name(l, key, out)?;
    out.extend(b"\n")
}
