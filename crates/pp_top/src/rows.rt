//! The rows of the table.
ghost use Rattle.std.specs.Prelude.{◌≡◌, ◌++◌, ◌<◌, pos, length, map, All, IfOk};
ghost use Rattle.pp_units.specs.Rows.{name_end};
ghost use Rattle.pp_units.specs.Shown.{shown};
ghost use Rattle.pp_grain.specs.Keys.{IsKeyOf, key_written};
ghost use Rattle.pp_grain.specs.Naming.{name_text};
ghost use Rattle.pp_count.specs.Counted.{FitSums};
ghost use Rattle.pp_graph.specs.KeyRows.{row_at, CanShow};
ghost use Rattle.pp_top.specs.Top.{top_row, top_rows};

use pp_base::{Memory, Text};
use pp_count::Sums;
use pp_grain::{Key, write_name};
use pp_model::Loaded;
use pp_units::Head;
use std::alloc::Global;

/// What the rows of top are made of.
#[derive(Clone, Copy)]
pub struct TopTable<'a> {
    /// The profile whose keys they are.
    pub l: &'a Loaded,
    /// The sums, by key number.
    pub sums: &'a Sums,
    /// How values are printed.
    pub head: &'a Head,
}

/// Appends a line for each of the names with these numbers, in their order.
pub fn put_rows(
    alloc: Global,
    table: &TopTable,
    order: &[u64],
    out: &mut Text,
) -> Result<(), Memory>
    requires { CanShow table.now.l.now.profile table.now.sums.now order.now }
    ensures { IfOk result (λ _. out.new ≡ out.old
        ++ top_rows (shown table.now.head.now.unit) table.now.head.now.total (pos 0)
        (map (row_at table.now.l.now.profile table.now.sums.now) order.now)) }
{
    let mut scratch = Text::new(alloc);
    let mut sum = 0;
    for number in order {
        sum += table.sums.flat.as_slice()[*number as usize];
        put_row(table, *number, sum, &mut scratch, out)?;
    }
    Ok(())
}

// "%10s %8s %8s %10s %8s  %s": flat, flat%, sum%, cum, cum% and the name, where the flats up to it have this sum.
fn put_row(
    table: &TopTable,
    number: u64,
    sum: i64,
    scratch: &mut Text,
    out: &mut Text,
) -> Result<(), Memory>
    requires keys { All (IsKeyOf table.now.l.now.profile) table.now.sums.now.names }
    requires fits { FitSums table.now.sums.now }
    requires below { number < length table.now.sums.now.names }
    ensures { IfOk result (λ _. out.new ≡ out.old
        ++ top_row (shown table.now.head.now.unit) table.now.head.now.total sum
        (row_at table.now.l.now.profile table.now.sums.now number)) }
{
    let sums = table.sums;
    let flat = sums.flat.as_slice()[number as usize];
    let cum = sums.cum.as_slice()[number as usize];
    table.head.put_columns(flat, sum, cum, scratch, out)?;
    put_name(table.l, &sums.names.key(number), out)
}

fn put_name(l: &Loaded, key: &Key, out: &mut Text) -> Result<(), Memory>
    requires { IsKeyOf l.now.profile key.now }
    ensures { IfOk result (λ _. out.new ≡ out.old
        ++ name_end (name_text (key_written l.now.profile key.now))) }
{
    out.extend(b"  ")?;
    write_name(l, key, out)?;
    out.extend(b"\n")
}
