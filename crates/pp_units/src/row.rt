//! The columns of a row, and the lines above a table, which several reports have in common.
ghost use Rattle.std.specs.Prelude.{◌≡◌, ◌++◌, pos, codes, IfOk};
ghost use Rattle.pp_units.specs.Shown.{shown};
ghost use Rattle.pp_units.specs.Numbers.{value_text};
ghost use Rattle.pp_units.specs.Rows.{numbered, value_column, percent_column, pair_text, between_text, columns_text, showing_line, dropped_line, dropped_nodes, dropped_edges, counts_text, limited_line};

use crate::head::put_size;
use crate::{Head, Small, Unit, put_right, put_value, write_percent};
use itoa::Buffer;
use pp_base::{Memory, Text};

/// The heading above a table of rows.
pub const HEADING: &[u8] = b"      flat    flat%     sum%        cum     cum%\n";

impl Head {
    /// Appends a value at the right of ten places: `"%10s"`. The scratch text is written over.
    pub fn put_value(&self, value: i64, scratch: &mut Text, out: &mut Text) -> Result<(), Memory>
        ensures { IfOk result (λ _. out.new ≡ out.old ++ value_column (shown self.now.unit) value) }
    {
        scratch.clear();
        put_value(value, &self.unit, scratch)?;
        put_right(10, scratch.as_slice(), out)
    }

    /// Appends a percentage of the total at the right of eight places: `"%8s"`.
    pub fn put_percent(&self, value: i64, out: &mut Text) -> Result<(), Memory>
        ensures { IfOk result (λ _. out.new ≡ out.old ++ percent_column self.now.total value) }
    {
        let mut percent = Small::new();
        write_percent(value, self.total, &mut percent);
        put_right(8, percent.bytes(), out)
    }

    fn put_pair(&self, value: i64, scratch: &mut Text, out: &mut Text) -> Result<(), Memory>
        ensures { IfOk result (λ _.
            out.new ≡ out.old ++ pair_text (shown self.now.unit) self.now.total value) }
    {
        self.put_value(value, scratch, out)?;
        out.extend(b" ")?;
        self.put_percent(value, out)
    }

    fn put_between(&self, sum: i64, out: &mut Text) -> Result<(), Memory>
        ensures { IfOk result (λ _. out.new ≡ out.old ++ between_text self.now.total sum) }
    {
        out.extend(b" ")?;
        self.put_percent(sum, out)?;
        out.extend(b" ")
    }

    /// Appends the five columns of a row, where the flats up to it have this sum: `"%10s %8s %8s %10s %8s"`.
    pub fn put_columns(
        &self,
        flat: i64,
        sum: i64,
        cum: i64,
        scratch: &mut Text,
        out: &mut Text,
    ) -> Result<(), Memory>
        ensures { IfOk result (λ _.
            out.new ≡ out.old ++ columns_text (shown self.now.unit) self.now.total flat sum cum) }
    {
        self.put_pair(flat, scratch, out)?;
        self.put_between(sum, out)?;
        self.put_pair(cum, scratch, out)
    }

    /// Appends what the nodes that are shown account for: the sum of their flats, and its part of the total.
    pub fn put_showing(&self, sum: i64, out: &mut Text) -> Result<(), Memory>
        ensures { IfOk result (λ _.
            out.new ≡ out.old ++ showing_line (shown self.now.unit) self.now.total sum) }
    {
        let mut percent = Small::new();
        write_percent(sum, self.total, &mut percent);
        put_framed(
            b"Showing nodes accounting for ",
            sum,
            &self.unit,
            b", ",
            out,
        )?;
        out.extend(percent.bytes())?;
        self.put_total(out)
    }

    fn put_total(&self, out: &mut Text) -> Result<(), Memory>
        ensures { IfOk result (λ _.
            out.new ≡ out.old ++ (codes " of "
            ++ value_text (pos self.now.total) (shown self.now.unit) ++ codes " total\n")) }
    {
        out.extend(b" of ")?;
        put_size(self.total, &self.unit, out)?;
        out.extend(b" total\n")
    }
}

// A value between two texts.
fn put_framed(
    front: &[u8],
    value: i64,
    unit: &Unit,
    back: &[u8],
    out: &mut Text,
) -> Result<(), Memory>
    ensures { IfOk result (λ _.
        out.new ≡ out.old ++ (front.now ++ value_text value (shown unit.now) ++ back.now)) }
{
    out.extend(front)?;
    put_value(value, unit, out)?;
    out.extend(back)
}

/// Appends the text, and then the number in decimal digits.
pub fn put_numbered(front: &[u8], number: u64, out: &mut Text) -> Result<(), Memory>
    ensures { IfOk result (λ _. out.new ≡ out.old ++ numbered front.now number) }
{
    let mut digits = Buffer::new();
    out.extend(front)?;
    out.extend(digits.format(number).as_bytes())
}

/// Appends how many nodes are too light to be shown, if any.
pub fn put_dropped_nodes(dropped: u64, out: &mut Text) -> Result<(), Memory>
    ensures { IfOk result (λ _. out.new ≡ out.old ++ dropped_line dropped_nodes dropped) }
{
    put_dropped(dropped, b" nodes by nodefraction\n", out)
}

/// Appends how many edges are too light to be shown, if any.
pub fn put_dropped_edges(dropped: u64, out: &mut Text) -> Result<(), Memory>
    ensures { IfOk result (λ _. out.new ≡ out.old ++ dropped_line dropped_edges dropped) }
{
    put_dropped(dropped, b" edges by edgefraction\n", out)
}

fn put_dropped(dropped: u64, reason: &[u8], out: &mut Text) -> Result<(), Memory>
    ensures { IfOk result (λ _. out.new ≡ out.old ++ dropped_line reason.now dropped) }
{
    if dropped == 0 {
        return Ok(());
    }
    put_numbered(b"Dropped ", dropped, out)?;
    out.extend(reason)
}

/// Appends how many of the candidates are shown, where they are not all.
pub fn put_limited(shown: u64, candidates: u64, out: &mut Text) -> Result<(), Memory>
    ensures { IfOk result (λ _. out.new ≡ out.old ++ limited_line shown candidates) }
{
    if shown >= candidates {
        return Ok(());
    }
    put_counts(shown, candidates, out)
}

fn put_counts(shown: u64, candidates: u64, out: &mut Text) -> Result<(), Memory>
    ensures { IfOk result (λ _. out.new ≡ out.old ++ counts_text shown candidates) }
{
    put_numbered(b"Showing top ", shown, out)?;
    put_numbered(b" nodes out of ", candidates, out)?;
    out.extend(b"\n")
}
