//! The first lines of a report.
ghost use Rattle.std.specs.Prelude.{◌≡◌, ◌++◌, pos, OnOk, OnErr};
ghost use Rattle.pp_units.specs.Shown.{shown};
ghost use Rattle.pp_units.specs.Numbers.{value_text};
ghost use Rattle.pp_units.specs.Head.{head_text, labelled, known_duration, duration_line};

use crate::number::{suffix_after, write_number};
use crate::right::put_both;
use crate::{Small, Unit, pick_unit};
use pp_base::{Memory, Text, last_name};
use std::alloc::Global;

/// What the first lines of a report say.
#[derive(Debug, Drop)]
pub struct Head {
    /// The path of the first mapping's file, or nothing.
    pub file: Text,
    /// The name of the type of the values.
    pub kind: Text,
    /// In nanoseconds; none is known where it is not above 0.
    pub duration: i64,
    /// The sum of the absolute values, in the type's unit.
    pub total: u64,
    /// How values are printed.
    pub unit: Unit,
}

/// Appends the lines of the file, the type and the duration, each where there is one.
#[tactic(auto, unfolding(crate::specs::Head::head_lines))]
pub fn write_head(alloc: Global, head: &Head, out: &mut Text) -> Result<(), Memory>
    ensures ok { OnOk result (out.new ≡ out.old ++ head_text head.now) }
    ensures err { OnErr result (out.new ≡ out.old) }
{
    let mut lines = Text::new(alloc);
    put_labelled(b"File: ", last_name(head.file.as_slice()), &mut lines)?;
    put_labelled(b"Type: ", head.kind.as_slice(), &mut lines)?;
    put_duration(alloc, head, &mut lines)?;
    out.extend(lines.as_slice())
}

// A line of the label and the text, where the text is not empty.
fn put_labelled(label: &[u8], text: &[u8], lines: &mut Text) -> Result<(), Memory>
    ensures { OnOk result (lines.new ≡ lines.old ++ labelled label.now text.now) }
{
    if text.is_empty() {
        return Ok(());
    }
    lines.extend(label)?;
    lines.extend(text)?;
    lines.extend(b"\n")
}

fn put_duration(alloc: Global, head: &Head, lines: &mut Text) -> Result<(), Memory>
    ensures { OnOk result (lines.new
        ≡ lines.old ++ duration_line head.now.duration head.now.total (shown head.now.unit)) }
{
    if head.duration <= 0 {
        return Ok(());
    }
    put_known(
        alloc,
        head.duration.unsigned_abs(),
        head.total,
        &head.unit,
        lines,
    )
}

// The line of the duration in nanoseconds, and of the total, which is in the unit.
fn put_known(
    alloc: Global,
    nanoseconds: u64,
    total: u64,
    unit: &Unit,
    lines: &mut Text,
) -> Result<(), Memory>
    ensures { OnOk result (lines.new
        ≡ lines.old ++ known_duration nanoseconds total (shown unit.now)) }
{
    let own = pick_unit(alloc, nanoseconds, b"ns")?;
    lines.extend(b"Duration: ")?;
    put_size(nanoseconds, &own, lines)?;
    lines.extend(b", Total samples = ")?;
    put_size(total, unit, lines)?;
    lines.extend(b"\n")
}

/// Appends the size, which is in the unit's type, with the unit.
#[tactic(auto, unfolding(crate::specs::Numbers::value_text, crate::specs::Numbers::number_text))]
pub fn put_size(size: u64, unit: &Unit, lines: &mut Text) -> Result<(), Memory>
    ensures { OnOk result (lines.new ≡ lines.old ++ value_text (pos size) (shown unit.now)) }
{
    let mut number = Small::new();
    write_number(false, size, unit, &mut number);
    let suffix = suffix_after(number.bytes(), unit.suffix_at(size));
    put_both(number.bytes(), suffix, lines)
}
