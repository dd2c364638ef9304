//! The columns of a row, and their heading.
ghost use Rattle.std.specs.Prelude.{◌≡◌, ◌++◌, IfOk};
ghost use Rattle.pp_units.specs.Numbers.{right_text};
ghost use Rattle.pp_units.specs.Rows.{name_end};
ghost use Rattle.pp_units.specs.Shown.{shown};
ghost use Rattle.pp_top.specs.Compare.{change_text, spaced_value, difference_columns, figure_name, compare_heading};

use crate::difference::Difference;
use pp_base::{Memory, Text};
use pp_model::Sort;
use pp_units::{Head, Small, put_right, write_percent};

/// Appends the heading of a table whose keys are compared by this figure.
pub fn put_heading(sort: Sort, out: &mut Text) -> Result<(), Memory>
    ensures { IfOk result (λ _. out.new ≡ out.old ++ compare_heading sort) }
{
    out.extend(b"    before      after     change  change%")?;
    put_end(figure_name(sort), out)
}

/// Appends what a row ends with: its name.
pub fn put_end(name: &[u8], out: &mut Text) -> Result<(), Memory>
    ensures { IfOk result (λ _. out.new ≡ out.old ++ name_end name.now) }
{
    out.extend(b"  ")?;
    out.extend(name)?;
    out.extend(b"\n")
}

fn figure_name(sort: Sort) -> &'static [u8]
    ensures { result.now ≡ figure_name sort }
{
    match sort {
        Sort::Flat => b"flat",
        Sort::Cum => b"cum",
    }
}

/// Appends before, after, change and change%: `"%10s %10s %10s %8s"`. The scratch text is written over.
pub fn put_columns(
    head: &Head,
    d: &Difference,
    scratch: &mut Text,
    out: &mut Text,
) -> Result<(), Memory>
    ensures { IfOk result (λ _. out.new ≡ out.old ++ difference_columns (shown head.now.unit) d.now) }
{
    put_value(head, d.before, scratch, out)?;
    put_value(head, d.after, scratch, out)?;
    put_value(head, d.change, scratch, out)?;
    put_change(d, out)
}

// A value with a space behind it.
fn put_value(head: &Head, value: i64, scratch: &mut Text, out: &mut Text) -> Result<(), Memory>
    ensures { IfOk result (λ _. out.new ≡ out.old ++ spaced_value (shown head.now.unit) value) }
{
    head.put_value(value, scratch, out)?;
    out.extend(b" ")
}

fn put_change(d: &Difference, out: &mut Text) -> Result<(), Memory>
    ensures { IfOk result (λ _. out.new ≡ out.old ++ right_text 8 (change_text d.now)) }
{
    if d.before == 0 && d.change != 0 {
        return put_right(8, b"new", out);
    }
    let mut percent = Small::new();
    write_percent(d.change, d.before.unsigned_abs(), &mut percent);
    put_right(8, percent.bytes(), out)
}
