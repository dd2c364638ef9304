//! The rows of the report.
ghost use Rattle.std.specs.Prelude.{◌≡◌, ◌++◌, codes, decimal, IfOk};
ghost use Rattle.std.specs.List.{flat_map};
ghost use Rattle.pp_model.specs.Finders.{Finders};
ghost use Rattle.pp_units.specs.Head.{facts};
ghost use Rattle.pp_units.specs.Numbers.{right_text};
ghost use Rattle.pp_units.specs.Rows.{name_end, pair_text};
ghost use Rattle.pp_units.specs.Shown.{shown};
ghost use Rattle.pp_count.specs.Seeing.{HoldsFilters};
ghost use Rattle.pp_account.specs.Account.{account_heading, account_line, bare_row, dropping, filter_name, filter_text};
ghost use Rattle.pp_account.specs.Adding.{portion_at};
ghost use Rattle.pp_account.specs.First.{is_in_force};
ghost use Rattle.pp_account.specs.Lines.{filter_line, node_portion_lines, sample_portion_lines};

use crate::nodes::NodePortions;
use crate::portion::Portion;
use crate::portions::Portions;
use itoa::Buffer;
use pp_base::{Memory, Text};
use pp_count::Survey;
use pp_model::{Filtering, Slot};
use pp_units::{Head, put_right};
use std::alloc::Global;

// The filters that can drop a sample, in the order in which they are accounted for.
const DROPPING: [Slot; 7] = [
    Slot::Ignore,
    Slot::Focus,
    Slot::Hide,
    Slot::Show,
    Slot::ShowFrom,
    Slot::TagFocus,
    Slot::TagIgnore,
];

/// Appends the rows of samples: of all, of those that each filter in force is the first to drop, and of those that the
/// filters leave. Samples that are left without a frame have a row too, where there are any.
pub fn put_sample_rows(
    alloc: Global,
    survey: &Survey<'_>,
    portions: &Portions,
    head: &Head,
    out: &mut Text,
) -> Result<(), Memory>
    ensures { (f : Finders) →
        HoldsFilters survey.now.l.now survey.now.v.now survey.now.config.now.filtering f →
        IfOk result (λ _. out.new ≡ out.old
        ++ sample_portion_lines f survey.now.config.now.filtering portions.now (facts head.now)) }
{
    let mut scratch = Text::new(alloc);
    put_row(portions.loaded, b"loaded", head, &mut scratch, out)?;
    put_filter_rows(alloc, survey, portions, head, out)?;
    put_row(portions.left, b"left", head, &mut scratch, out)?;
    put_bare_row(portions.bare, head, &mut scratch, out)
}

// The rows of the filters that are in force.
fn put_filter_rows(
    alloc: Global,
    survey: &Survey<'_>,
    portions: &Portions,
    head: &Head,
    out: &mut Text,
) -> Result<(), Memory>
    ensures { (f : Finders) →
        HoldsFilters survey.now.l.now survey.now.v.now survey.now.config.now.filtering f →
        IfOk result (λ _. out.new ≡ out.old
        ++ flat_map (filter_line f survey.now.config.now.filtering portions.now (facts head.now))
        dropping) }
{
    let mut room = RowRoom {
        name: Text::new(alloc),
        value: Text::new(alloc),
    };
    for slot in DROPPING.as_slice() {
        put_filter_row(survey, portions, *slot, head, &mut room, out)?;
    }
    Ok(())
}

// What a filter's row is made of, in room that is used again.
#[derive(Drop)]
struct RowRoom {
    name: Text,
    value: Text,
}

// The row of the filter, where it is in force.
fn put_filter_row(
    survey: &Survey<'_>,
    portions: &Portions,
    slot: Slot,
    head: &Head,
    room: &mut RowRoom,
    out: &mut Text,
) -> Result<(), Memory>
    ensures { (f : Finders) →
        HoldsFilters survey.now.l.now survey.now.v.now survey.now.config.now.filtering f →
        IfOk result (λ _. out.new ≡ out.old
        ++ filter_line f survey.now.config.now.filtering portions.now (facts head.now) slot) }
{
    if !is_in_force(survey, slot) {
        return Ok(());
    }
    room.name.clear();
    put_filter_name(&survey.config.filtering, slot, &mut room.name)?;
    put_row(
        portions.at(slot),
        room.name.as_slice(),
        head,
        &mut room.value,
        out,
    )
}

// The filter's variable and the value of that.
fn put_filter_name(filtering: &Filtering, slot: Slot, out: &mut Text) -> Result<(), Memory>
    ensures { IfOk result (λ _. out.new ≡ out.old ++ filter_name filtering.now slot) }
{
    out.extend(slot.name())?;
    out.extend(b"=")?;
    out.extend(filter_text(filtering, slot))
}

// The value of the filter's variable.
fn filter_text(filtering: &Filtering, slot: Slot) -> &[u8]
    ensures { result.now ≡ filter_text filtering.now slot }
{
    match slot {
        Slot::Ignore => filtering.ignore.as_slice(),
        Slot::Focus => filtering.focus.as_slice(),
        Slot::Hide => filtering.hide.as_slice(),
        Slot::Show => filtering.show.as_slice(),
        Slot::ShowFrom => filtering.show_from.as_slice(),
        Slot::TagFocus => filtering.tagfocus.as_slice(),
        Slot::TagIgnore => filtering.tagignore.as_slice(),
        Slot::PruneFrom | Slot::TagShow | Slot::TagHide | Slot::Own => b"",
    }
}

// Whether the filter is in force.
fn is_in_force(survey: &Survey<'_>, slot: Slot) -> bool
    ensures { (f : Finders) →
        HoldsFilters survey.now.l.now survey.now.v.now survey.now.config.now.filtering f →
        result ≡ is_in_force f survey.now.config.now.filtering slot }
{
    let (v, filters) = (survey.v, survey.filters());
    match slot {
        Slot::Ignore => v.ignore.is_some(),
        Slot::Focus => v.focus.is_some(),
        Slot::Hide => v.hide.is_some(),
        Slot::Show => v.show.is_some(),
        Slot::ShowFrom => v.show_from.is_some(),
        Slot::TagFocus => filters.tagfocus.is_some(),
        Slot::TagIgnore => filters.tagignore.is_some(),
        Slot::PruneFrom | Slot::TagShow | Slot::TagHide | Slot::Own => false,
    }
}

// The row of the samples that are left without a frame, where there are any.
fn put_bare_row(
    portion: Portion,
    head: &Head,
    scratch: &mut Text,
    out: &mut Text,
) -> Result<(), Memory>
    ensures { IfOk result (λ _. out.new ≡ out.old
        ++ flat_map (account_line (facts head.now)) (bare_row portion)) }
{
    if portion.count == 0 {
        return Ok(());
    }
    put_row(portion, b"left without a frame", head, scratch, out)
}

/// Appends the rows of keys: those that occur, those that are too light, those past the limit, and those that are shown.
pub fn put_node_rows(
    alloc: Global,
    portions: &NodePortions,
    head: &Head,
    out: &mut Text,
) -> Result<(), Memory>
    ensures { IfOk result (λ _. out.new ≡ out.old
        ++ node_portion_lines portions.now (facts head.now)) }
{
    let mut scratch = Text::new(alloc);
    put_row(portions.counted, b"counted", head, &mut scratch, out)?;
    put_row(
        portions.light,
        b"below nodefraction",
        head,
        &mut scratch,
        out,
    )?;
    put_row(
        portions.beyond,
        b"beyond nodecount",
        head,
        &mut scratch,
        out,
    )?;
    put_row(portions.shown, b"shown", head, &mut scratch, out)
}

/// Appends the heading above rows of what is counted: `"%10s %10s %8s  account"`.
pub fn put_heading(counted: &[u8], out: &mut Text) -> Result<(), Memory>
    ensures { IfOk result (λ _. out.new ≡ out.old ++ account_heading counted.now) }
{
    put_right(10, counted, out)?;
    out.extend(b"      value   value%  account\n")
}

// A row: `"%10s %10s %8s  %s"`. The scratch text is written over.
fn put_row(
    portion: Portion,
    name: &[u8],
    head: &Head,
    scratch: &mut Text,
    out: &mut Text,
) -> Result<(), Memory>
    ensures { IfOk result (λ _. out.new ≡ out.old
        ++ account_line (facts head.now) (record { portion = portion; name = name.now })) }
{
    put_count(portion.count, out)?;
    put_figures(portion.value, head, scratch, out)?;
    put_name(name, out)
}

// A count, and the space behind it.
fn put_count(count: u64, out: &mut Text) -> Result<(), Memory>
    ensures { IfOk result (λ _. out.new ≡ out.old ++ (right_text 10 (decimal count) ++ codes " ")) }
{
    let mut digits = Buffer::new();
    put_right(10, digits.format(count).as_bytes(), out)?;
    out.extend(b" ")
}

// A value and its percentage of the total.
fn put_figures(value: i64, head: &Head, scratch: &mut Text, out: &mut Text) -> Result<(), Memory>
    ensures { IfOk result (λ _. out.new ≡ out.old
        ++ pair_text (shown head.now.unit) head.now.total value) }
{
    head.put_value(value, scratch, out)?;
    out.extend(b" ")?;
    head.put_percent(value, out)
}

fn put_name(name: &[u8], out: &mut Text) -> Result<(), Memory>
    ensures { IfOk result (λ _. out.new ≡ out.old ++ name_end name.now) }
{
    out.extend(b"  ")?;
    out.extend(name)?;
    out.extend(b"\n")
}
