//! The tags report.
ghost use Rattle.std.specs.Prelude.{◌≡◌, ◌<◌, [], ◌++◌, List, All, codes, length, map, get_or, IfOk, OnOk, OnErr};
ghost use Rattle.std.specs.List.{flat_map};
ghost use Rattle.pp_model.specs.Finders.{Finders};
ghost use Rattle.pp_units.specs.Shown.{shown};
ghost use Rattle.pp_units.specs.Numbers.{percent_text};
ghost use Rattle.pp_units.specs.Rows.{value_column};
ghost use Rattle.pp_units.specs.Head.{facts};
ghost use Rattle.pp_count.specs.Seeing.{HoldsFilters};
ghost use Rattle.pp_count.specs.Sums.{Seen};
ghost use Rattle.pp_samples.specs.Names.{name_texts};
ghost use Rattle.pp_samples.specs.TagLines.{TagTexts, tags_text, key_lines, all_keys, key_line, tag_value};
ghost use Rattle.pp_samples.specs.Tables.{Event, AreKeys, IsTableOf, events_from};
ghost use Rattle.pp_samples.specs.Places.{IsEven, EachEven, AreEven};
ghost use Rattle.pp_samples.specs.Ranked.{line_entry, line_key, event_entry, table_tags, no_tag, entry_cmp, line_key_cmp, IsKeyLine, entry_line};

use crate::key_table::TagKeyTable;
use crate::label_lines::put_own_value;
use crate::tag_counts::count_tags;
use crate::tag_name::{TagName, tag_value_order};
use crate::tag_table::{TagSum, TagTable};
use pp_base::{List, Memory, Text};
use pp_count::Survey;
use pp_units::{Head, Small, Unit, put_right, put_value, write_percent};
use std::alloc::Global;
use std::cmp::Ordering;

/// A tag with what the samples come to that have it, and its number in its table.
#[derive(Clone, Copy)]
pub struct TagLine<'x, 'a> {
    /// What the tag says.
    pub name: &'x TagName<'a>,
    /// What the samples that have it come to.
    pub sum: TagSum,
    /// Its number in its table, in the order of first sight.
    pub number: u64,
}

/// Appends for each key of the labels that are shown its values, with their sums over the samples that the filters
/// leave.
/// `Err` is want of memory, and leaves `out` as it was.
pub fn write_tags(
    alloc: Global,
    survey: &Survey<'_>,
    head: &Head,
    out: &mut Text,
) -> Result<(), Memory>
    ensures ok { (f : Finders) →
        HoldsFilters survey.now.l.now survey.now.v.now survey.now.config.now.filtering f →
        OnOk result (out.new ≡ out.old ++ tags_text survey.now.l.now.profile f
        survey.now.config.now survey.now.column (facts head.now)) }
    ensures err { OnErr result (out.new ≡ out.old) }
{
    let keys = count_tags(alloc, survey, survey.counted.kept.as_slice())?;
    let mut lines = Text::new(alloc);
    put_keys(alloc, &head.unit, &keys, &mut lines)?;
    out.append(lines)
}

// The keys in their order, each with its tags.
fn put_keys(
    alloc: Global,
    unit: &Unit,
    keys: &TagKeyTable<'_>,
    out: &mut Text,
) -> Result<(), Memory>
    requires { AreEven keys.now }
    ensures { (samples : List (Seen TagTexts)) → AreKeys (events_from 0 samples) keys.now →
        IfOk result (λ _. out.new ≡ out.old
        ++ flat_map (key_lines (shown unit.now) samples) (all_keys samples)) }
{
    let mut lines = table_lines(alloc, &keys.keys)?;
    lines.sort_by(|a, b| key_order(a, b))?;
    put_each_key(alloc, unit, keys.tags.as_slice(), lines.as_slice(), out)
}

fn put_each_key(
    alloc: Global,
    unit: &Unit,
    tables: &[TagTable],
    lines: &[TagLine],
    out: &mut Text,
) -> Result<(), Memory>
    requires even { EachEven tables.now }
    requires within { All (λ line. line.number < length tables.now) lines.now }
    ensures { (samples : List (Seen TagTexts)) → All (IsKeyLine samples tables.now) lines.now →
        IfOk result (λ _. out.new ≡ out.old
        ++ flat_map (λ line. key_lines (shown unit.now) samples (line_key line)) lines.now) }
{
    for line in lines {
        put_key(alloc, unit, tables, line, out)?;
    }
    Ok(())
}

// A key with its tags in their order.
fn put_key(
    alloc: Global,
    unit: &Unit,
    tables: &[TagTable],
    key: &TagLine,
    out: &mut Text,
) -> Result<(), Memory>
    requires even { EachEven tables.now }
    requires within { key.now.number < length tables.now }
    ensures { (samples : List (Seen TagTexts)) → IsKeyLine samples tables.now key.now →
        IfOk result (λ _. out.new ≡ out.old ++ key_lines (shown unit.now) samples (line_key key.now)) }
{
    let mut lines = table_lines(alloc, &tables[key.number as usize])?;
    lines.sort_by(|a, b| line_order(a, b))?;
    put_lines(alloc, unit, key, lines.as_slice(), out)
}

// The lines of a key.
fn put_lines(
    alloc: Global,
    unit: &Unit,
    key: &TagLine,
    lines: &[TagLine],
    out: &mut Text,
) -> Result<(), Memory>
    ensures { IfOk result (λ _. out.new ≡ out.old
        ++ (key_line (shown unit.now) (line_key key.now) key.now.sum.sum
        ++ flat_map (λ line. entry_line (shown unit.now) key.now.sum.size (line_entry line)) lines.now ++ codes "\n")) }
{
    put_key_line(unit, key, out)?;
    put_values(alloc, unit, key.sum.size, lines, out)?;
    out.extend(b"\n")
}

fn put_key_line(unit: &Unit, key: &TagLine, out: &mut Text) -> Result<(), Memory>
    ensures { IfOk result (λ _. out.new ≡ out.old
        ++ key_line (shown unit.now) (line_key key.now) key.now.sum.sum) }
{
    out.extend(b" ")?;
    out.extend(key.name.key)?;
    out.extend(b": Total ")?;
    put_value(key.sum.sum, unit, out)?;
    out.extend(b"\n")
}

fn put_values(
    alloc: Global,
    unit: &Unit,
    size: u64,
    lines: &[TagLine],
    out: &mut Text,
) -> Result<(), Memory>
    ensures { IfOk result (λ _. out.new ≡ out.old
        ++ flat_map (λ line. entry_line (shown unit.now) size (line_entry line)) lines.now) }
{
    let mut scratch = Text::new(alloc);
    for line in lines {
        put_line(alloc, unit, size, line, &mut scratch, out)?;
    }
    Ok(())
}

// The line of a tag, of a key of this size. The scratch text is written over.
fn put_line(
    alloc: Global,
    unit: &Unit,
    size: u64,
    line: &TagLine,
    scratch: &mut Text,
    out: &mut Text,
) -> Result<(), Memory>
    ensures { IfOk result (λ _. out.new ≡ out.old ++ entry_line (shown unit.now) size (line_entry line.now)) }
{
    put_sum(unit, line.sum.sum, scratch, out)?;
    out.extend(b" (")?;
    put_share(size, line.sum.sum, out)?;
    out.extend(b"): ")?;
    put_tag(alloc, line.name, out)?;
    out.extend(b"\n")
}

fn put_sum(unit: &Unit, sum: i64, scratch: &mut Text, out: &mut Text) -> Result<(), Memory>
    ensures { IfOk result (λ _. out.new ≡ out.old ++ value_column (shown unit.now) sum) }
{
    scratch.clear();
    put_value(sum, unit, scratch)?;
    put_right(10, scratch.as_slice(), out)
}

fn put_share(size: u64, sum: i64, out: &mut Text) -> Result<(), Memory>
    ensures { IfOk result (λ _. out.new ≡ out.old ++ percent_text sum size) }
{
    let mut share = Small::new();
    write_percent(sum, size, &mut share);
    out.extend(share.bytes())
}

fn put_tag(alloc: Global, name: &TagName, out: &mut Text) -> Result<(), Memory>
    ensures { IfOk result (λ _. out.new ≡ out.old ++ tag_value (name_texts name.now)) }
{
    if name.is_number {
        return put_own_value(alloc, name.num, name.unit, out);
    }
    out.extend(name.text)
}

// The tags of a table, by their numbers.
fn table_lines<'x, 'a>(
    alloc: Global,
    table: &'x TagTable<'a>,
) -> Result<Vec<TagLine<'x, 'a>>, Memory>
    requires { IsEven table.now }
    ensures numbers { IfOk result (λ lines.
        All (λ line. line.number < length table.now.names) lines.items) }
    ensures entries { (events : List Event) → IsTableOf events table.now → IfOk result (λ lines.
        map line_entry lines.items ≡ map (event_entry events) (table_tags events)) }
{
    let mut lines = Vec::new(alloc);
    for number in 0..table.names.len() {
        lines.push(table_line(table, number))?;
    }
    Ok(lines)
}

fn table_line<'x, 'a>(table: &'x TagTable<'a>, number: u64) -> TagLine<'x, 'a>
    requires even { IsEven table.now }
    requires within { number < length table.now.names }
    ensures number { result.number ≡ number }
    ensures entry { (events : List Event) → IsTableOf events table.now →
        line_entry result ≡ event_entry events (get_or table.now.names number no_tag) }
{
    TagLine {
        name: table.names.name(number),
        sum: table.sums[number as usize],
        number,
    }
}

// Keys by their bytes.
fn key_order(a: &TagLine, b: &TagLine) -> Ordering
    ensures { result ≡ line_key_cmp a.now b.now }
{
    a.name.key.cmp(b.name.key)
}

// The greater absolute sum first, then by value.
fn line_order(a: &TagLine, b: &TagLine) -> Ordering
    ensures { result ≡ entry_cmp (line_entry a.now) (line_entry b.now) }
{
    let sums = b.sum.sum.unsigned_abs().cmp(&a.sum.sum.unsigned_abs());
    if sums.is_ne() {
        return sums;
    }
    tag_value_order(a.name, b.name)
}
