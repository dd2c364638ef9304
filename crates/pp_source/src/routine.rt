//! The text of a routine.
ghost use Rattle.std.specs.Prelude.{◌≡◌, ◌++◌, ◌<◌, ◌^◌, [], codes, List as Seq, All, IfOk};
ghost use Rattle.std.specs.List.{cons_option};
ghost use Rattle.pp_model.specs.FrameTexts.{Written};
ghost use Rattle.pp_units.specs.Head.{facts};
ghost use Rattle.pp_units.specs.Shown.{shown};
ghost use Rattle.pp_count.specs.Sums.{Seen};
ghost use Rattle.pp_source.specs.Amounts.{routine_amounts};
ghost use Rattle.pp_source.specs.Ledgers.{IsLineIn, ListsOf, line_texts, lines_texts};
ghost use Rattle.pp_source.specs.Files.{source_in};
ghost use Rattle.pp_source.specs.SourceText.{both_text, error_line, file_of, number_above, numbers_of, part_text, routine_line, routine_text, routines_text, routine_source, title_line};

use crate::amounts::Amounts;
use crate::files::Sources;
use crate::found::{KeyPart, part_key};
use crate::lines::FoundLine;
use crate::rows::{Listing, write_rows};
use crate::runs::cut_routine;
use crate::source::FileSource;
use crate::split::SplitSource;
use crate::tallies::amounts_at;
use pp_base::{Memory, Text};
use pp_units::{Head, Small, write_percent};
use std::alloc::Global;

/// Appends the text of all routines, of which these are the lines with frames.
pub fn write_routines(
    alloc: Global,
    listing: &Listing<'_>,
    sources: &Sources<'_, '_>,
    lines: &[FoundLine<'_>],
    out: &mut Text,
) -> Result<(), Memory>
    requires { All (IsLineIn listing.now) lines.now }
    ensures { (samples : Seq (Seen Written)) →
        ListsOf listing.now samples → IfOk result (λ _.
        out.new ≡ out.old ++ routines_text samples (facts listing.now.head.now)
        (source_in sources.now) (lines_texts lines.now)) }
{
    let mut start = 0;
    while start < lines.len() {
        let (routine, _) = cut_routine(lines.split_at(start).1);
        write_found(alloc, listing, sources, routine, out)?;
        start += routine.len();
    }
    Ok(())
}

// Appends the text of the routine of these lines, with the source of its file.
fn write_found(
    alloc: Global,
    listing: &Listing<'_>,
    sources: &Sources<'_, '_>,
    lines: &[FoundLine<'_>],
    out: &mut Text,
) -> Result<(), Memory>
    requires { All (IsLineIn listing.now) lines.now }
    ensures { (samples : Seq (Seen Written)) →
        ListsOf listing.now samples → IfOk result (λ _.
        out.new ≡ out.old ++ routine_text samples (facts listing.now.head.now)
        (source_in sources.now (file_of (lines_texts lines.now))) (lines_texts lines.now)) }
{
    let missing = FileSource::NotFound;
    let none = SplitSource {
        source: &missing,
        lines: Vec::new(alloc),
    };
    let file = sources.find(path_of(lines)).unwrap_or(&none);
    write_routine(alloc, listing, file, lines, out)
}

// The path of the file of these lines.
fn path_of<'a>(lines: &[FoundLine<'a>]) -> &'a [u8]
    ensures { result.now ≡ file_of (lines_texts lines.now) }
{
    match lines {
        [] => &[],
        [line, ..] => line.texts.file,
    }
}

// Appends the text of the routine of these lines.
fn write_routine(
    alloc: Global,
    listing: &Listing<'_>,
    file: &SplitSource<'_>,
    lines: &[FoundLine<'_>],
    out: &mut Text,
) -> Result<(), Memory>
    requires { All (IsLineIn listing.now) lines.now }
    ensures { (samples : Seq (Seen Written)) →
        ListsOf listing.now samples → IfOk result (λ _.
        out.new ≡ out.old
        ++ routine_text samples (facts listing.now.head.now) file.now.source.now
        (lines_texts lines.now)) }
{
    let [line, ..] = lines else {
        return Ok(());
    };
    write_title(line, out)?;
    write_sums(alloc, listing, line, out)?;
    write_source(alloc, listing, file, line, lines, out)
}

// `"ROUTINE ======================== %s in %s\n"`
fn write_title(line: &FoundLine<'_>, out: &mut Text) -> Result<(), Memory>
    ensures { IfOk result (λ _. out.new ≡ out.old ++ title_line (line_texts line.now)) }
{
    out.extend(b"ROUTINE ======================== ")?;
    out.extend(line.texts.function)?;
    out.extend(b" in ")?;
    out.extend(line.texts.file)?;
    out.extend(b"\n")
}

// Appends what the samples come to in the routine.
fn write_sums(
    alloc: Global,
    listing: &Listing<'_>,
    line: &FoundLine<'_>,
    out: &mut Text,
) -> Result<(), Memory>
    requires { IsLineIn listing.now line.now }
    ensures { (samples : Seq (Seen Written)) →
        ListsOf listing.now samples → IfOk result (λ _.
        out.new ≡ out.old ++ routine_line (facts listing.now.head.now)
        (routine_amounts samples (line_texts line.now))) }
{
    let _valid = listing.survey.l.profile.get();
    let key = part_key(KeyPart::Routine, &line.key);
    let sums = amounts_at(&listing.ledger.routines, &key);
    put_routine(alloc, listing.head, sums, out)
}

// `"%10s %10s (flat, cum) %s of Total\n"`
fn put_routine(alloc: Global, head: &Head, sums: Amounts, out: &mut Text) -> Result<(), Memory>
    ensures { IfOk result (λ _. out.new ≡ out.old ++ routine_line (facts head.now) sums) }
{
    put_both(alloc, head, sums, out)?;
    put_part(sums.cum, head.total, out)
}

fn put_both(alloc: Global, head: &Head, sums: Amounts, out: &mut Text) -> Result<(), Memory>
    ensures { IfOk result (λ _. out.new ≡ out.old ++ both_text (shown head.now.unit) sums) }
{
    let mut scratch = Text::new(alloc);
    head.put_value(sums.flat, &mut scratch, out)?;
    out.extend(b" ")?;
    head.put_value(sums.cum, &mut scratch, out)
}

// The part of the total.
fn put_part(sum: i64, total: u64, out: &mut Text) -> Result<(), Memory>
    ensures { IfOk result (λ _. out.new ≡ out.old ++ part_text sum total) }
{
    let mut percent = Small::new();
    write_percent(sum, total, &mut percent);
    put_framed(b" (flat, cum) ", percent.bytes(), b" of Total\n", out)
}

// A text between two others.
fn put_framed(front: &[u8], text: &[u8], back: &[u8], out: &mut Text) -> Result<(), Memory>
    ensures { IfOk result (λ _. out.new ≡ out.old ++ (front.now ++ text.now ++ back.now)) }
{
    out.extend(front)?;
    out.extend(text)?;
    out.extend(back)
}

// Appends the source of the lines, or why there is none.
fn write_source(
    alloc: Global,
    listing: &Listing<'_>,
    file: &SplitSource<'_>,
    line: &FoundLine<'_>,
    lines: &[FoundLine<'_>],
    out: &mut Text,
) -> Result<(), Memory>
    requires line { IsLineIn listing.now line.now }
    requires lines { All (IsLineIn listing.now) lines.now }
    ensures { (samples : Seq (Seen Written)) →
        ListsOf listing.now samples → IfOk result (λ _.
        out.new ≡ out.old ++ routine_source samples (facts listing.now.head.now)
        file.now.source.now (line_texts line.now) (lines_texts lines.now)) }
{
    let path = line.texts.file;
    match file.source {
        FileSource::NoName => write_error(b"no file name", b"\n", out),
        FileSource::NotFound => write_error(path, b": no such file\n", out),
        FileSource::TooLong => write_error(path, b": longer than 134217728 bytes\n", out),
        FileSource::Whole(_) => {
            let numbers = numbers_of(alloc, lines)?;
            write_rows(alloc, listing, line, &file.lines, &numbers, out)
        }
    }
}

// `" Error: %s%s"`
fn write_error(file: &[u8], reason: &[u8], out: &mut Text) -> Result<(), Memory>
    ensures { IfOk result (λ _. out.new ≡ out.old ++ error_line file.now reason.now) }
{
    put_framed(b" Error: ", file, reason, out)
}

// The numbers above 0 of the lines, in their order.
fn numbers_of(alloc: Global, lines: &[FoundLine<'_>]) -> Result<Vec<u64>, Memory>
    ensures numbers { IfOk result (λ numbers. numbers.items ≡ numbers_of (lines_texts lines.now)) }
    ensures small { IfOk result (λ numbers. All (λ n. n < 2 ^ 63) numbers.items) }
{
    let mut numbers = Vec::new(alloc);
    for line in lines {
        push_number(&mut numbers, line)?;
    }
    Ok(numbers)
}

// Adds the number of the line, where it is above 0.
fn push_number(numbers: &mut Vec<u64>, line: &FoundLine<'_>) -> Result<(), Memory>
    requires { All (λ n. n < 2 ^ 63) numbers.old.items }
    ensures numbers { IfOk result (λ _. numbers.new.items
        ≡ numbers.old.items ++ cons_option (number_above line.now.texts.line) []) }
    ensures small { IfOk result (λ _. All (λ n. n < 2 ^ 63) numbers.new.items) }
{
    if line.texts.line > 0 {
        numbers.push(line.texts.line as u64)?;
    }
    Ok(())
}
