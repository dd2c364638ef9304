//! The list report.
ghost use Rattle.std.specs.Prelude.{◌≡◌, ◌++◌, List as Seq, map, All, IfOk, OnErr};
ghost use Rattle.pp_desk.specs.Went.{Went, beside};
ghost use Rattle.pp_model.specs.Finders.{Finders};
ghost use Rattle.pp_model.specs.FrameTexts.{Written};
ghost use Rattle.pp_units.specs.Head.{facts};
ghost use Rattle.pp_count.specs.Counted.{report_frames};
ghost use Rattle.pp_count.specs.Sums.{Seen};
ghost use Rattle.pp_count.specs.Seeing.{HoldsFilters};
ghost use Rattle.pp_source.specs.Files.{source_at, source_in};
ghost use Rattle.pp_source.specs.Ledgers.{AreFound, IsLineIn, ListsOf, lines_texts};
ghost use Rattle.pp_source.specs.Listing.{added_report, list_lines, list_report};
ghost use Rattle.pp_source.specs.SourceText.{lines_text, total_line};

use crate::files::{Sources, files_of, read_sources};
use crate::ledger::ledger_of;
use crate::lines::{FoundLine, found_lines};
use crate::refusal::ListRefusal;
use crate::routine::write_routines;
use crate::rows::Listing;
use crate::source::FileSource;
use crate::split::split_sources;
use indexmap::IndexSet;
use pp_base::{Memory, Text};
use pp_count::Survey;
use pp_desk::{Desk, Stop};
use pp_keys::HashKeys;
use pp_units::{Head, put_size};
use std::alloc::Global;
use std::mem;

/// Appends the list report: for each function and file that the report's own pattern finds, its sums and the lines of
/// its source about those with frames. Each file is read once, before its first line is written. `c` is what `count`
/// gives.
///
/// `NoMatch` says that the pattern finds no function; then nothing is read. After it and after a `Stop` `out` is as it
/// was.
#[tactic(auto, using(pp_desk::proofs::Going::going))]
pub fn write_list<D: Desk>(
    alloc: Global,
    survey: &Survey<'_>,
    head: &Head,
    desk: &mut D,
    out: &mut Text,
) -> Result<Result<(), ListRefusal>, Stop>
    ensures went { (f : Finders) →
        HoldsFilters survey.now.l.now survey.now.v.now survey.now.config.now.filtering f →
        Went (D.world desk.old) (D.world desk.new)
        (added_report out.old (list_report survey.now.l.now.profile f survey.now.config.now
        survey.now.column (facts head.now)))
        (beside out.new result) }
    ensures stopped { OnErr result (out.new ≡ out.old) }
{
    let Some(text) = list_report(alloc, survey, head, desk)? else {
        return Ok(Err(ListRefusal::NoMatch));
    };
    out.append(text)?;
    Ok(Ok(()))
}

// The whole report, and `None` where the own pattern finds no function.
#[tactic(auto, using(pp_desk::proofs::Going::going))]
fn list_report<D: Desk>(
    alloc: Global,
    survey: &Survey<'_>,
    head: &Head,
    desk: &mut D,
) -> Result<Option<Text>, Stop>
    ensures { (f : Finders) →
        HoldsFilters survey.now.l.now survey.now.v.now survey.now.config.now.filtering f →
        Went (D.world desk.old) (D.world desk.new)
        (list_report survey.now.l.now.profile f survey.now.config.now survey.now.column
        (facts head.now)) result }
{
    let ledger = ledger_of(alloc, survey)?;
    let listing = Listing {
        survey,
        head,
        ledger: &ledger,
    };
    let text = list_ledger(alloc, &listing, desk);
    mem::drop(ledger);
    text
}

// The report by this ledger, and `None` where the own pattern finds no function.
#[tactic(auto, using(pp_desk::proofs::Going::going))]
fn list_ledger<D: Desk>(
    alloc: Global,
    listing: &Listing<'_>,
    desk: &mut D,
) -> Result<Option<Text>, Stop>
    requires { AreFound listing.now.survey.now.l.now.profile listing.now.survey.now.v.now.own
        listing.now.ledger.now.lines.names.keys }
    ensures { (f : Finders) →
        HoldsFilters listing.now.survey.now.l.now listing.now.survey.now.v.now
        listing.now.survey.now.config.now.filtering f →
        ListsOf listing.now (report_frames listing.now.survey.now.l.now.profile f
        listing.now.survey.now.config.now listing.now.survey.now.column) →
        Went (D.world desk.old) (D.world desk.new)
        (list_report listing.now.survey.now.l.now.profile f listing.now.survey.now.config.now
        listing.now.survey.now.column (facts listing.now.head.now)) result }
{
    let lines = found_lines(alloc, listing.survey, listing.ledger)?;
    if lines.is_empty() {
        return Ok(None);
    }
    let text = list_lines(alloc, listing, &lines, desk)?;
    Ok(Some(text))
}

// The report of these lines.
#[tactic(auto, using(pp_desk::proofs::Going::going))]
fn list_lines<D: Desk>(
    alloc: Global,
    listing: &Listing<'_>,
    lines: &[FoundLine<'_>],
    desk: &mut D,
) -> Result<Text, Stop>
    requires { All (IsLineIn listing.now) lines.now }
    ensures { (samples : Seq (Seen Written)) →
        ListsOf listing.now samples →
        Went (D.world desk.old) (D.world desk.new)
        (list_lines listing.now.survey.now.config.now.environment
        samples (facts listing.now.head.now) (lines_texts lines.now)) result }
{
    let files = files_of(alloc, listing.survey.hash_keys(), lines)?;
    match read_sources(
        alloc,
        &listing.survey.config.environment,
        files.as_slice(),
        desk,
    ) {
        Ok(sources) => {
            let text = text_of_files(alloc, listing, files, sources.as_slice(), lines);
            mem::drop(sources);
            Ok(text?)
        }
        Err(stop) => {
            mem::drop(files);
            Err(stop)
        }
    }
}

// The text of the report of these lines, whose files have these sources.
fn text_of_files<'a>(
    alloc: Global,
    listing: &Listing<'_>,
    files: IndexSet<&'a [u8], HashKeys>,
    sources: &[FileSource],
    lines: &[FoundLine<'a>],
) -> Result<Text, Memory>
    requires { All (IsLineIn listing.now) lines.now }
    ensures { (samples : Seq (Seen Written)) →
        ListsOf listing.now samples → IfOk result (λ text.
        text ≡ lines_text samples (facts listing.now.head.now)
        (source_at (map (λ f. f.now) files.entry.keys) sources.now) (lines_texts lines.now)) }
{
    match split_sources(alloc, sources) {
        Ok(split) => {
            let read = Sources {
                files,
                sources: split,
            };
            let text = lines_text(alloc, listing, &read, lines);
            mem::drop(read);
            text
        }
        Err(Memory) => {
            mem::drop(files);
            Err(Memory)
        }
    }
}

// The text of the report of these lines.
fn lines_text(
    alloc: Global,
    listing: &Listing<'_>,
    sources: &Sources<'_, '_>,
    lines: &[FoundLine<'_>],
) -> Result<Text, Memory>
    requires { All (IsLineIn listing.now) lines.now }
    ensures { (samples : Seq (Seen Written)) →
        ListsOf listing.now samples → IfOk result (λ text.
        text ≡ lines_text samples (facts listing.now.head.now) (source_in sources.now)
        (lines_texts lines.now)) }
{
    let mut text = Text::new(alloc);
    write_total(listing.head, &mut text)?;
    write_routines(alloc, listing, sources, lines, &mut text)?;
    Ok(text)
}

// `"Total: %s\n"`
fn write_total(head: &Head, out: &mut Text) -> Result<(), Memory>
    ensures { IfOk result (λ _. out.new ≡ out.old ++ total_line (facts head.now)) }
{
    out.extend(b"Total: ")?;
    put_size(head.total, &head.unit, out)?;
    out.extend(b"\n")
}
