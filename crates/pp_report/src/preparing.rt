//! What is settled before the text of a report is made.
ghost use Rattle.std.specs.Prelude.{◌≡◌, IfOk};
ghost use Rattle.pp_desk.specs.Went.{Went};
ghost use Rattle.pp_model.specs.Conditions.{IsColumnOf};
ghost use Rattle.pp_model.specs.Sizes.{IsCountable};
ghost use Rattle.pp_report.specs.Notes.{notes_by};
ghost use Rattle.pp_report.specs.Prepared.{prepare, prepare_counts, showing, answered, counts_settled, IsPrepared, AreCountsNoted};

use crate::ReportRefusal;
use crate::asking::ask_patterns;
use crate::host::Host;
use crate::notes::notes_by;
use crate::prepared::{Counts, Prepared};
use crate::shows::{Shows, shows_for};
use pp_base::{Gate, Memory, Text};
use pp_count::count;
use pp_desk::{Desk, Stop};
use pp_model::{BaseKind, Config, Filtering, Loaded, Report};
use pp_pseudo::{basis, framed_for};
use std::alloc::Global;
use std::mem;
use std::thread::Threads;

/// What is done before the text of a report is made: its column and unit are looked up, frames are made from labels,
/// its patterns asked, its samples counted and its notes taken down. A report that is refused for its column or its
/// unit gets no frames, and no pattern is asked of it. `base` is the kind of the base that was given, if one was.
///
/// For callers that hand on the notes before the text is made, since a list report reads files for it: `prepare`, the
/// notes, and `finish` come to what `generate` does.
pub fn prepare<R: Threads + Sync, D: Desk, G: Gate>(
    with: &Host<'_, R, G>,
    l: &Loaded,
    base: Option<BaseKind>,
    report: &Report,
    config: &Config,
    desk: &mut D,
) -> Result<Result<Prepared, ReportRefusal>, Stop>
    requires { IsCountable l.now.profile }
    ensures went { Went (D.world desk.old) (D.world desk.new)
        (prepare D.finds l.now report.now config.now) (answered result) }
    ensures prepared { IfOk result
        (λ answer. IfOk answer (IsPrepared D.finds l.now report.now config.now)) }
    ensures base { IfOk result (λ answer. IfOk answer (λ prepared. prepared.base ≡ base)) }
{
    let shows = match shows_for(with.alloc, l, report, &config.presentation)? {
        Ok(shows) => shows,
        Err(refusal) => return Ok(Err(refusal)),
    };
    if !report.is_counted() {
        return Ok(Ok(Prepared {
            base,
            notes: Text::new(with.alloc),
            shows,
            counts: None,
            tagged: None,
        }));
    }
    let tagged = match framed_for(with.alloc, with.keys, l, &config.presentation) {
        Ok(tagged) => tagged,
        Err(Memory) => {
            mem::drop(shows);
            return Err(Stop::Memory);
        }
    };
    match counts_for(with, basis(&tagged, l), report, config, &shows, desk) {
        Ok(Ok((counts, notes))) => Ok(Ok(Prepared {
            base,
            notes,
            shows,
            counts: Some(counts),
            tagged,
        })),
        Ok(Err(refusal)) => {
            mem::drop(shows);
            mem::drop(tagged);
            Ok(Err(refusal))
        }
        Err(stop) => {
            mem::drop(shows);
            mem::drop(tagged);
            Err(stop)
        }
    }
}

// Asks for the patterns, and counts the samples by what they find. Beside the counts stand the notes.
fn counts_for<R: Threads + Sync, D: Desk, G: Gate>(
    with: &Host<'_, R, G>,
    l: &Loaded,
    report: &Report,
    config: &Config,
    shows: &Shows,
    desk: &mut D,
) -> Result<Result<(Counts, Text), ReportRefusal>, Stop>
    requires countable { IsCountable l.now.profile }
    requires column { IsColumnOf l.now.profile shows.now.column }
    ensures went { Went (D.world desk.old) (D.world desk.new)
        (prepare_counts D.finds l.now report.now config.now.filtering (showing shows.now))
        (counts_settled (showing shows.now) result) }
    ensures counted { IfOk result (λ answer. IfOk answer
        (AreCountsNoted D.finds l.now report.now config.now shows.now.column)) }
{
    // A profile's texts are distinct, so that verdicts on them tell what is found.
    let _profile = l.profile.get();
    let verdicts = match ask_patterns(with.alloc, l, report, &config.filtering, desk)? {
        Ok(verdicts) => verdicts,
        Err(refusal) => return Ok(Err(refusal)),
    };
    let (column, keys) = (shows.column, with.keys);
    match count(
        with.rt, with.alloc, keys, l, &verdicts, config, column, with.gate,
    ) {
        Ok(counted) => Ok(Ok(noted(with.alloc, &config.filtering, Counts { verdicts, counted })?)),
        Err(Memory) => {
            mem::drop(verdicts);
            Err(Stop::Memory)
        }
    }
}

// What was counted, and its notes.
fn noted(alloc: Global, filtering: &Filtering, counts: Counts) -> Result<(Counts, Text), Memory>
    ensures { IfOk result
        (λ made. made ≡ (counts, notes_by filtering.now counts.counted.matched.slots)) }
{
    match notes_by(alloc, filtering, counts.counted.matched.slots.as_slice()) {
        Ok(notes) => Ok((counts, notes)),
        Err(Memory) => {
            mem::drop(counts);
            Err(Memory)
        }
    }
}
