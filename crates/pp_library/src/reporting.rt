//! The text of a report.
ghost use Rattle.std.specs.Prelude.{◌≡◌, false};
ghost use Rattle.pp_desk.specs.Words.{Asked, value_of};
ghost use Rattle.pp_library.specs.Reports.{reads_sources, report_text, report_outcome};

use crate::countable::Countable;
use crate::report_error::ReportError;
use pp_base::{Matcher, OpenGate, Text};
use pp_desk::{MatcherDesk, Stop};
use pp_model::{Config, Report};
use pp_report::{ReportRefusal, generate};
use std::alloc::Global;
use std::thread::Threads;

/// Whether the report reads source files, as list alone does.
pub fn reads_sources(report: &Report) -> bool
    ensures { result ≡ reads_sources report.now }
{
    match report {
        Report::List(_) => true,
        Report::Top | Report::Tree | Report::Peek(_) | Report::Traces | Report::Tags => false,
        Report::Raw | Report::Comments | Report::Proto | Report::Folded | Report::Table => false,
        Report::Compare | Report::Changes | Report::Account => false,
    }
}

/// The text of a report, as the command prints it to standard output; that of a proto report is bytes to be saved. The
/// report's patterns are asked of the matcher, and its samples are counted with the configuration's number of workers.
/// A report that reads source files is made by `pp_report::generate`, which has a desk for them.
pub fn report<R: Threads + Sync, M: Matcher>(
    rt: &R,
    alloc: Global,
    l: &Countable,
    report: &Report,
    config: &Config,
    matcher: &mut M,
) -> Result<Text, ReportError>
    requires { reads_sources report.now ≡ false }
    ensures { Asked (M.answers matcher.old) (M.answers matcher.new)
        (report_text M.finds l.now.loaded l.now.base report.now config.now) (report_outcome result) }
{
    let mut desk = MatcherDesk {
        matcher: &mut *matcher,
    };
    report_at(rt, alloc, l, report, config, &mut desk)
}

// The report at the desk of the matcher, without its notes.
fn report_at<R: Threads + Sync, M: Matcher>(
    rt: &R,
    alloc: Global,
    l: &Countable,
    report: &Report,
    config: &Config,
    desk: &mut MatcherDesk<'_, M>,
) -> Result<Text, ReportError>
    ensures went { Asked (M.answers desk.old.matcher.now) (M.answers desk.new.matcher.now)
        (report_text M.finds l.now.loaded l.now.base report.now config.now) (report_outcome result) }
    ensures same { desk.new.matcher.ghost_name ≡ desk.old.matcher.ghost_name }
{
    let mut notes = Text::new(alloc);
    let made = generate(
        rt, alloc, &l.loaded, l.base, report, config, desk, &OpenGate, &mut notes,
    );
    answer_of(made)
}

// The text, or why there is none.
fn answer_of(made: Result<Result<Text, ReportRefusal>, Stop>) -> Result<Text, ReportError>
    ensures { report_outcome result ≡ value_of made }
{
    match made {
        Ok(Ok(text)) => Ok(text),
        Ok(Err(refusal)) => Err(ReportError::from(refusal)),
        // Nothing but memory can be wanting where only patterns are asked.
        Err(_) => Err(ReportError::Memory),
    }
}
