//! The text of a report.
ghost use Rattle.std.specs.Prelude.{◌≡◌, option_map};
ghost use Rattle.pp_desk.specs.Went.{Went};
ghost use Rattle.pp_model.specs.declared.report.Report.TheVariants.{Proto};
ghost use Rattle.pp_model.specs.Finders.{Finders};
ghost use Rattle.pp_units.specs.Head.{facts};
ghost use Rattle.pp_units.specs.Shown.{shown};
ghost use Rattle.pp_count.specs.Seeing.{HoldsFilters};
ghost use Rattle.pp_report.specs.Prepared.{showing, IsPrepared};
ghost use Rattle.pp_report.specs.Reports.{finish, finish_by, text_by, list_text, answer_of_text, answer_of_outcome};
ghost use Rattle.pp_report.specs.SavedText.{OnText, IsProtoOf, IsProtoBy};
ghost use Rattle.pp_report.specs.Tagged.{basis_of};

use crate::ReportRefusal;
use crate::base::lacks_base;
use crate::comparing::{changes, compare};
use crate::exports::{folded, table};
use crate::heads::head_of;
use crate::host::Host;
use crate::prepared::Prepared;
use crate::subject::Subject;
use crate::texts::{account, comments, peek, proto, raw, tags, top, traces};
use crate::trees::tree_report;
use pp_base::{Gate, Memory, Text};
use pp_count::Survey;
use pp_desk::{Desk, Stop};
use pp_model::{Config, Loaded, Report};
use pp_pseudo::basis;
use pp_source::{ListRefusal, write_list};
use pp_units::Unit;
use std::alloc::Global;
use std::mem;
use std::thread::Threads;

/// The text of a report that was prepared. It is `NoMatch` where the pattern of a peek or list report finds nothing,
/// and `NoBase` where a compare or changes report has no base. Only a list report reads files.
pub fn finish<R: Threads + Sync, D: Desk, G: Gate>(
    with: &Host<'_, R, G>,
    l: &Loaded,
    report: &Report,
    config: &Config,
    prepared: Prepared,
    desk: &mut D,
) -> Result<Result<Text, ReportRefusal>, Stop>
    requires { IsPrepared D.finds l.now report.now config.now prepared }
    ensures went { Went (D.world desk.old) (D.world desk.new)
        (finish D.finds l.now prepared.base report.now config.now (showing prepared.shows)) result }
    ensures saved { report.now ≡ Proto → OnText result
        (IsProtoBy D.finds (basis_of report.now l.now config.now.presentation)
        config.now.filtering) }
{
    if lacks_base(prepared.base, l, report) {
        mem::drop(prepared);
        return Ok(Err(ReportRefusal::NoBase));
    }
    let Prepared {
        shows,
        counts,
        tagged,
        ..
    } = prepared;
    let over = basis(&tagged, l);
    let Some(counts) = counts else {
        let text = answer_of_text(comments(with.alloc, over));
        mem::drop(shows);
        mem::drop(tagged);
        return text;
    };
    let survey = Survey {
        l: over,
        v: &counts.verdicts,
        config,
        column: shows.column,
        counted: &counts.counted,
    };
    let text = finish_by(with, report, &survey, shows.unit, desk);
    mem::drop(counts);
    mem::drop(tagged);
    text
}

// The text of a report whose values are printed in the unit that is asked for, if one is.
fn finish_by<R: Threads + Sync, D: Desk, G: Gate>(
    with: &Host<'_, R, G>,
    report: &Report,
    survey: &Survey<'_>,
    unit: Option<Unit>,
    desk: &mut D,
) -> Result<Result<Text, ReportRefusal>, Stop>
    ensures went { let s = survey.now in (f : Finders) →
        HoldsFilters s.l.now s.v.now s.config.now.filtering f →
        Went (D.world desk.old) (D.world desk.new)
        (finish_by s.l.now.profile f s.config.now
        (record { column = s.column; wanted = option_map shown unit }) report.now) result }
    ensures saved { let s = survey.now in (f : Finders) →
        HoldsFilters s.l.now s.v.now s.config.now.filtering f →
        report.now ≡ Proto → OnText result (IsProtoOf s.l.now.profile f s.config.now.filtering) }
{
    let head = head_of(with.alloc, survey, unit)?;
    let subject = Subject {
        survey: *survey,
        head: &head,
    };
    text_by(with, report, &subject, desk)
}

// The text of a report with this head.
#[tactic(auto, using(crate::proofs::FinishingLemmas::answering), unfolding(crate::specs::Reports::text_by))]
fn text_by<R: Threads + Sync, D: Desk, G: Gate>(
    with: &Host<'_, R, G>,
    report: &Report,
    subject: &Subject<'_, '_>,
    desk: &mut D,
) -> Result<Result<Text, ReportRefusal>, Stop>
    ensures went { let s = subject.now.survey in (f : Finders) →
        HoldsFilters s.l.now s.v.now s.config.now.filtering f →
        Went (D.world desk.old) (D.world desk.new) (text_by s.l.now.profile f s.config.now s.column
        (facts subject.now.head.now) report.now) result }
    ensures saved { let s = subject.now.survey in (f : Finders) →
        HoldsFilters s.l.now s.v.now s.config.now.filtering f →
        report.now ≡ Proto → OnText result (IsProtoOf s.l.now.profile f s.config.now.filtering) }
{
    let (alloc, survey) = (with.alloc, &subject.survey);
    match report {
        Report::Top => answer_of_text(top(alloc, subject)),
        Report::Tree => answer_of_text(tree_report(with, subject)),
        Report::Peek(_) => answer_of_outcome(peek(with, subject)),
        Report::Traces => answer_of_text(traces(with, subject)),
        Report::Tags => answer_of_text(tags(alloc, subject)),
        Report::Raw => answer_of_text(raw(with, survey)),
        Report::Comments => answer_of_text(comments(alloc, survey.l)),
        Report::Proto => answer_of_text(proto(with, survey)),
        Report::List(_) => list(alloc, subject, desk),
        Report::Folded => answer_of_text(folded(with, survey)),
        Report::Table => answer_of_text(table(alloc, survey)),
        Report::Compare => answer_of_text(compare(with, subject)),
        Report::Changes => answer_of_text(changes(with, subject)),
        Report::Account => answer_of_text(account(alloc, subject)),
    }
}

// The text of a report that is never refused.
fn answer_of_text(text: Result<Text, Memory>) -> Result<Result<Text, ReportRefusal>, Stop>
    ensures { result ≡ answer_of_text text }
{
    match text {
        Ok(text) => Ok(Ok(text)),
        Err(Memory) => Err(Stop::Memory),
    }
}

// What a report comes to that reads no file.
fn answer_of_outcome(
    outcome: Result<Result<Text, ReportRefusal>, Memory>,
) -> Result<Result<Text, ReportRefusal>, Stop>
    ensures { result ≡ answer_of_outcome outcome }
{
    match outcome {
        Ok(outcome) => Ok(outcome),
        Err(Memory) => Err(Stop::Memory),
    }
}

#[tactic(auto, using(pp_desk::proofs::Going::going), unfolding(crate::specs::Reports::list_text))]
fn list<D: Desk>(
    alloc: Global,
    subject: &Subject<'_, '_>,
    desk: &mut D,
) -> Result<Result<Text, ReportRefusal>, Stop>
    ensures { let s = subject.now.survey in (f : Finders) →
        HoldsFilters s.l.now s.v.now s.config.now.filtering f →
        Went (D.world desk.old) (D.world desk.new) (list_text s.l.now.profile f s.config.now
        s.column (facts subject.now.head.now)) result }
{
    let mut text = Text::new(alloc);
    match write_list(alloc, &subject.survey, subject.head, desk, &mut text)? {
        Ok(()) => Ok(Ok(text)),
        Err(ListRefusal::NoMatch) => Ok(Err(ReportRefusal::NoMatch)),
    }
}
