//! Reports.
ghost use Rattle.std.specs.Prelude.{◌≡◌, ◌++◌, OnErr};
ghost use Rattle.pp_base.specs.Front.{IsFront};
ghost use Rattle.pp_desk.specs.Went.{Went};
ghost use Rattle.pp_model.specs.declared.report.Report.TheVariants.{Proto};
ghost use Rattle.pp_model.specs.Sizes.{IsCountable};
ghost use Rattle.pp_report.specs.Prepared.{notes_of};
ghost use Rattle.pp_report.specs.Tagged.{basis_of};
ghost use Rattle.pp_report.specs.Reports.{report_script, reported, appended_text};
ghost use Rattle.pp_report.specs.SavedText.{OnText, IsProtoBy};

use crate::ReportRefusal;
use crate::finishing::finish;
use crate::host::Host;
use crate::preparing::prepare;
use pp_base::{Gate, Memory, Text};
use pp_desk::{Desk, Stop};
use pp_keys::HashKeys;
use pp_model::{BaseKind, Config, Loaded, Report};
use std::alloc::Global;
use std::mem;
use std::thread::Threads;

/// Makes a report: its text, or why there is none. Its notes are appended to `notes`, also where the answer is
/// `NoMatch` or `NoBase`.
///
/// Where `tagroot` or `tagleaf` names a key, each report but comments is made of the profile with the frames from
/// labels.
///
/// It is refused for its column, then for its unit, both before any pattern is asked, then for the first pattern that
/// the matcher refuses. Last, a peek or list report is refused where its pattern finds no function that could be shown.
/// So is a compare or changes report that has no base. It has one where a base was given to compare with, of which
/// `base` is the kind, also where none of its samples is left. It has one too where a sample carries `pprof::base` of
/// the text `true`, as in a difference that was saved. `Err` is the failure of a file that a list report reads, or want
/// of memory; a front of the notes is appended then.
///
/// The text of a proto report is read as the profile that was saved. That profile keeps the table rules, stays as it is
/// when it is merged alone, and has no patterns of its own. `pp_saved::saved_bytes` says what follows for its reports.
pub fn generate<'x, R: Threads + Sync, D: Desk, G: Gate>(
    rt: &'x R,
    alloc: Global,
    l: &Loaded,
    base: Option<BaseKind>,
    report: &Report,
    config: &Config,
    desk: &mut D,
    gate: &'x G,
    notes: &mut Text,
) -> Result<Result<Text, ReportRefusal>, Stop>
    requires { IsCountable l.now.profile }
    ensures went { Went (D.world desk.old) (D.world desk.new)
        (report_script D.finds l.now base report.now config.now)
        (reported (appended_text notes.old notes.new) result) }
    ensures notes { notes.new ≡ notes.old ++ appended_text notes.old notes.new }
    ensures stopped { OnErr result (IsFront (appended_text notes.old notes.new)
        (notes_of D.finds (basis_of report.now l.now config.now.presentation) report.now
        config.now.filtering)) }

    // What is saved is read again.
    ensures saved { report.now ≡ Proto → OnText result
        (IsProtoBy D.finds (basis_of report.now l.now config.now.presentation)
        config.now.filtering) }
{
    let with = Host {
        rt,
        alloc,
        keys: HashKeys::fixed(),
        gate,
    };
    match prepare(&with, l, base, report, config, desk)? {
        Err(refusal) => Ok(Err(refusal)),
        Ok(prepared) => match notes.extend(prepared.notes.as_slice()) {
            Ok(()) => finish(&with, l, report, config, prepared, desk),
            Err(Memory) => {
                mem::drop(prepared);
                Err(Stop::Memory)
            }
        },
    }
}
