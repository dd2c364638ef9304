//! The patterns of a report.
ghost use Rattle.std.specs.Prelude.{◌≡◌, IfOk};
ghost use Rattle.pp_desk.specs.Went.{Went};
ghost use Rattle.pp_model.specs.ReportFacts.{own_pattern};
ghost use Rattle.pp_pattern.specs.Report.{AreVerdictsOf};
ghost use Rattle.pp_report.specs.Patterns.{ask_patterns};

use crate::ReportRefusal;
use pp_desk::{Desk, Stop};
use pp_model::{Filtering, Loaded, Report, Verdicts};
use pp_pattern::judge;
use std::alloc::Global;

/// Asks for the patterns of a report that aren't empty, up to the first that is refused.
#[tactic(auto, using(pp_desk::proofs::Going::going), unfolding(crate::specs::Patterns::ask_patterns))]
pub fn ask_patterns<D: Desk>(
    alloc: Global,
    l: &Loaded,
    report: &Report,
    filtering: &Filtering,
    desk: &mut D,
) -> Result<Result<Verdicts, ReportRefusal>, Stop>
    ensures went { Went (D.world desk.old) (D.world desk.new)
        (ask_patterns D.finds l.now report.now filtering.now) result }
    ensures are { IfOk result (λ answer. IfOk answer
        (AreVerdictsOf D.finds filtering.now (own_pattern report.now) l.now)) }
{
    match judge(alloc, desk, filtering, report.own_pattern(), l)? {
        Ok(verdicts) => Ok(Ok(verdicts)),
        Err(refused) => Ok(Err(ReportRefusal::PatternRefused {
            option: refused.option,
        })),
    }
}
