//! Whether a report has the base that it compares with.
ghost use Rattle.std.specs.Prelude.{◌≡◌};
ghost use Rattle.pp_report.specs.Base.{compares, is_compared, lacks_base};

use pp_count::has_base;
use pp_model::{BaseKind, Loaded, Report};

/// Whether the report compares with a base, and there is none: none was given to compare with, and no sample of the
/// profile carries a base's label.
pub fn lacks_base(base: Option<BaseKind>, l: &Loaded, report: &Report) -> bool
    ensures { result ≡ lacks_base base l.now.profile report.now }
{
    compares(report) && !is_compared(base) && !has_base(l)
}

// Whether a base of this kind was given to compare with. One that is only taken off isn't.
fn is_compared(base: Option<BaseKind>) -> bool
    ensures { result ≡ is_compared base }
{
    match base {
        Some(BaseKind::DiffBase) => true,
        Some(BaseKind::Base) | None => false,
    }
}

fn compares(report: &Report) -> bool
    ensures { result ≡ compares report.now }
{
    match report {
        Report::Compare | Report::Changes => true,
        Report::Top
        | Report::Tree
        | Report::Peek(_)
        | Report::Traces
        | Report::Tags
        | Report::Raw
        | Report::Comments
        | Report::Proto
        | Report::List(_)
        | Report::Folded
        | Report::Table
        | Report::Account => false,
    }
}
