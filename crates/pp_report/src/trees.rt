//! The two forms of the tree report.
ghost use Rattle.std.specs.Prelude.{◌≡◌, IfOk};
ghost use Rattle.pp_model.specs.Finders.{Finders};
ghost use Rattle.pp_units.specs.Head.{facts};
ghost use Rattle.pp_count.specs.Seeing.{HoldsFilters};
ghost use Rattle.pp_calltree.specs.Text.{calltree_text};
ghost use Rattle.pp_report.specs.Reports.{tree_report_text};

use crate::host::Host;
use crate::subject::Subject;
use crate::texts::tree;
use pp_base::{Gate, Memory, Text};
use pp_calltree::write_calltree;
use std::thread::Threads;

/// The tree report: by paths from the root where the configuration asks for these, else each key with its callers and
/// callees.
pub fn tree_report<R: Threads + Sync, G: Gate>(
    with: &Host<'_, R, G>,
    subject: &Subject<'_, '_>,
) -> Result<Text, Memory>
    ensures { let s = subject.now.survey in (f : Finders) →
        HoldsFilters s.l.now s.v.now s.config.now.filtering f →
        IfOk result (λ text. text ≡ tree_report_text s.l.now.profile f s.config.now s.column
        (facts subject.now.head.now)) }
{
    if subject.survey.config.presentation.path_tree {
        call_tree(with, subject)
    } else {
        tree(with, subject)
    }
}

// The nodes by their paths from the root.
fn call_tree<R: Threads + Sync, G: Gate>(
    with: &Host<'_, R, G>,
    subject: &Subject<'_, '_>,
) -> Result<Text, Memory>
    ensures { let s = subject.now.survey in (f : Finders) →
        HoldsFilters s.l.now s.v.now s.config.now.filtering f →
        IfOk result (λ text. text ≡ calltree_text s.l.now.profile f s.config.now s.column
        (facts subject.now.head.now)) }
{
    let (alloc, s) = (with.alloc, &subject.survey);
    let mut text = Text::new(alloc);
    write_calltree(with.rt, alloc, s, subject.head, with.gate, &mut text)?;
    Ok(text)
}
