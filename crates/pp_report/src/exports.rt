//! The texts of the reports for other programs.
ghost use Rattle.std.specs.Prelude.{◌≡◌, IfOk};
ghost use Rattle.pp_model.specs.Finders.{Finders};
ghost use Rattle.pp_count.specs.Seeing.{HoldsFilters};
ghost use Rattle.pp_graph.specs.Trim.{node_limit};
ghost use Rattle.pp_export.specs.Folded.{folded_text};
ghost use Rattle.pp_export.specs.Table.{exact_table};
ghost use Rattle.pp_report.specs.Heads.{unit_text};

use crate::host::Host;
use crate::shows::unit_text;
use crate::texts::limit_of;
use pp_base::{Gate, Memory, Text};
use pp_calltree::ReportPaths;
use pp_count::Survey;
use pp_export::{write_folded, write_table};
use pp_graph::rank_all;
use std::alloc::Global;
use std::thread::Threads;

/// The folded report: a line for each path from the root.
pub fn folded<R: Threads + Sync, G: Gate>(
    with: &Host<'_, R, G>,
    survey: &Survey<'_>,
) -> Result<Text, Memory>
    ensures { let s = survey.now in (f : Finders) →
        HoldsFilters s.l.now s.v.now s.config.now.filtering f →
        IfOk result (λ text. text ≡ folded_text s.l.now.profile f s.config.now s.column) }
{
    let alloc = with.alloc;
    let paths = ReportPaths::gather(with.rt, alloc, survey, with.gate)?;
    let sums = paths.sums(alloc)?;
    let mut text = Text::new(alloc);
    write_folded(alloc, survey.l, &sums, &mut text)?;
    Ok(text)
}

/// The table report, whose keys have no limit of their own.
pub fn table(alloc: Global, survey: &Survey<'_>) -> Result<Text, Memory>
    ensures { let s = survey.now in (f : Finders) →
        HoldsFilters s.l.now s.v.now s.config.now.filtering f →
        IfOk result (λ text. text ≡ exact_table s.l.now.profile f s.config.now s.column
        (node_limit s.config.now.presentation.nodecount 0) (unit_text s.l.now.profile s.column)) }
{
    let (l, counted) = (survey.l, survey.counted);
    let limit = limit_of(&survey.config.presentation, 0);
    let ranked = rank_all(alloc, l, counted, survey.config, limit)?;
    let unit = unit_text(l.profile.get(), survey.column);
    let mut text = Text::new(alloc);
    write_table(alloc, l, counted, &ranked, unit, &mut text)?;
    Ok(text)
}
