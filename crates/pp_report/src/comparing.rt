//! The texts of the reports that compare a source with a base.
ghost use Rattle.std.specs.Prelude.{◌≡◌, IfOk};
ghost use Rattle.pp_model.specs.Finders.{Finders};
ghost use Rattle.pp_units.specs.Head.{facts};
ghost use Rattle.pp_count.specs.Seeing.{HoldsFilters};
ghost use Rattle.pp_graph.specs.Trim.{node_limit};
ghost use Rattle.pp_top.specs.Changes.{changes_text};
ghost use Rattle.pp_top.specs.Compare.{compare_text};
ghost use Rattle.pp_report.specs.Heads.{unit_text};

use crate::host::Host;
use crate::shows::unit_text;
use crate::subject::Subject;
use crate::texts::limit_of;
use pp_base::{Gate, Memory, Text};
use pp_count::base_sums;
use pp_graph::{rank, rank_all};
use pp_top::{write_changes, write_compare};
use std::thread::Threads;

/// The compare report, whose keys have no limit of their own.
pub fn compare<R: Threads + Sync, G: Gate>(
    with: &Host<'_, R, G>,
    subject: &Subject<'_, '_>,
) -> Result<Text, Memory>
    ensures { let s = subject.now.survey in (f : Finders) →
        HoldsFilters s.l.now s.v.now s.config.now.filtering f →
        IfOk result (λ text. text ≡ compare_text s.l.now.profile f s.config.now s.column
        (node_limit s.config.now.presentation.nodecount 0) (facts subject.now.head.now)) }
{
    let survey = &subject.survey;
    let (alloc, config) = (with.alloc, survey.config);
    let limit = limit_of(&config.presentation, 0);
    let ranked = rank(alloc, survey.l, survey.counted, config, limit)?;
    let base = base_sums(with.rt, alloc, survey, with.gate)?;
    let mut text = Text::new(alloc);
    write_compare(alloc, survey, &base, &ranked, subject.head, &mut text)?;
    Ok(text)
}

/// The changes report, whose keys have no limit of their own.
pub fn changes<R: Threads + Sync, G: Gate>(
    with: &Host<'_, R, G>,
    subject: &Subject<'_, '_>,
) -> Result<Text, Memory>
    ensures { let s = subject.now.survey in (f : Finders) →
        HoldsFilters s.l.now s.v.now s.config.now.filtering f →
        IfOk result (λ text. text ≡ changes_text s.l.now.profile f s.config.now s.column
        (node_limit s.config.now.presentation.nodecount 0) (unit_text s.l.now.profile s.column)) }
{
    let survey = &subject.survey;
    let (alloc, config) = (with.alloc, survey.config);
    let limit = limit_of(&config.presentation, 0);
    let ranked = rank_all(alloc, survey.l, survey.counted, config, limit)?;
    let base = base_sums(with.rt, alloc, survey, with.gate)?;
    let unit = unit_text(survey.l.profile.get(), survey.column);
    let mut text = Text::new(alloc);
    write_changes(alloc, survey, &base, &ranked, unit, &mut text)?;
    Ok(text)
}
