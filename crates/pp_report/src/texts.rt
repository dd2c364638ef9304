//! The texts of the reports that read no file.
ghost use Rattle.std.specs.Prelude.{◌≡◌, ◌<◌, ◌^◌, IfOk};
ghost use Rattle.std.specs.List.{AllByRecursion};
ghost use Rattle.pp_model.specs.Finders.{Finders};
ghost use Rattle.pp_units.specs.Head.{facts};
ghost use Rattle.pp_count.specs.Seeing.{HoldsFilters};
ghost use Rattle.pp_graph.specs.Trim.{node_limit};
ghost use Rattle.pp_account.specs.Account.{account_text};
ghost use Rattle.pp_top.specs.Top.{top_text};
ghost use Rattle.pp_tree.specs.Tree.{tree_text};
ghost use Rattle.pp_samples.specs.Traces.{traces_text};
ghost use Rattle.pp_samples.specs.TagLines.{tags_text};
ghost use Rattle.pp_dump.specs.Raw.{raw_text};
ghost use Rattle.pp_samples.specs.Comments.{comments_text};
ghost use Rattle.pp_dump.specs.Saved.{saved};
ghost use Rattle.pp_report.specs.declared.texts.TheConstants.{TREE_NODES};
ghost use Rattle.pp_report.specs.Reports.{peek_outcome};
ghost use Rattle.pp_report.specs.SavedText.{IsLasting, IsProtoOf};

use crate::ReportRefusal;
use crate::host::Host;
use crate::subject::Subject;
use pp_account::write_account;
use pp_base::{Gate, MatchRefusal, Memory, Text};
use pp_count::Survey;
use pp_dump::{saved_profile, write_raw};
use pp_graph::{node_limit, rank, trim};
use pp_model::{Compact, Loaded, Presentation};
use pp_samples::{write_comments, write_tags, write_traces};
use pp_steal::Resources;
use pp_tables::write_profile_on;
use pp_top::write_top;
use pp_tree::{write_peek, write_tree};
use std::alloc::Global;
use std::thread::Threads;

/// The most nodes of a tree report, unless `nodecount` says otherwise. A top report has no limit of its own.
pub const TREE_NODES: u32 = 80;

/// The number of nodes, plainly.
pub fn limit_of_trees()
    ensures { TREE_NODES ≡ 80 }
{}

/// The top report, whose nodes have no limit of their own.
pub fn top(alloc: Global, subject: &Subject<'_, '_>) -> Result<Text, Memory>
    ensures { let s = subject.now.survey in (f : Finders) →
        HoldsFilters s.l.now s.v.now s.config.now.filtering f →
        IfOk result (λ text. text ≡ top_text s.l.now.profile f s.config.now s.column
        (node_limit s.config.now.presentation.nodecount 0) (facts subject.now.head.now)) }
{
    let s = &subject.survey;
    let limit = limit_of(&s.config.presentation, 0);
    let ranked = rank(alloc, s.l, s.counted, s.config, limit)?;
    let mut text = Text::new(alloc);
    write_top(alloc, s.l, s.counted, &ranked, subject.head, &mut text)?;
    Ok(text)
}

/// The account report, whose nodes have no limit of their own.
pub fn account(alloc: Global, subject: &Subject<'_, '_>) -> Result<Text, Memory>
    ensures { let s = subject.now.survey in (f : Finders) →
        HoldsFilters s.l.now s.v.now s.config.now.filtering f →
        IfOk result (λ text. text ≡ account_text s.l.now.profile f s.config.now s.column
        (node_limit s.config.now.presentation.nodecount 0) (facts subject.now.head.now)) }
{
    let s = &subject.survey;
    let limit = limit_of(&s.config.presentation, 0);
    let mut text = Text::new(alloc);
    write_account(alloc, s, limit, subject.head, &mut text)?;
    Ok(text)
}

/// The tree report.
pub fn tree<R: Threads + Sync, G: Gate>(
    with: &Host<'_, R, G>,
    subject: &Subject<'_, '_>,
) -> Result<Text, Memory>
    ensures { let s = subject.now.survey in (f : Finders) →
        HoldsFilters s.l.now s.v.now s.config.now.filtering f →
        IfOk result (λ text. text ≡ tree_text s.l.now.profile f s.config.now s.column
        (node_limit s.config.now.presentation.nodecount TREE_NODES) (facts subject.now.head.now)) }
{
    let (alloc, s) = (with.alloc, &subject.survey);
    let limit = limit_of(&s.config.presentation, TREE_NODES);
    let trimmed = trim(with.rt, alloc, s, limit, with.gate)?;
    let mut text = Text::new(alloc);
    write_tree(alloc, s.l, s.counted, &trimmed, subject.head, &mut text)?;
    Ok(text)
}

/// The most nodes of a report that has this limit of its own, where 0 is none.
pub fn limit_of(presentation: &Presentation, own: u32) -> u32
    ensures { result ≡ node_limit presentation.now.nodecount own }
{
    node_limit(presentation.nodecount, own)
}

/// The peek report, or `NoMatch` where its pattern finds nothing.
pub fn peek<R: Threads + Sync, G: Gate>(
    with: &Host<'_, R, G>,
    subject: &Subject<'_, '_>,
) -> Result<Result<Text, ReportRefusal>, Memory>
    ensures { let s = subject.now.survey in (f : Finders) →
        HoldsFilters s.l.now s.v.now s.config.now.filtering f →
        IfOk result (λ outcome. outcome ≡ peek_outcome s.l.now.profile f s.config.now s.column
        (facts subject.now.head.now)) }
{
    let (alloc, survey) = (with.alloc, &subject.survey);
    let mut text = Text::new(alloc);
    match write_peek(with.rt, alloc, survey, subject.head, with.gate, &mut text) {
        Ok(()) => Ok(Ok(text)),
        Err(MatchRefusal::NoMatch) => Ok(Err(ReportRefusal::NoMatch)),
        Err(MatchRefusal::Memory) => Err(Memory),
    }
}

/// The traces report.
pub fn traces<R: Threads + Sync, G: Gate>(
    with: &Host<'_, R, G>,
    subject: &Subject<'_, '_>,
) -> Result<Text, Memory>
    ensures { let s = subject.now.survey in (f : Finders) →
        HoldsFilters s.l.now s.v.now s.config.now.filtering f →
        IfOk result (λ text. text ≡ traces_text s.l.now.profile f s.config.now s.column
        (facts subject.now.head.now)) }
{
    let alloc = with.alloc;
    let mut text = Text::new(alloc);
    write_traces(
        with.rt,
        alloc,
        &subject.survey,
        subject.head,
        with.gate,
        &mut text,
    )?;
    Ok(text)
}

/// The tags report.
pub fn tags(alloc: Global, subject: &Subject<'_, '_>) -> Result<Text, Memory>
    ensures { let s = subject.now.survey in (f : Finders) →
        HoldsFilters s.l.now s.v.now s.config.now.filtering f →
        IfOk result (λ text. text ≡ tags_text s.l.now.profile f s.config.now s.column
        (facts subject.now.head.now)) }
{
    let mut text = Text::new(alloc);
    write_tags(alloc, &subject.survey, subject.head, &mut text)?;
    Ok(text)
}

// The saved profile.
fn saved<R: Threads + Sync>(with: &Resources<'_, R>, survey: &Survey<'_>) -> Result<Compact, Memory>
    ensures saved { let s = survey.now in (f : Finders) →
        HoldsFilters s.l.now s.v.now s.config.now.filtering f →
        IfOk result (λ q. q ≡ saved s.l.now.profile f s.config.now.filtering) }
    ensures lasts { IfOk result IsLasting }
    ensures starts { IfOk result (λ _.
        AllByRecursion (λ m. m.start < 2 ^ 64) survey.now.l.now.profile.mapping) }
{
    saved_profile(with, survey.l, survey.v, survey.counted)
}

/// The raw report: the saved profile, table by table.
pub fn raw<R: Threads + Sync, G: Gate>(
    with: &Host<'_, R, G>,
    survey: &Survey<'_>,
) -> Result<Text, Memory>
    ensures { let s = survey.now in (f : Finders) →
        HoldsFilters s.l.now s.v.now s.config.now.filtering f →
        IfOk result (λ text. text ≡ raw_text (saved s.l.now.profile f s.config.now.filtering)) }
{
    let with = with.resources(&survey.config.environment);
    let saved = saved(&with, survey)?;
    let mut text = Text::new(with.alloc);
    write_raw(&with, &saved, &mut text)?;
    Ok(text)
}

/// The comments of the loaded profile.
pub fn comments(alloc: Global, l: &Loaded) -> Result<Text, Memory>
    ensures { IfOk result (λ text. text ≡ comments_text l.now.profile) }
{
    let mut text = Text::new(alloc);
    write_comments(alloc, &l.profile, &mut text)?;
    Ok(text)
}

/// The bytes of the saved profile, which load as that profile.
pub fn proto<R: Threads + Sync, G: Gate>(
    with: &Host<'_, R, G>,
    survey: &Survey<'_>,
) -> Result<Text, Memory>
    ensures { let s = survey.now in (f : Finders) →
        HoldsFilters s.l.now s.v.now s.config.now.filtering f →
        IfOk result (IsProtoOf s.l.now.profile f s.config.now.filtering) }
{
    // The profile keeps the table rules.
    let _profile = survey.l.profile.get();
    let with = with.resources(&survey.config.environment);
    let saved = saved(&with, survey)?;
    write_profile_on(&with, saved.valid())
}
