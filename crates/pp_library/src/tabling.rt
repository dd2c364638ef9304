//! The figures of a report as values.
ghost use Rattle.std.specs.Prelude.{◌≡◌, ◌<◌, ◌⊎◌, ℕ, All, length, map, None, Option, option_map, IfOk, pos, slice_index_or};
ghost use Rattle.pp_model.specs.declared.report.Report.TheVariants.{Table};
ghost use Rattle.pp_model.specs.Finders.{Finders};
ghost use Rattle.pp_grain.specs.Keys.{IsKeyOf, key_written};
ghost use Rattle.pp_grain.specs.Naming.{name_text};
ghost use Rattle.pp_count.specs.Counted.{FitSums};
ghost use Rattle.pp_count.specs.Seeing.{HoldsFilters};
ghost use Rattle.pp_graph.specs.KeyRows.{row_at};
ghost use Rattle.pp_graph.specs.Trim.{node_limit};
ghost use Rattle.pp_report.specs.Heads.{kind_text, unit_text};
ghost use Rattle.pp_report.specs.Prepared.{answered, AreCounts, HasCounts, IsPrepared};
ghost use Rattle.pp_report.specs.Tagged.{basis_of};
ghost use Rattle.pp_desk.specs.Asked.{Asked, value_of};
ghost use Rattle.pp_library.specs.Figures.{figure_of, figures_by, figures_on, figures_settled, table_with, without_edges, table_figures, figures_outcome, HasEdges, HasEdgesOn, HasEdgesBy};

use crate::countable::Countable;
use crate::edging::{FigureEdge, row_edges};
use crate::report_error::ReportError;
use pp_base::{List, Matcher, Memory, OpenGate, Text};
use pp_count::{Sums, Survey};
use pp_desk::{MatcherDesk, Stop};
use pp_grain::{Key, write_name};
use pp_graph::{node_limit, rank_all};
use pp_keys::HashKeys;
use pp_model::{Config, Loaded, Presentation, Profile, Report};
use pp_pseudo::basis;
use pp_report::{Counts, Host, Prepared, ReportRefusal, kind_text, prepare, unit_text};
use std::alloc::Global;
use std::mem;
use std::thread::Threads;

/// The two figures of a function, or of what else a row stands for.
#[derive(Debug, Drop)]
pub struct Figure {
    /// The sum over the samples whose leaf has it.
    pub flat: i64,
    /// The sum over the samples that have it, each sample once.
    pub cum: i64,
    /// Its name, as reports print it.
    pub name: Text,
}

/// The figures of a report, in the unit of the column's values.
#[derive(Debug, Drop)]
pub struct FigureTable {
    /// The name of the column's sample type, empty where there is no sample type.
    pub kind: Text,
    /// The unit of its values, empty where there is no sample type.
    pub unit: Text,
    /// What percentages are taken of.
    pub total: u64,
    /// A row for each key that occurs, in report order; the first `nodecount` of them where that is above 0.
    pub rows: List<Figure>,
    /// The edges between the rows, each pair of rows once, in no order that is promised. Keys without a row are left out of
    /// each stack.
    pub edges: List<FigureEdge>,
}

/// The figures that the command's table report prints, and top too, where `nodefraction` leaves out light rows. The
/// patterns of the configuration are asked of the matcher. Edges are those of the tree report, where no fraction leaves out
/// any.
pub fn figures<R: Threads + Sync, M: Matcher>(
    rt: &R,
    alloc: Global,
    l: &Countable,
    config: &Config,
    matcher: &mut M,
) -> Result<FigureTable, ReportError>
    ensures went { Asked (M.answers matcher.old) (M.answers matcher.new)
        (table_figures M.finds l.now.loaded config.now) (figures_outcome result) }
    ensures edges { IfOk result (λ figures. HasEdges M.finds l.now.loaded config.now figures.edges) }
{
    let mut desk = MatcherDesk {
        matcher: &mut *matcher,
    };
    figures_at(rt, alloc, l, config, &mut desk)
}

// The figures at the desk of the matcher.
fn figures_at<R: Threads + Sync, M: Matcher>(
    rt: &R,
    alloc: Global,
    l: &Countable,
    config: &Config,
    desk: &mut MatcherDesk<'_, M>,
) -> Result<FigureTable, ReportError>
    ensures went { Asked (M.answers desk.old.matcher.now) (M.answers desk.new.matcher.now)
        (table_figures M.finds l.now.loaded config.now) (figures_outcome result) }
    ensures edges { IfOk result (λ figures. HasEdges M.finds l.now.loaded config.now figures.edges) }
    ensures same { desk.new.matcher.ghost_name ≡ desk.old.matcher.ghost_name }
{
    let with = Host {
        rt,
        alloc,
        keys: HashKeys::fixed(),
        gate: &OpenGate,
    };
    let prepared = prepare(&with, &l.loaded, None, &Report::Table, config, desk);
    answer_of::<R, M>(rt, alloc, &l.loaded, config, prepared)
}

// The figures of what was prepared, or why there are none.
fn answer_of<R: Threads + Sync, M: Matcher>(
    rt: &R,
    alloc: Global,
    l: &Loaded,
    config: &Config,
    prepared: Result<Result<Prepared, ReportRefusal>, Stop>,
) -> Result<FigureTable, ReportError>
    requires { IfOk prepared (λ answer. IfOk answer (IsPrepared M.finds l.now Table config.now)) }
    ensures is { (figures_outcome result ≡ None) ⊎ (figures_outcome result
        ≡ option_map (figures_settled M.finds l.now config.now) (value_of (answered prepared))) }
    ensures edges { IfOk result (λ figures. HasEdges M.finds l.now config.now figures.edges) }
{
    match prepared {
        Ok(Ok(prepared)) => Ok(figures_of::<R, M>(rt, alloc, l, config, prepared)?),
        Ok(Err(refusal)) => Err(ReportError::from(refusal)),
        // Nothing but memory can be wanting where only patterns are asked.
        Err(_) => Err(ReportError::Memory),
    }
}

// The figures of what was prepared.
fn figures_of<R: Threads + Sync, M: Matcher>(
    rt: &R,
    alloc: Global,
    l: &Loaded,
    config: &Config,
    prepared: Prepared,
) -> Result<FigureTable, Memory>
    requires { IsPrepared M.finds l.now Table config.now prepared }
    ensures is { IfOk result (λ figures. without_edges figures
        ≡ figures_on M.finds
        (basis_of Table l.now config.now.presentation) config.now prepared.shows.column) }
    ensures edges { IfOk result (λ figures. HasEdges M.finds l.now config.now figures.edges) }
{
    let Prepared {
        shows,
        counts,
        tagged,
        ..
    } = prepared;
    let over = basis(&tagged, l);
    let figures = figures_on::<R, M>(rt, alloc, over, config, shows.column, &counts);
    mem::drop(counts);
    mem::drop(tagged);
    figures
}

// The figures of the profile that is counted.
fn figures_on<R: Threads + Sync, M: Matcher>(
    rt: &R,
    alloc: Global,
    l: &Loaded,
    config: &Config,
    column: Option<u32>,
    counts: &Option<Counts>,
) -> Result<FigureTable, Memory>
    requires { HasCounts M.finds l.now Table config.now column counts.now }
    ensures is { IfOk result (λ figures. without_edges figures
        ≡ figures_on M.finds l.now config.now column) }
    ensures edges { IfOk result (λ figures. HasEdgesOn M.finds l.now config.now column figures.edges) }
{
    match counts {
        Some(counts) => figures_counted::<R, M>(rt, alloc, l, config, column, counts),
        None => unreachable!(),
    }
}

fn figures_counted<R: Threads + Sync, M: Matcher>(
    rt: &R,
    alloc: Global,
    l: &Loaded,
    config: &Config,
    column: Option<u32>,
    counts: &Counts,
) -> Result<FigureTable, Memory>
    requires { AreCounts M.finds l.now Table config.now column counts.now }
    ensures is { IfOk result (λ figures. without_edges figures
        ≡ figures_on M.finds l.now config.now column) }
    ensures edges { IfOk result (λ figures. HasEdgesOn M.finds l.now config.now column figures.edges) }
{
    let survey = Survey {
        l,
        v: &counts.verdicts,
        config,
        column,
        counted: &counts.counted,
    };
    figures_by(rt, alloc, &survey)
}

// The figures of what was counted.
fn figures_by<R: Threads + Sync>(
    rt: &R,
    alloc: Global,
    survey: &Survey<'_>,
) -> Result<FigureTable, Memory>
    ensures is { let s = survey.now in (f : Finders) →
        HoldsFilters s.l.now s.v.now s.config.now.filtering f →
        IfOk result (λ figures. without_edges figures
        ≡ figures_by s.l.now.profile f s.config.now s.column) }
    ensures edges { let s = survey.now in (f : Finders) →
        HoldsFilters s.l.now s.v.now s.config.now.filtering f →
        IfOk result (λ figures. HasEdgesBy s.l.now.profile f s.config.now s.column figures.edges) }
{
    let (l, counted) = (survey.l, survey.counted);
    let limit = limit_of(&survey.config.presentation);
    let ranked = rank_all(alloc, l, counted, survey.config, limit)?;
    let rows = rows_of(alloc, l, &counted.sums, ranked.order.as_slice())?;
    let edges = row_edges(rt, alloc, survey, ranked.order.as_slice())?;
    mem::drop(ranked);
    with_rows(
        alloc,
        l.profile.get(),
        survey.column,
        counted.total,
        rows,
        edges,
    )
}

fn limit_of(presentation: &Presentation) -> u32
    ensures { result ≡ node_limit presentation.now.nodecount 0 }
{
    node_limit(presentation.nodecount, 0)
}

// The table with these rows.
fn with_rows(
    alloc: Global,
    p: &Profile,
    column: Option<u32>,
    total: u64,
    rows: List<Figure>,
    edges: List<FigureEdge>,
) -> Result<FigureTable, Memory>
    ensures is { IfOk result (λ figures. without_edges figures ≡ table_with p.now column total rows) }
    ensures edges { IfOk result (λ figures. figures.edges ≡ edges) }
{
    let kind = Text::from_slice(alloc, kind_text(p, column))?;
    let unit = Text::from_slice(alloc, unit_text(p, column))?;
    Ok(FigureTable {
        kind,
        unit,
        total,
        rows,
        edges,
    })
}

// The rows of the names with these numbers.
fn rows_of(alloc: Global, l: &Loaded, sums: &Sums, order: &[u64]) -> Result<List<Figure>, Memory>
    requires keys { All (IsKeyOf l.now.profile) sums.now.names }
    requires fits { FitSums sums.now }
    requires below { All (λ n. n < length sums.now.names) order.now }
    ensures { IfOk result (λ rows. rows ≡ map (λ n. figure_of (row_at l.now.profile sums.now n)) order.now) }
{
    let mut rows = List::new(alloc);
    for number in order {
        let row = row_of(alloc, l, sums, *number)?;
        rows.push(row)?;
    }
    Ok(rows)
}

// The row of the name with the number.
fn row_of(alloc: Global, l: &Loaded, sums: &Sums, number: u64) -> Result<Figure, Memory>
    requires keys { All (IsKeyOf l.now.profile) sums.now.names }
    requires fits { FitSums sums.now }
    requires below { number < length sums.now.names }
    ensures { IfOk result (λ row. row ≡ figure_of (row_at l.now.profile sums.now number)) }
{
    let name = name_of(alloc, l, &sums.names.key(number))?;
    Ok(Figure {
        flat: value_at(&sums.flat, number),
        cum: value_at(&sums.cum, number),
        name,
    })
}

// The value at the place.
fn value_at(values: &List<i64>, place: u64) -> i64
    requires { place < length values.now }
    ensures { result ≡ slice_index_or values.now place (pos 0) }
{
    values.as_slice()[place as usize]
}

fn name_of(alloc: Global, l: &Loaded, key: &Key) -> Result<Text, Memory>
    requires { IsKeyOf l.now.profile key.now }
    ensures { IfOk result (λ name. name ≡ name_text (key_written l.now.profile key.now)) }
{
    let mut name = Text::new(alloc);
    write_name(l, key, &mut name)?;
    Ok(name)
}
