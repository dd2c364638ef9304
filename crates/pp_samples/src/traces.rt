//! The traces report.
ghost use Rattle.std.specs.Prelude.{◌≡◌, ◌++◌, IfOk, OnOk, OnErr};
ghost use Rattle.std.specs.List.{flat_map};
ghost use Rattle.pp_model.specs.Finders.{Finders};
ghost use Rattle.pp_units.specs.Shown.{shown};
ghost use Rattle.pp_units.specs.Head.{facts};
ghost use Rattle.pp_count.specs.Seeing.{HoldsFilters};
ghost use Rattle.pp_samples.specs.Traces.{traces_text, trace_of};

use crate::frame_lines::frame_lines;
use crate::subject::Traces;
use crate::trace::SEPARATOR;
use crate::tracing::put_all;
use pp_base::{Gate, Memory, Text};
use pp_count::{Scope, Survey};
use pp_units::{Head, Unit, write_head};
use std::alloc::Global;
use std::mem;
use std::thread::Threads;

/// Appends the first lines of the head, and then each sample that the filters leave and that has a frame which counts:
/// its labels that are shown, and its frames, leaf first, the first of them with the sample's value. Samples are written
/// in pieces of 1,024 on as many lanes as the configuration has workers. `Err` is want of memory, and leaves `out` as it
/// was.
pub fn write_traces<R: Threads + Sync, G: Gate>(
    rt: &R,
    alloc: Global,
    survey: &Survey<'_>,
    head: &Head,
    gate: &G,
    out: &mut Text,
) -> Result<(), Memory>
    ensures ok { (f : Finders) →
        HoldsFilters survey.now.l.now survey.now.v.now survey.now.config.now.filtering f →
        OnOk result (out.new ≡ out.old ++ traces_text survey.now.l.now.profile f
        survey.now.config.now survey.now.column (facts head.now)) }
    ensures err { OnErr result (out.new ≡ out.old) }
{
    let mut lines = Text::new(alloc);
    write_head(alloc, head, &mut lines)?;
    put_samples(rt, alloc, survey, &head.unit, gate, &mut lines)?;
    lines.extend(SEPARATOR)?;
    out.append(lines)
}

// The samples that the filters leave.
fn put_samples<'x, R: Threads + Sync, G: Gate>(
    rt: &R,
    alloc: Global,
    survey: &'x Survey<'x>,
    unit: &'x Unit,
    gate: &G,
    lines: &mut Text,
) -> Result<(), Memory>
    ensures { (f : Finders) →
        HoldsFilters survey.now.l.now survey.now.v.now survey.now.config.now.filtering f →
        IfOk result (λ _. lines.new ≡ lines.old
        ++ flat_map (trace_of survey.now.l.now.profile f survey.now.config.now survey.now.column
        (shown unit.now)) survey.now.l.now.profile.sample) }
{
    let kept = survey.counted.kept.as_slice();
    let scope = Scope {
        l: survey.l,
        v: survey.v,
        config: survey.config,
        grouping: survey.config.grouping,
        filters: survey.filters(),
        column: survey.column,
        table: survey.table(),
        over: None,
        chosen: None,
    };
    let made = frame_lines(alloc, scope.l, &scope.table.names, kept.len())?;
    let traces = Traces {
        scope,
        unit,
        lines: &made,
    };
    let written = put_all(rt, alloc, &traces, kept, gate, lines);
    mem::drop(made);
    written
}
