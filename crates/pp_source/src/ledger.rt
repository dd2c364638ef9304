//! What samples come to in the lines and in the routines that a report's own pattern finds.
ghost use Rattle.std.specs.Prelude.{◌≡◌, IfOk, Some};
ghost use Rattle.pp_model.specs.Finders.{Finders};
ghost use Rattle.pp_count.specs.Counted.{report_frames};
ghost use Rattle.pp_count.specs.Scope.{AreCountable, IsSoundScope, chosen_of, config_of, samples_in_scope};
ghost use Rattle.pp_count.specs.Seeing.{HoldsFilters, filtered_from};
ghost use Rattle.pp_count.specs.Table.{IsKeyTable};
ghost use Rattle.pp_source.specs.declared.found.KeyPart.TheVariants.{Line, Routine};
ghost use Rattle.pp_source.specs.Found.{IsFoundOf};
ghost use Rattle.pp_source.specs.Ledgers.{AreFound, IsLedgerOf, by_lines};

use crate::found::{FoundKeys, KeyPart, found_parts};
use crate::tallies::KeyTallies;
use crate::walk::{Walk, add_samples};
use pp_base::Memory;
use pp_count::{KeyTable, Scope, Survey, key_table};
use pp_model::{Grain, Grouping};
use std::alloc::Global;
use std::mem;

/// Sums by the lines and by the routines of frames.
#[derive(Drop)]
pub struct Ledger {
    /// By function, file and line.
    pub lines: KeyTallies,
    /// By function and file.
    pub routines: KeyTallies,
}

/// The sums over the samples that the filters leave, in one pass. `Err` is want of memory.
pub fn ledger_of(alloc: Global, survey: &Survey<'_>) -> Result<Ledger, Memory>
    ensures found { IfOk result (λ ledger.
        AreFound survey.now.l.now.profile survey.now.v.now.own ledger.lines.names.keys) }
    ensures sums { (f : Finders) →
        HoldsFilters survey.now.l.now survey.now.v.now survey.now.config.now.filtering f →
        IfOk result
        (IsLedgerOf survey.now.l.now.profile survey.now.v.now.own
        (report_frames survey.now.l.now.profile f survey.now.config.now survey.now.column)) }
{
    let lines = by_lines(survey.config.grouping);
    let table = key_table(alloc, survey.hash_keys(), survey.l, lines)?;
    let ledger = ledger_in(alloc, survey, lines, &table);
    mem::drop(table);
    ledger
}

// What a key is where lines of frames are counted.
fn by_lines(grouping: Grouping) -> Grouping
    ensures { result ≡ by_lines grouping }
{
    Grouping {
        grain: Grain::Lines,
        noinlines: grouping.noinlines,
        showcolumns: false,
    }
}

// The ledger by this table, whose keys are lines.
fn ledger_in<'x>(
    alloc: Global,
    survey: &'x Survey<'x>,
    lines: Grouping,
    table: &'x KeyTable,
) -> Result<Ledger, Memory>
    requires lines { lines ≡ by_lines survey.now.config.now.grouping }
    requires table { IsKeyTable survey.now.l.now.profile lines table.now }
    ensures found { IfOk result (λ ledger.
        AreFound survey.now.l.now.profile survey.now.v.now.own ledger.lines.names.keys) }
    ensures sums { (f : Finders) →
        HoldsFilters survey.now.l.now survey.now.v.now survey.now.config.now.filtering f →
        IfOk result
        (IsLedgerOf survey.now.l.now.profile survey.now.v.now.own
        (report_frames survey.now.l.now.profile f survey.now.config.now survey.now.column)) }
{
    let kept = survey.counted.kept.as_slice();
    let scope = Scope {
        l: survey.l,
        v: survey.v,
        config: survey.config,
        grouping: lines,
        filters: survey.filters(),
        column: survey.column,
        table,
        over: None,
        chosen: Some(kept),
    };
    ledger_by(alloc, &scope, kept)
}

// The sums over the samples with these numbers, which are those that the scope chooses.
fn ledger_by(alloc: Global, scope: &Scope<'_>, kept: &[u32]) -> Result<Ledger, Memory>
    requires sound { IsSoundScope scope.now }
    requires countable { AreCountable scope.now (samples_in_scope scope.now) }
    requires chosen { chosen_of scope.now ≡ Some kept.now }
    requires lines { scope.now.grouping ≡ by_lines scope.now.grouping }
    ensures found { IfOk result (λ ledger.
        AreFound scope.now.l.now.profile scope.now.v.now.own ledger.lines.names.keys) }
    ensures sums { (f : Finders) →
        HoldsFilters scope.now.l.now scope.now.v.now scope.now.config.now.filtering f →
        kept.now ≡ filtered_from scope.now.l.now.profile f scope.now.config.now.filtering 0
        scope.now.l.now.profile.sample → IfOk result
        (IsLedgerOf scope.now.l.now.profile scope.now.v.now.own
        (report_frames scope.now.l.now.profile f (config_of scope.now) scope.now.column)) }
{
    let _valid = scope.l.profile.get();
    let (lines, routines) = lines_and_routines(alloc, scope)?;
    let walk = Walk {
        scope: *scope,
        lines: &lines,
        routines: &routines,
    };
    match add_samples(alloc, &walk, kept) {
        Ok(sums) => Ok(Ledger {
            lines: KeyTallies {
                names: lines.names,
                sums: sums.lines,
            },
            routines: KeyTallies {
                names: routines.names,
                sums: sums.routines,
            },
        }),
        Err(Memory) => {
            mem::drop(lines);
            mem::drop(routines);
            Err(Memory)
        }
    }
}

// The lines and the routines that the own pattern finds.
fn lines_and_routines(alloc: Global, scope: &Scope<'_>) -> Result<(FoundKeys, FoundKeys), Memory>
    requires { IsSoundScope scope.now }
    ensures lines { IfOk result (λ found.
        IsFoundOf scope.now.v.now.own Line scope.now.table.now.names found.0) }
    ensures routines { IfOk result (λ found.
        IsFoundOf scope.now.v.now.own Routine scope.now.table.now.names found.1) }
{
    let keys = &scope.table.names;
    let lines = found_parts(alloc, scope.l, scope.v, KeyPart::Line, keys)?;
    match found_parts(alloc, scope.l, scope.v, KeyPart::Routine, keys) {
        Ok(routines) => Ok((lines, routines)),
        Err(Memory) => {
            mem::drop(lines);
            Err(Memory)
        }
    }
}
