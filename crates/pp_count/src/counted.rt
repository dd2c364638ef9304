//! What a report's samples come to.
ghost use Rattle.std.specs.Prelude.{◌≡◌, ◌<◌, ◌^◌, None, IfOk};
ghost use Rattle.pp_model.specs.Conditions.{HasVerdicts};
ghost use Rattle.pp_model.specs.Finders.{Finders};
ghost use Rattle.pp_tags.specs.TagFilters.{HasItsTags, filter_in_force};
ghost use Rattle.pp_count.specs.Filters.{AreFilters};
ghost use Rattle.pp_count.specs.Table.{IsKeyTable};
ghost use Rattle.pp_count.specs.Seeing.{HoldsFilters};
ghost use Rattle.pp_count.specs.Counts.{total_of};
ghost use Rattle.pp_count.specs.Counted.{CanCount, AreKeyed, IsCountedOf};
ghost use Rattle.pp_count.specs.Scope.{IsSoundScope, AreCountable, AreCounted, CountedTo, samples_in_scope, size_of};
ghost use Rattle.pp_count.specs.Tally.{tally_at};

use crate::filters::Filters;
use crate::matched::Matched;
use crate::scope::Scope;
use crate::sofar::Sofar;
use crate::sums::{NumberedSums, Sums, sums_by_keys};
use crate::table::{KeyTable, key_table};
use crate::tallies::entries;
use crate::waves::count_all;
use pp_base::{Gate, List, Memory};
use pp_keys::HashKeys;
use pp_model::{Config, Loaded, Verdicts};
use std::alloc::Global;
use std::mem;
use std::thread::Threads;

/// What the samples of a profile come to in a report.
#[derive(Drop)]
pub struct Counted {
    /// The numbers of the samples that the filters leave, rising.
    pub kept: List<u32>,
    /// The sums of each key that occurs.
    pub sums: Sums,
    /// Which options have a match.
    pub matched: Matched,
    /// What percentages are taken of.
    pub total: u64,
    // What the samples were counted by, to count some of them again.
    pub(crate) table: KeyTable,
    pub(crate) filters: Filters,
    // For each name of the sums, its number in the table.
    pub(crate) numbers: List<u64>,
}

/// Counts all samples, in pieces of 1,024 on as many lanes as the configuration has workers. `Err` is want of memory.
///
/// `hash_keys` are for the tables of the report.
///
/// Samples that a filter drops and samples of value 0 put no key into the sums; the latter are kept. With
/// `relative_percentages` the total is taken over the samples that the filters leave.
pub fn count<R: Threads + Sync, G: Gate>(
    rt: &R,
    alloc: Global,
    hash_keys: HashKeys,
    l: &Loaded,
    v: &Verdicts,
    config: &Config,
    column: Option<u32>,
    gate: &G,
) -> Result<Counted, Memory>
    requires { CanCount l.now.profile v.now config.now.filtering column }
    ensures { IfOk result (IsCountedOf l.now v.now config.now column) }
{
    let by = table_and_filters(alloc, hash_keys, l, v, config)?;
    let scope = Scope::whole(l, v, config, &by.1, column, &by.0);
    match count_whole(rt, alloc, &scope, gate) {
        Ok(whole) => Ok(counted_of(whole, by)),
        Err(Memory) => {
            mem::drop(by);
            Err(Memory)
        }
    }
}

// What samples are counted by.
fn table_and_filters(
    alloc: Global,
    hash_keys: HashKeys,
    l: &Loaded,
    v: &Verdicts,
    config: &Config,
) -> Result<(KeyTable, Filters), Memory>
    requires verdicts { HasVerdicts l.now.profile v.now }
    requires focus { HasItsTags l.now.profile v.now.tag
        (filter_in_force config.now.filtering.tagfocus) }
    requires ignore { HasItsTags l.now.profile v.now.tag
        (filter_in_force config.now.filtering.tagignore) }
    ensures table { IfOk result (λ by. IsKeyTable l.now.profile config.now.grouping by.0) }
    ensures filters { IfOk result (λ by. AreFilters l.now.profile v.now config.now.filtering by.1) }
{
    let table = key_table(alloc, hash_keys, l, config.grouping)?;
    let filters = Filters::new(alloc, l, v, &config.filtering)?;
    Ok((table, filters))
}

// What all samples come to, with what they were counted by.
fn counted_of(whole: WholeCount, by: (KeyTable, Filters)) -> Counted
    ensures { result ≡ record {
      kept = whole.sofar.kept;
      sums = whole.keyed.sums;
      matched = whole.sofar.matched;
      total = whole.total;
      table = by.0;
      filters = by.1;
      numbers = whole.keyed.numbers;
    } }
{
    let sofar = whole.sofar;
    let keyed = whole.keyed;
    Counted {
        kept: sofar.kept,
        sums: keyed.sums,
        matched: sofar.matched,
        total: whole.total,
        table: by.0,
        filters: by.1,
        numbers: keyed.numbers,
    }
}

// What all samples come to, by key numbers and by keys.
#[derive(Drop)]
struct WholeCount {
    sofar: Sofar,
    keyed: NumberedSums,
    // What percentages are taken of.
    total: u64,
}

// Counts all samples of the scope.
fn count_whole<R: Threads + Sync, G: Gate>(
    rt: &R,
    alloc: Global,
    scope: &Scope,
    gate: &G,
) -> Result<WholeCount, Memory>
    requires sound { IsSoundScope scope.now }
    requires countable { AreCountable scope.now (samples_in_scope scope.now) }
    requires keys { scope.now.over ≡ None }
    requires whole { scope.now.chosen ≡ None }
    ensures counted { IfOk result (λ whole.
        AreCounted scope.now (samples_in_scope scope.now) whole.sofar) }
    ensures keyed { IfOk result (λ whole. AreKeyed scope.now whole.keyed) }
    ensures total { (f : Finders) →
        HoldsFilters scope.now.l.now scope.now.v.now scope.now.config.now.filtering f →
        IfOk result (λ whole. whole.total
        ≡ total_of scope.now.l.now.profile f scope.now.config.now scope.now.column) }
{
    let sofar = count_all(rt, alloc, scope, gate)?;
    match sums_so_far(alloc, scope, &sofar) {
        Ok(keyed) => {
            let total = sofar.totals.total();
            Ok(WholeCount {
                sofar,
                keyed,
                total,
            })
        }
        Err(Memory) => {
            mem::drop(sofar);
            Err(Memory)
        }
    }
}

// The sums of all samples, by keys.
fn sums_so_far(alloc: Global, scope: &Scope, sofar: &Sofar) -> Result<NumberedSums, Memory>
    requires sound { IsSoundScope scope.now }
    requires fits { size_of scope.now scope.now.l.now.profile.sample < 2 ^ 63 }
    requires keys { scope.now.over ≡ None }
    requires counted { CountedTo scope.now 0 1 scope.now.l.now.profile.sample
        (tally_at sofar.now.tallies) sofar.now.kept }
    ensures { IfOk result (AreKeyed scope.now) }
{
    let _compact = scope.l.profile.get();
    let entries = entries(alloc, &sofar.tallies)?;
    let keyed = sums_by_keys(alloc, &scope.table.names, entries.as_slice())?;
    Ok(keyed)
}
