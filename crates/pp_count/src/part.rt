//! What a range of the samples comes to.
ghost use Rattle.std.specs.Prelude.{◌≡◌, ℕ, ◌+◌, ◌<◌, ◌≤◌, ◌^◌, nat_abs, length, take, drop, IfOk};
ghost use Rattle.pp_model.specs.Conditions.{RefersTo};
ghost use Rattle.pp_count.specs.Edges.{counted_keys};
ghost use Rattle.pp_count.specs.Tally.{tally_at, no_tally, with_seen};
ghost use Rattle.pp_count.specs.Table.{IsKeyTable};
ghost use Rattle.pp_count.specs.Scope.{over_of, samples_in_scope, IsSoundScope, AreCountable, IsPartOf, CountedTo, HasTotals};

use crate::matched::{Matched, range_matches};
use crate::pairs::gather_pairs;
use crate::scope::{Scope, sample_at};
use crate::seeing::see;
use crate::tallies::{LISTED, Tallies, add_sample, entries};
use crate::total::{Totals, totals_of};
use crate::value::selected;
use pp_base::{List, Memory};
use pp_model::Sample;
use std::alloc::Global;

/// The sums of one key over a range of samples.
#[derive(Clone, Copy, Debug, PartialEq, Eq)]
pub struct KeySum {
    /// The key's number.
    pub key: u64,
    /// The sum over the samples whose leaf has the key.
    pub flat: i64,
    /// The sum over the samples that have the key, each sample once.
    pub cum: i64,
}

/// What a range of samples comes to.
#[derive(Debug, Drop)]
pub struct Part {
    /// The numbers of the samples that the filters leave, rising.
    pub kept: List<u32>,
    /// The sums of each key that occurs, once.
    pub sums: List<KeySum>,
    /// Which options have a match among all of the range's samples.
    pub matched: Matched,
    // What the range adds to what percentages are taken of.
    pub(crate) totals: Totals,
}

/// Counts `count` samples of those that are counted, from the place `first` on.
pub fn count_range(alloc: Global, scope: &Scope, first: u32, count: u32) -> Result<Part, Memory>
    requires sound { IsSoundScope scope.now }
    requires countable { AreCountable scope.now (samples_in_scope scope.now) }
    requires within { first + count ≤ length (samples_in_scope scope.now) }
    ensures { IfOk result (IsPartOf scope.now first (take count (drop first (samples_in_scope scope.now)))) }
{
    let numbers = scope.numbers();
    // A list suits few numbers, however many are added.
    let adds = if numbers > LISTED {
        frames_in(scope, first, count)
    } else {
        0
    };
    let mut tallies = Tallies::new(alloc, scope.hash_keys(), numbers, adds)?;
    part_of(alloc, scope, &mut tallies, first, count)
}

// How many frames the samples of the range have before filters, or the greatest number where they are more.
fn frames_in(scope: &Scope, first: u32, count: u32) -> usize
    requires sound { IsSoundScope scope.now }
    requires few { length (samples_in_scope scope.now) < 2 ^ 32 }
    requires within { first + count ≤ length (samples_in_scope scope.now) }
{
    let mut frames = 0;
    for index in 0..count {
        let sample = sample_at(scope, (first + index) as usize);
        frames = frames_on(scope, sample, frames);
    }
    frames
}

// That number with the frames of one more sample.
fn frames_on(scope: &Scope, s: &Sample, before: usize) -> usize
    requires refers { RefersTo scope.now.l.now.profile s.now }
    requires table { IsKeyTable scope.now.l.now.profile scope.now.grouping scope.now.table.now }
{
    // Each id is a place plus 1.
    let _compact = scope.l.profile.get();
    let mut frames: usize = before;
    for id in s.location_id.as_slice() {
        let row = scope.table.location.row((*id - 1) as usize);
        frames = frames.saturating_add(row.len());
    }
    frames
}

// Counts them by tallies that have none yet.
fn part_of(
    alloc: Global,
    scope: &Scope,
    tallies: &mut Tallies,
    first: u32,
    count: u32,
) -> Result<Part, Memory>
    requires sound { IsSoundScope scope.now }
    requires countable { AreCountable scope.now (samples_in_scope scope.now) }
    requires within { first + count ≤ length (samples_in_scope scope.now) }
    requires none { (k : ℕ) → tally_at tallies.old k ≡ no_tally }
    ensures { IfOk result (IsPartOf scope.now first (take count (drop first (samples_in_scope scope.now)))) }
{
    let mut totals = Totals::none();
    let kept = add_samples(alloc, scope, tallies, &mut totals, first, count)?;
    let sums = entries(alloc, tallies)?;
    let matched = range_matches(alloc, scope, first, count)?;
    Ok(Part {
        kept,
        sums,
        matched,
        totals,
    })
}

// Adds the samples that the filters leave to tallies that have none yet, and what percentages are taken of to totals
// that have none either. The places of the samples that the filters leave.
fn add_samples(
    alloc: Global,
    scope: &Scope,
    tallies: &mut Tallies,
    totals: &mut Totals,
    first: u32,
    count: u32,
) -> Result<List<u32>, Memory>
    requires sound { IsSoundScope scope.now }
    requires countable { AreCountable scope.now (samples_in_scope scope.now) }
    requires within { first + count ≤ length (samples_in_scope scope.now) }
    requires none { (k : ℕ) → tally_at tallies.old k ≡ no_tally }
    requires nothing { totals.old ≡ record { all = 0; base = 0 } }
    ensures counted { IfOk result (λ kept. CountedTo scope.now first count
        (take count (drop first (samples_in_scope scope.now))) (tally_at tallies.new) kept) }
    ensures totals { IfOk result (λ _.
        HasTotals scope.now (take count (drop first (samples_in_scope scope.now))) totals.new) }
{
    let mut stack = List::new(alloc);
    let mut keys = Vec::new(alloc);
    let mut pairs = Vec::new(alloc);
    let mut kept = List::new(alloc);
    for index in 0..count {
        let place = first + index;
        let sample = sample_at(scope, place as usize);
        let left = see(scope, sample, &mut stack, &mut keys)?;
        let value = selected(
            scope.l,
            sample,
            scope.column,
            scope.config.presentation.divide_by,
        );
        *totals = totals.plus(totals_of(scope, sample, value, left));
        if left {
            let turn = index as u64 + 1;
            add_seen(scope, tallies, value, &keys, &mut pairs, turn)?;
            kept.push(place)?;
        }
    }
    Ok(kept)
}

// Adds a sample of the value by its keys, or by its pairs. Its turn is after those of the samples before it.
fn add_seen(
    scope: &Scope,
    tallies: &mut Tallies,
    value: i64,
    keys: &[u64],
    pairs: &mut Vec<u64>,
    turn: u64,
) -> Result<(), Memory>
    requires sound { IsSoundScope scope.now }
    requires earlier { (k : ℕ) → (tally_at tallies.old k).last < turn }
    requires cum_fits { (k : ℕ) → nat_abs (tally_at tallies.old k).cum + nat_abs value < 2 ^ 63 }
    requires flat_fits { (k : ℕ) → nat_abs (tally_at tallies.old k).flat + nat_abs value < 2 ^ 63 }
    ensures { IfOk result (λ _. (k : ℕ) → tally_at tallies.new k ≡ with_seen value turn
        (counted_keys (over_of scope.now) keys.now) k (tally_at tallies.old k)) }
{
    let Some(over) = scope.over else {
        return add_sample(tallies, value, keys, turn);
    };
    gather_pairs(pairs, keys, over)?;
    add_sample(tallies, value, pairs, turn)
}
