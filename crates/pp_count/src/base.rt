//! What the base's samples of a compared profile come to.
ghost use Rattle.std.specs.Prelude.{◌≡◌, ◌++◌, ◌+◌, ◌+ℤ◌, ◌<◌, ◌^◌, nat_abs, [], ◌∷◌, length, map, slice_index_or, IfOk, if◌then◌else◌};
ghost use Rattle.std.specs.List.{filter};
ghost use Rattle.pp_model.specs.Finders.{Finders};
ghost use Rattle.pp_model.specs.Values.{no_sample};
ghost use Rattle.pp_count.specs.Base.{has_base, is_base_number, selected_all, AreBaseSums, FitBase, HasTallies};
ghost use Rattle.pp_count.specs.Column.{selected};
ghost use Rattle.pp_count.specs.Counts.{filtered_samples, samples_at};
ghost use Rattle.pp_count.specs.Rising.{AreRisingBetween};
ghost use Rattle.pp_count.specs.Seeing.{HoldsFilters, absolute_all};
ghost use Rattle.pp_count.specs.Tally.{tally_at};

use crate::scope::Scope;
use crate::survey::Survey;
use crate::tallies::{Tallies, tally_of};
use crate::tally::Tally;
use crate::total::is_base;
use crate::value::selected;
use crate::waves::count_all;
use pp_base::{Gate, List, Memory};
use pp_model::{Loaded, Presentation, Profile};
use std::alloc::Global;
use std::mem;
use std::thread::Threads;

/// The sums of a report over the base's samples alone: those that carry the label `pprof::base` of the text `true`.
#[derive(Drop)]
pub struct BaseSums {
    /// For each name of the report's sums, the sum over the base's samples whose leaf has its key.
    pub flat: List<i64>,
    /// For each of them, the sum over the base's samples that have its key, each sample once.
    pub cum: List<i64>,
    /// The sum of the selected values of the base's samples that the filters leave.
    pub whole: i64,
}

/// Whether a sample of the loaded profile carries the base's label.
pub fn has_base(l: &Loaded) -> bool
    ensures { result ≡ has_base l.now.profile }
{
    let p = l.profile.get();
    p.sample.as_slice().iter().any(|s| is_base(p, s))
}

/// The sums of the report's names over the base's samples among those that the filters leave; 0 for a key that none of
/// them has. They are counted in pieces of 1,024 on as many lanes as the configuration has workers. `Err` is want of
/// memory.
pub fn base_sums<R: Threads + Sync, G: Gate>(
    rt: &R,
    alloc: Global,
    survey: &Survey<'_>,
    gate: &G,
) -> Result<BaseSums, Memory>
    ensures sums { (f : Finders) →
        HoldsFilters survey.now.l.now survey.now.v.now survey.now.config.now.filtering f →
        IfOk result (AreBaseSums survey.now.l.now.profile f survey.now.config.now
        survey.now.column survey.now.counted.now.sums) }
    ensures fits { IfOk result (FitBase survey.now.counted.now.sums.names) }
{
    let counted = survey.counted;
    let compact = survey.l.profile.get();
    let kept = counted.kept.as_slice();
    let list = base_numbers(alloc, compact, kept)?;
    let chosen = list.as_slice();
    let tallies = chosen_tallies(rt, alloc, survey, chosen, gate)?;
    let whole = selected_sum(survey.l, &survey.config.presentation, survey.column, chosen);
    let numbers = counted.numbers.as_slice();
    let sums = sums_at(alloc, &tallies, numbers, whole);
    mem::drop(tallies);
    sums
}

// Those of the numbers whose samples carry the base's label.
fn base_numbers(alloc: Global, p: &Profile, numbers: &[u32]) -> Result<List<u32>, Memory>
    ensures { IfOk result (λ chosen. chosen ≡ filter (is_base_number p.now) numbers.now) }
{
    let mut chosen = List::new(alloc);
    for number in numbers {
        push_base(&mut chosen, p, *number)?;
    }
    Ok(chosen)
}

// Adds the number, if its sample carries the base's label.
fn push_base(chosen: &mut List<u32>, p: &Profile, number: u32) -> Result<(), Memory>
    ensures { IfOk result (λ _. chosen.new
        ≡ chosen.old ++ (if is_base_number p.now number then number ∷ [] else [])) }
{
    if is_base_number(p, number) {
        chosen.push(number)?;
    }
    Ok(())
}

fn is_base_number(p: &Profile, number: u32) -> bool
    ensures { result ≡ is_base_number p.now number }
{
    match p.sample.as_slice().get(number as usize) {
        None => false,
        Some(s) => is_base(p, s),
    }
}

// The tallies of the samples with these numbers, by the report's key numbers.
fn chosen_tallies<'x, R: Threads + Sync, G: Gate>(
    rt: &R,
    alloc: Global,
    survey: &'x Survey<'x>,
    chosen: &'x [u32],
    gate: &G,
) -> Result<Tallies, Memory>
    requires { AreRisingBetween 0 (length survey.now.l.now.profile.sample) chosen.now }
    ensures { IfOk result (λ tallies. HasTallies survey.now.l.now survey.now.v.now
        survey.now.config.now survey.now.column survey.now.counted.now.table.names chosen.now
        (tally_at tallies)) }
{
    let scope = Scope {
        l: survey.l,
        v: survey.v,
        config: survey.config,
        grouping: survey.config.grouping,
        filters: &survey.counted.filters,
        column: survey.column,
        table: &survey.counted.table,
        over: None,
        chosen: Some(chosen),
    };
    let sofar = count_all(rt, alloc, &scope, gate)?;
    Ok(sofar.tallies)
}

// The tallies of these key numbers as sums.
fn sums_at(
    alloc: Global,
    tallies: &Tallies,
    numbers: &[u64],
    whole: i64,
) -> Result<BaseSums, Memory>
    ensures { IfOk result (λ sums. sums ≡ record {
      flat = map (λ n. (tally_at tallies.now n).flat) numbers.now;
      cum = map (λ n. (tally_at tallies.now n).cum) numbers.now;
      whole = whole;
    }) }
{
    let mut flat = List::new(alloc);
    let mut cum = List::new(alloc);
    for number in numbers {
        push_tally(&mut flat, &mut cum, tally_of(tallies, *number))?;
    }
    Ok(BaseSums { flat, cum, whole })
}

fn push_tally(flat: &mut List<i64>, cum: &mut List<i64>, tally: Tally) -> Result<(), Memory>
    ensures flat { IfOk result (λ _. flat.new ≡ flat.old ++ tally.flat ∷ []) }
    ensures cum { IfOk result (λ _. cum.new ≡ cum.old ++ tally.cum ∷ []) }
{
    flat.push(tally.flat)?;
    cum.push(tally.cum)
}

/// The sum of the selected values of the samples that the filters leave.
pub fn counted_whole(survey: &Survey<'_>) -> i64
    ensures { (f : Finders) →
        HoldsFilters survey.now.l.now survey.now.v.now survey.now.config.now.filtering f → result
        ≡ selected_all survey.now.column survey.now.config.now.presentation.divide_by
        (filtered_samples survey.now.l.now.profile f survey.now.config.now.filtering
        survey.now.l.now.profile.sample) }
{
    let kept = survey.counted.kept.as_slice();
    selected_sum(survey.l, &survey.config.presentation, survey.column, kept)
}

// The sum of the selected values of the samples with these numbers.
fn selected_sum(
    l: &Loaded,
    presentation: &Presentation,
    column: Option<u32>,
    numbers: &[u32],
) -> i64
    requires fits { absolute_all column presentation.now.divide_by l.now.profile.sample < 2 ^ 63 }
    requires rising { AreRisingBetween 0 (length l.now.profile.sample) numbers.now }
    ensures value { result
        ≡ selected_all column presentation.now.divide_by (samples_at l.now.profile numbers.now) }
    ensures small { nat_abs result < 2 ^ 63 }
{
    let mut sum = 0;
    for number in numbers {
        let value = value_of(l, presentation, column, *number);
        sum = sum_of(sum, value);
    }
    sum
}

// The selected value of the sample with this number.
fn value_of(l: &Loaded, presentation: &Presentation, column: Option<u32>, number: u32) -> i64
    requires { number < length l.now.profile.sample }
    ensures { result ≡ selected column presentation.now.divide_by
        (slice_index_or l.now.profile.sample number no_sample) }
{
    let samples = l.profile.get().sample.as_slice();
    selected(l, &samples[number as usize], column, presentation.divide_by)
}

fn sum_of(sum: i64, value: i64) -> i64
    requires { nat_abs sum + nat_abs value < 2 ^ 63 }
    ensures { result ≡ sum +ℤ value }
{
    sum + value
}
