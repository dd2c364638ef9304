//! Reports that look at nothing that is dropped stay the same.
ghost use Rattle.pp_aggregate.specs.Laws.{KeysStay, FramesAreLeft, SamplesStay, SumsStay, ColumnsStay, PatternsStay};

// What would break it: an `outermost` (`Aggregated`) that keeps another line of a location than the last, which is the
// one that `noinlines` counts. Or a key (pp_grain, `Keys`) that falls back to what its grain does not look at.
/// A report that looks at nothing that is dropped has the same samples by keys, and the same total. Its figures, edges
/// and rows are made of these alone.
///
/// Premises: no table rule fails. What keys of the grain look at is kept (`keeps_keys`), and where inlined frames are
/// dropped, the report is one with noinlines. No pattern on frames misses what is dropped (`FindsLeft`), and where
/// inlined frames are dropped, there is none. `patterns` says where that is so. `keys` speaks of stacks that no filter
/// cut, and needs nothing of patterns; `frames` holds at every grain. Values may have either sign.
pub fn coarser_reports_stay()
    ensures keys { KeysStay }
    ensures frames { FramesAreLeft }
    ensures samples { SamplesStay }
    ensures sums { SumsStay }
    ensures columns { ColumnsStay }
    ensures patterns { PatternsStay }
{}
