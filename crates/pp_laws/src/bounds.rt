//! How large the figures of a report can be.
ghost use Rattle.pp_laws.specs.Bounds.{FiguresWithin, ValuesWithin, SharedKeys, PercentagesWithin, EdgesWithin};

// What would break it: a `cum` (pp_count, `Sums`) that counts a sample for each frame of its key and not once.
/// Flat is at least 0, no more than cum, and cum no more than the sum of the filtered samples' values, for every key.
///
/// Premise: no selected value of a filtered sample is negative. `values` says that so it is where no value of the
/// column is.
pub fn figures_are_within()
    ensures figures { FiguresWithin }
    ensures values { ValuesWithin }
{}

// What would break it: a `cum` (pp_count, `Sums`) that takes a part of a sample that has the key.
/// A key that all samples share has the sum of the filtered samples' values as its cum, as the root of all stacks has.
///
/// Premise: the key stands in each filtered sample whose value isn't 0. Values may have either sign.
pub fn shared_keys_are_whole()
    ensures { SharedKeys }
{}

// What would break it: a `total_of` (pp_count, `Counts`) over other samples than the figures are taken from.
/// No flat, cum or edge is further from 0 than the total that percentages are taken of.
///
/// Premise: no loaded sample carries the label `pprof::base` of the text `true`. With such samples the total is the
/// base's alone, and a percentage may pass 100. Values may have either sign.
pub fn percentages_are_within()
    ensures { PercentagesWithin }
{}

// What would break it: a `has_edge` (pp_count, `EdgeSums`) between keys that aren't kept, or an `edge_sum` that
// counts a sample as often as the pair occurs in it.
/// An edge is at least 0 and no heavier than the cum of its caller and that of its callee, whichever keys are kept.
///
/// Premise: no selected value of a filtered sample is negative.
pub fn edges_are_within()
    ensures { EdgesWithin }
{}
