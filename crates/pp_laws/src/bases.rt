//! A difference is a difference.
ghost use Rattle.pp_laws.specs.Bases.{BasesSubtract, LabelledBasesSubtract, NothingIsLeft};

// What would break it: a `negated` (pp_merge, `Scale`) that leaves the least value as it is. Or a `counts` (pp_merge,
// `Sums`) that keeps a sample whose values are all 0.
/// Flat, cum and edge of each key in a profile less a base are the profile's less the base's, each reported alone. A
/// profile less itself has no sample, so no report of it has a key.
///
/// Premises: those of `merged_reports_are_sums` for the differences. `differences` speaks of a `-base` and `labelled`
/// of a `-diff_base`, whose samples carry a label: no table rule fails of it, and no tag filter is in force, which
/// would see the label. `itself` needs a value for each type in each sample, and speaks of `-base` alone: labelled
/// samples stay apart from those of the source.
pub fn differences_are_differences()
    ensures differences { BasesSubtract }
    ensures labelled { LabelledBasesSubtract }
    ensures itself { NothingIsLeft }
{}
