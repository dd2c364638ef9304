//! Merged reports are sums.
ghost use Rattle.pp_laws.specs.Merged.{MergedAreSums};

// What would break it: a `same_sample` (pp_merge, `Alike`) that makes samples one whose stacks stand for different
// frames, or a `merged` whose locations lie elsewhere than their sources'.
/// Flat, cum and edge of each key in the merged profile are the sums of those in the reports of each source alone.
/// Keys are told apart by their texts and numbers.
///
/// Premises, `AddUp`: the sources have as many columns, and each sample a value for each. Each mapping keeps its file,
/// and where keys are addresses its start. A mapping that becomes one with that of another source takes over its file
/// and start. Names of objects, patterns on them and addresses may then change. Values are divided by 1, since a sum is
/// cut off once and its parts each. Values may have either sign.
pub fn merged_reports_are_sums()
    ensures { MergedAreSums }
{}
