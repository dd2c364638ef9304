//! The law of the account report.
ghost use Rattle.pp_laws.specs.Accounts.{SamplesAddUp, OthersDropNone, NodesAddUp, ValuesAddUp};

// What would break it: a filter that is asked before the one in front of it, or a sample that two filters are said to
// drop. Also a limit that is applied before the keys that are too light are left out.
/// The rows of an account add up.
///
/// `samples`: what each filter is the first to drop, and what the filters leave, add up to all samples, in number and
/// value. `others`: a filter without a row drops none. `nodes`: the keys that are too light, past the limit and shown
/// add up to all keys, in number and flat. `values`: the value of `counted` and that of `left without a frame` add up
/// to that of `left`. No premise: it holds of every profile, for values of either sign.
pub fn accounts_add_up()
    ensures samples { SamplesAddUp }
    ensures others { OthersDropNone }
    ensures nodes { NodesAddUp }
    ensures values { ValuesAddUp }
{}
