//! Callers and callees account for a key.
ghost use Rattle.pp_sums.specs.Callers.{EdgesAccount};

// What would break it: a `has_edge` (pp_count, `EdgeSums`) that joins frames that do not stand side by side, or that
// counts a key as its own caller.
/// The cum of a key is the sum of the edges from its callers and of the samples that it is the root of. It is also the
/// sum of the edges to its callees and of its flat.
///
/// Premises: each key is kept, as in a graph that isn't trimmed. In no sample does the key call itself by way of
/// another key, as f does in the stack f, g, f, main, leaf first. That sample is in the edges from g and main, but only
/// once in the cum of f. A key that calls itself directly is no trouble. Values may have either sign.
pub fn edges_account_for_keys()
    ensures { EdgesAccount }
{}
