//! What samples come to in each key.
ghost use Rattle.std.specs.Prelude.{◌≡◌};
ghost use Rattle.pp_source.specs.Ledgers.{tally_of_key};
ghost use Rattle.pp_source.specs.Tally.{amounts_of_tally};

use crate::amounts::Amounts;
use indexmap::IndexSet;
use pp_count::{Tallies, Tally, tally_of};
use pp_grain::Key;
use pp_keys::HashKeys;

/// Keys, and what samples come to in each.
#[derive(Drop)]
pub struct KeyTallies {
    /// The keys, by number.
    pub names: IndexSet<Key, HashKeys>,
    /// What each has, by number. One number more has what is none of them.
    pub sums: Tallies,
}

/// What the key comes to.
pub fn amounts_at(tallies: &KeyTallies, key: &Key) -> Amounts
    ensures { result ≡ amounts_of_tally (tally_of_key tallies.now key.now) }
{
    let tally = tally_at(tallies, key);
    Amounts {
        flat: tally.flat,
        cum: tally.cum,
    }
}

/// What is kept of the key.
pub fn tally_at(tallies: &KeyTallies, key: &Key) -> Tally
    ensures { result ≡ tally_of_key tallies.now key.now }
{
    match tallies.names.get_index_of(key) {
        None => Tally::NONE,
        Some(number) => tally_of(&tallies.sums, number as u64),
    }
}
