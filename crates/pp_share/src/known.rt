//! The entries of a table by their ids.
ghost use Rattle.std.specs.Prelude.{◌≡◌, ℕ, None, length, IfOk};
ghost use Rattle.std.specs.Bool.{OnTrue};
ghost use Rattle.pp_model.specs.Words.{first_repeated, AreNumbered};
ghost use Rattle.pp_share.specs.Ids.{known_id, place_id};
ghost use Rattle.pp_share.specs.Behind.{behind_id};

use crate::ids::Known;
use indexmap::IndexSet;
use pp_base::Memory;
use pp_keys::HashKeys;
use std::alloc::Global;

/// The ids of a table, of which none stands twice.
pub fn known_ids(alloc: Global, hash_keys: HashKeys, ids: &[u64]) -> Result<Known, Memory>
    requires { first_repeated ids.now ≡ None }
    ensures { IfOk result (λ known. (after : ℕ) → (id : ℕ) → behind_id after (length ids.now) (known_id known id)
        ≡ behind_id after (length ids.now) (place_id ids.now id)) }
{
    if are_in_place(ids) {
        return Ok(Known::InOrder);
    }
    let listed = listed_ids(alloc, hash_keys, ids)?;
    Ok(Known::KnownIds(listed))
}

// The ids as a set, in order.
fn listed_ids(
    alloc: Global,
    hash_keys: HashKeys,
    ids: &[u64],
) -> Result<IndexSet<u64, HashKeys>, Memory>
    requires { first_repeated ids.now ≡ None }
    ensures { IfOk result (λ listed. listed.keys ≡ ids.now) }
{
    let mut listed = IndexSet::with_capacity_and_hasher(alloc, ids.len(), hash_keys)?;
    for id in ids {
        listed.insert_full(*id)?;
    }
    Ok(listed)
}

/// Whether each id is its place plus 1.
pub fn are_in_place(ids: &[u64]) -> bool
    ensures { OnTrue result (AreNumbered ids.now) }
{
    for (place, id) in ids.iter().enumerate() {
        if *id == 0 || *id - 1 != place as u64 {
            return false;
        }
    }
    true
}
