//! Several profiles become one.
ghost use Rattle.std.specs.Prelude.{◌≡◌, ◌+◌, ◌-◌, ◌<◌, ◌≤◌, ◌^◌, ◌∷◌, length, IfOk, IfErr, IfSome};
ghost use Rattle.std.specs.Bool.{OnTrue};
ghost use Rattle.std.specs.List.{AllByRecursion, sum_by};
ghost use Rattle.pp_merge.specs.Merge.{Merges, too_large};
ghost use Rattle.pp_merge.specs.Merging.{Admits, AreKnownAlone, CanMerge, IsShareable};
ghost use Rattle.pp_merge.specs.Together.{sum_of_all};
ghost use Rattle.pp_share.specs.Hashes.{AreOwnHashes};

use crate::compatible::first_disagreeing;
use crate::durations::total_duration;
use crate::join::{is_in_place, join, set};
use crate::refusal::MergeRefusal;
use crate::together::without_hashes;
use crate::totals::too_large_column;
use pp_base::{List, Memory};
use pp_keys::HashKeys;
use pp_model::{Compact, Profile, Valid};
use pp_share::{Hashed, Hashes, share, share_on};
use pp_steal::Resources;
use std::alloc::Global;
use std::thread::Threads;

/// The profiles as one. Functions, mappings, locations, samples and comments that are equal become one, in the order of
/// first sight. The values of equal samples are added up. What no sample with a value names is left out. The first
/// profile is refused whose types differ from those of the one at place 0. If there is none, it is the least column
/// whose absolute values add up to more than 2^63-1. The list is spent, also on a refusal.
///
/// The hash tables have the keys `hash_keys`, on which no answer depends.
pub fn merge(alloc: Global, hash_keys: HashKeys, list: List<Valid>) -> Result<Compact, MergeRefusal>
    requires some { 0 < length list }
    requires few { length list < 2 ^ 32 }

    // The refusal of a column has 32 bits for its place.
    requires columns { AllByRecursion (λ p. length p.sample_type < 2 ^ 32) list }
    requires samples { sum_by (λ p. length p.sample) list < 2 ^ 32 }
    ensures { Merges list result }
{
    let (first, others) = split(list);
    let (whole, _) = join_admitted(alloc, hash_keys, first, others, None, false)?;
    let shared = share(alloc, hash_keys, whole)?;
    Ok(Compact::claim(Valid::claim(shared)))
}

/// The profile or refusal of `merge`, for profiles whose samples are hashed. A profile that stands alone, with its
/// references by place, keeps its hashes. Else the samples are hashed anew, in pieces of 1,024 on `with.workers` lanes.
/// The answer does not tell how many there were.
pub fn merge_on<R: Threads + Sync>(
    with: &Resources<'_, R>,
    list: List<Hashed>,
) -> Result<Compact, MergeRefusal>
    requires some { 0 < length list }
    requires few { length list < 2 ^ 32 }
    requires columns { AllByRecursion (λ p. length p.sample_type < 2 ^ 32) list }
    requires samples { sum_by (λ p. length p.sample) list < 2 ^ 32 }
    ensures { Merges list result }
{
    let (hashed, behind) = split(list);
    let (first, hashes) = hashed.into_parts();
    let (others, together) = without_hashes(with.alloc, behind, hashes.together)?;
    let are_small = together <= i64::MAX as u64;
    let (whole, known) = join_admitted(
        with.alloc,
        with.keys,
        first,
        others,
        Some(hashes),
        are_small,
    )?;
    let shared = share_on(with, whole, known)?;
    Ok(Compact::claim(Valid::claim(shared)))
}

/// The profile or refusal of `merge`, for profiles whose samples are not hashed yet: they are hashed, sorted and placed
/// on `with.workers` lanes. The answer does not tell how many there were.
pub(crate) fn merge_plain_on<R: Threads + Sync>(
    with: &Resources<'_, R>,
    list: List<Valid>,
) -> Result<Compact, MergeRefusal>
    requires some { 0 < length list }
    requires few { length list < 2 ^ 32 }
    requires columns { AllByRecursion (λ p. length p.sample_type < 2 ^ 32) list }
    requires samples { sum_by (λ p. length p.sample) list < 2 ^ 32 }
    ensures { Merges list result }
{
    let (first, others) = split(list);
    let (whole, _) = join_admitted(with.alloc, with.keys, first, others, None, false)?;
    let shared = share_on(with, whole, None)?;
    Ok(Compact::claim(Valid::claim(shared)))
}

// The first of the profiles, and those behind it.
fn split<T: Drop>(list: List<T>) -> (T, Vec<T>)
    requires { 0 < length list }
    ensures { list ≡ result.0 ∷ result.1.items }
{
    let mut others = list.into_vec();
    let first = others.remove(0);
    (first, others)
}

// The duration of profiles that can be merged. No memory is needed to find out whether they can. Where all values are
// known to be small together, no column is added up.
fn admit(first: &Valid, others: &[Valid], are_small: bool) -> Result<i64, MergeRefusal>
    requires few { length others.now + 1 < 2 ^ 32 }
    requires columns { length first.now.sample_type < 2 ^ 32 }
    requires small { OnTrue are_small (sum_of_all (first.now ∷ others.now) ≤ 2 ^ 63 - 1) }
    ensures { Admits first.now others.now result }
{
    if let Some((source, what)) = first_disagreeing(first, others) {
        return Err(MergeRefusal::Incompatible { source, what });
    }
    if let Some(column) = large_column(first, others, are_small) {
        return Err(MergeRefusal::TotalTooLarge {
            column: column as u32,
        });
    }
    Ok(total_duration(first, others))
}

// The least column that is too large.
fn large_column(first: &Valid, others: &[Valid], are_small: bool) -> Option<usize>
    requires { OnTrue are_small (sum_of_all (first.now ∷ others.now) ≤ 2 ^ 63 - 1) }
    ensures least { result ≡ too_large (length first.now.sample_type) (first.now ∷ others.now) }
    ensures bound { IfSome result (λ column. column < length first.now.sample_type) }
{
    if are_small {
        return None;
    }
    too_large_column(first.get().sample_type.len(), first, others)
}

// The profiles one behind the other, with the duration of all, where they can be merged. The hashes of the first one's
// samples go with it where it stands alone, with its references by place.
fn join_admitted(
    alloc: Global,
    hash_keys: HashKeys,
    first: Valid,
    others: Vec<Valid>,
    hashes: Option<Hashes>,
    are_small: bool,
) -> Result<(Profile, Option<Hashes>), MergeRefusal>
    requires few { length others.items + 1 < 2 ^ 32 }
    requires columns { length first.sample_type < 2 ^ 32 }
    requires small { OnTrue are_small (sum_of_all (first ∷ others.items) ≤ 2 ^ 63 - 1) }
    requires hashes { IfSome hashes (AreOwnHashes first.sample) }
    ensures whole { IfOk result (λ r. IsShareable first others.items r.0) }
    ensures known { IfOk result (λ r. IfSome r.1 (AreOwnHashes r.0.sample)) }
    ensures refused { IfErr result (λ e. Merges (first ∷ others.items) (Err e)) }
{
    let duration = admit(&first, others.as_slice(), are_small)?;
    let joined = join_hashed(alloc, hash_keys, first, others, duration, hashes)?;
    Ok(joined)
}

// The profiles, which can be merged and have this duration together, one behind the other.
fn join_hashed(
    alloc: Global,
    hash_keys: HashKeys,
    first: Valid,
    others: Vec<Valid>,
    duration: i64,
    hashes: Option<Hashes>,
) -> Result<(Profile, Option<Hashes>), Memory>
    requires can { CanMerge first others.items duration }
    requires hashes { IfSome hashes (AreOwnHashes first.sample) }
    ensures whole { IfOk result (λ r. IsShareable first others.items r.0) }
    ensures known { IfOk result (λ r. IfSome r.1 (AreOwnHashes r.0.sample)) }
{
    let known = known_alone(&first, others.as_slice(), hashes);
    let joined = join(alloc, hash_keys, first, others)?;
    Ok((with_duration(joined, duration), known))
}

// The hashes of the first profile's samples, where it stands alone, with its references by place.
fn known_alone(first: &Valid, others: &[Valid], hashes: Option<Hashes>) -> Option<Hashes>
    requires { IfSome hashes (AreOwnHashes first.now.sample) }
    ensures { IfSome result (AreKnownAlone first.now others.now) }
{
    if others.is_empty() && is_in_place(first.get()) {
        hashes
    } else {
        None
    }
}

// The profile with this duration.
fn with_duration(mut p: Profile, duration: i64) -> Profile
    ensures { result ≡ record p { duration_nanos = duration } }
{
    set(&mut p.duration_nanos, duration);
    p
}
