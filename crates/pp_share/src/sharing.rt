//! A profile with each thing once, in the order of a walk over its samples.
ghost use Rattle.std.specs.Prelude.{◌≡◌, ℕ, ◌-◌, ◌^◌, ◌<◌, ◌≤◌, nat_abs, length, map, All, IfOk, IfSome, OnOk};
ghost use Rattle.std.specs.List.{filter, list_all, sum_by};
ghost use Rattle.pp_model.specs.Sizes.{value_in};
ghost use Rattle.pp_share.specs.Placed.{gist, totalled};
ghost use Rattle.pp_share.specs.Renumbered.{NewIds, new_ids, renumbered_sample};
ghost use Rattle.pp_model.specs.FirstSight.{ids};
ghost use Rattle.pp_share.specs.Ids.{GivesIds};
ghost use Rattle.pp_share.specs.Hashes.{AreHashes, AreOwnHashes, with_new_samples, with_sums};
ghost use Rattle.pp_share.specs.Repeats.{FindsBelow, IsPair};
ghost use Rattle.pp_share.specs.Sums.{CanSum};
ghost use Rattle.pp_share.specs.PlaceKeys.{same_place};
ghost use Rattle.pp_share.specs.SampleKeys.{has_values};
ghost use Rattle.pp_share.specs.Shared.{distant_locations, with_shared_functions, with_shared_places};
ghost use Rattle.pp_share.specs.Written.{written};
ghost use Rattle.pp_share.specs.Share.{IsJoined, with_comments_once, with_tables_once};

use crate::first_sight::number_each;
use crate::functions::share_functions;
use crate::hashes::{Hashes, hash_samples, hash_samples_on};
use crate::ids::Ids;
use crate::kept::kept_hashes;
use crate::lanes::Alone;
use crate::places::share_places;
use crate::renumbering::Renumbering;
use crate::repeats::{Repeat, find_repeats, find_repeats_on};
use crate::samples::{add_repeats, counting};
use crate::texts::share_texts;
use crate::write::write;
use pp_base::{List, Memory};
use pp_keys::HashKeys;
use pp_model::{Profile, Sample};
use pp_steal::Resources;
use std::alloc::Global;
use std::mem;
use std::thread::Threads;

/// What the profile says, with equal samples added up, and those without any value left out, written anew. Its
/// references are by place.
pub fn share(alloc: Global, hash_keys: HashKeys, p: Profile) -> Result<Profile, Memory>
    requires joined { IsJoined p }
    requires wide { All (λ s. length s.value ≡ length p.sample_type) p.sample }
    requires fits { (column : ℕ) → column < length p.sample_type
        → sum_by (λ s. nat_abs (value_in s column)) p.sample ≤ 2 ^ 63 - 1 }
    ensures { IfOk result (λ r. r ≡ written (totalled (length p.sample_type) (gist p))) }
{
    let (mut profile, by) = share_tables(alloc, hash_keys, p)?;
    sum_plain(alloc, &mut profile, &by)?;
    let written = write(alloc, hash_keys, &Alone, profile, &by);
    mem::drop(by);
    written
}

/// The profile that `share` gives, made by `with.workers` lanes. It does not tell how many there were. `known` are the
/// hashes of the samples by the ids that they have, if they are known. They serve where no text and no location gets
/// another id. Else the samples are hashed anew, in pieces of 1,024.
pub fn share_on<R: Threads + Sync>(
    with: &Resources<'_, R>,
    p: Profile,
    known: Option<Hashes>,
) -> Result<Profile, Memory>
    requires joined { IsJoined p }
    requires wide { All (λ s. length s.value ≡ length p.sample_type) p.sample }
    requires fits { (column : ℕ) → column < length p.sample_type
        → sum_by (λ s. nat_abs (value_in s column)) p.sample ≤ 2 ^ 63 - 1 }
    requires known { IfSome known (AreOwnHashes p.sample) }
    ensures { IfOk result (λ r. r ≡ written (totalled (length p.sample_type) (gist p))) }
{
    let (mut profile, by) = share_tables(with.alloc, with.keys, p)?;
    let samples = profile.sample.as_slice();
    let hashes = hashes_for(with, samples, &by, known)?;
    sum_hashed_on(with, &mut profile, &by, &hashes)?;
    let written = write(with.alloc, with.keys, with, profile, &by);
    mem::drop(by);
    written
}

// The profile with each entry of its tables once, and what the references of its samples become. The samples stay: they
// are many, so they get new texts and new locations at once.
fn share_tables(
    alloc: Global,
    hash_keys: HashKeys,
    p: Profile,
) -> Result<(Profile, Renumbering), Memory>
    requires { IsJoined p }
    ensures tables { IfOk result (λ r. r.0 ≡ record (with_tables_once p) { sample = p.sample }) }
    ensures samples { IfOk result (λ r.
        map (renumbered_sample (new_ids r.1)) p.sample ≡ (with_tables_once p).sample) }
    ensures few { OnOk result (length p.text < 2 ^ 62) }
{
    let (worded, text) = share_texts(alloc, hash_keys, p)?;
    let (profile, location) = share_entries(alloc, hash_keys, worded)?;
    let by = Renumbering {
        text,
        mapping: Ids::Same,
        function: Ids::Same,
        location,
    };
    Ok((profile, by))
}

// The profile, whose texts stand once, with each comment, function, mapping and location once, and what the ids of
// locations become.
fn share_entries(alloc: Global, hash_keys: HashKeys, p: Profile) -> Result<(Profile, Ids), Memory>
    ensures tables { IfOk result (λ r.
        r.0 ≡ record (with_shared_places (with_shared_functions (with_comments_once p))) { sample = p.sample }) }
    ensures ids { IfOk result (λ r. GivesIds (length p.location) r.1
        (ids same_place (distant_locations (with_shared_functions (with_comments_once p))))) }
{
    let noted = share_comments(alloc, hash_keys, p)?;
    let called = share_functions(alloc, hash_keys, noted)?;
    share_places(alloc, hash_keys, called)
}

// The hashes of the samples with their new ids: the known ones where they serve, or new ones.
fn hashes_for<R: Threads + Sync>(
    with: &Resources<'_, R>,
    samples: &[Sample],
    by: &Renumbering,
    known: Option<Hashes>,
) -> Result<Hashes, Memory>
    requires { IfSome known (AreOwnHashes samples.now) }
    ensures { IfOk result (AreHashes (new_ids by.now) samples.now) }
{
    match kept_hashes(known, samples, by) {
        Some(hashes) => Ok(hashes),
        None => hash_samples_on(with, samples, by),
    }
}

// Adds up the samples that are equal once they have their new ids, and leaves out those without any value. The others
// keep the ids that they have.
fn sum_plain(alloc: Global, p: &mut Profile, by: &Renumbering) -> Result<(), Memory>
    requires { CanSum (length p.old.sample_type) p.old.sample }
    ensures { OnOk result (with_new_samples (new_ids by.now) p.new ≡ with_sums (new_ids by.now) p.old) }
{
    let hashes = hash_samples(alloc, p.sample.as_slice(), by)?;
    let repeats = find_repeats(alloc, by, &hashes.list, p.sample.as_slice())?;
    sum_repeats(alloc, p, &repeats, hashes.have_values);
    Ok(())
}

// Does what `sum_plain` does, where the hashes are known. `with.workers` lanes look for equal samples.
fn sum_hashed_on<R: Threads + Sync>(
    with: &Resources<'_, R>,
    p: &mut Profile,
    by: &Renumbering,
    hashes: &Hashes,
) -> Result<(), Memory>
    requires sums { CanSum (length p.old.sample_type) p.old.sample }
    requires hashes { AreHashes (new_ids by.now) p.old.sample hashes.now }
    ensures { OnOk result (with_new_samples (new_ids by.now) p.new ≡ with_sums (new_ids by.now) p.old) }
{
    let repeats = find_repeats_on(with, by, &hashes.list, p.sample.as_slice())?;
    sum_repeats(with.alloc, p, &repeats, hashes.have_values);
    Ok(())
}

// Adds each repeat to the first of its kind, and leaves out the samples without any value. Most profiles have each
// sample once, and each with a value: then the samples are not gone through.
fn sum_repeats(alloc: Global, p: &mut Profile, repeats: &[Repeat], have_values: bool)
    requires sums { CanSum (length p.old.sample_type) p.old.sample }
    requires values { have_values ≡ list_all has_values p.old.sample }
    requires pairs { All (IsPair (length p.old.sample)) repeats.now }
    ensures { (by : NewIds) → FindsBelow by p.old.sample 8 repeats.now
        → with_new_samples by p.new ≡ with_sums by p.old }
{
    let mut samples = mem::replace(&mut p.sample, List::new(alloc));
    add_repeats(alloc, &mut samples, repeats);
    p.sample = counting(samples, have_values && repeats.is_empty());
}

// The profile, whose texts stand once, with each comment once.
fn share_comments(alloc: Global, hash_keys: HashKeys, mut p: Profile) -> Result<Profile, Memory>
    ensures { IfOk result (λ r. r ≡ with_comments_once p) }
{
    let comments = mem::replace(&mut p.comment, List::new(alloc));
    let (kept, _) = number_each(alloc, hash_keys, comments.into_vec())?;
    p.comment = List::from_vec(kept);
    Ok(p)
}
