//! Profiles one behind the other, as one.
ghost use Rattle.std.specs.Prelude.{◌≡◌, ℕ, ◌+◌, ◌<◌, ◌^◌, ◌++◌, None, length, map, IfOk, OnOk};
ghost use Rattle.std.specs.Bool.{OnTrue};
ghost use Rattle.std.specs.List.{AllByRecursion};
ghost use Rattle.pp_model.specs.Words.{NoRuleFails, AreNumbered, first_repeated};
ghost use Rattle.pp_share.specs.Behind.{behind_id};
ghost use Rattle.pp_share.specs.Ids.{known_id, place_id};
ghost use Rattle.pp_share.specs.Renumbered.{new_ids};
ghost use Rattle.pp_merge.specs.Joined.{behind_ids, moved_behind, chained, with_header_of, with_tables_of, first_text, no_sizes, sizes_of, joined, AreFew, IsInPlace};
ghost use Rattle.pp_share.specs.Header.{greater, earlier};

use pp_base::{List, Memory};
use pp_keys::HashKeys;
use pp_model::{HasId, Profile, Valid, text_of};
use pp_share::{Behind, Ids, Known, Renumbering, known_ids, renumber};
use std::alloc::Global;
use std::mem;

/// The profiles as one, each behind those before it: their tables and comments one after the other, and the header by
/// the rules of merging, but for the duration, which stays the first one's. References are by place.
pub fn join(
    alloc: Global,
    hash_keys: HashKeys,
    first: Valid,
    others: Vec<Valid>,
) -> Result<Profile, Memory>
    ensures same { IfOk result (λ r. r ≡ joined first others.items) }
    ensures few { IfOk result (λ r. length r.text < 2 ^ 62) }
    ensures first { IfOk result (λ r. NoRuleFails first) }
    ensures others { IfOk result (λ r. AllByRecursion NoRuleFails others.items) }
{
    let start = first.into_profile();
    let mut joined = first_joined(alloc, hash_keys, start)?;
    for valid in others {
        let p = valid.into_profile();
        let next = joined_behind(alloc, hash_keys, joined, p)?;
        joined = next;
    }
    // A table fits in memory.
    let _sizes = sizes_of(&joined);
    Ok(joined)
}

// The profile as the first one. Samples name many locations, so they are not gone through where all references are by
// place already, as most writers leave them.
#[tactic(auto, using(crate::proofs::InPlace::stays_in_place))]
fn first_joined(alloc: Global, hash_keys: HashKeys, p: Profile) -> Result<Profile, Memory>
    requires { NoRuleFails p }
    ensures { IfOk result (λ r. r ≡ moved_behind no_sizes p) }
{
    if is_in_place(&p) {
        return Ok(p);
    }
    let sizes = no_sizes();
    let moved = moved_behind(alloc, hash_keys, &sizes, p)?;
    Ok(moved)
}

/// Whether all references are by place as they stand.
pub(crate) fn is_in_place(p: &Profile) -> bool
    ensures { OnTrue result (IsInPlace p.now) }
{
    // A table fits in memory.
    let _sizes = sizes_of(p);
    are_in_place(p.mapping.as_slice())
        && are_in_place(p.function.as_slice())
        && are_in_place(p.location.as_slice())
}

// Whether the id of each entry is its place plus 1.
fn are_in_place<T: HasId>(items: &[T]) -> bool
    ensures { OnTrue result (AreNumbered (map T.id_of items.now)) }
{
    for (place, item) in items.iter().enumerate() {
        let id = item.id();
        if id == 0 || id - 1 != place as u64 {
            return false;
        }
    }
    true
}

// The profile behind others.
fn joined_behind(
    alloc: Global,
    hash_keys: HashKeys,
    joined: Profile,
    p: Profile,
) -> Result<Profile, Memory>
    requires { NoRuleFails p }
    ensures { IfOk result (λ r. r ≡ chained joined (moved_behind (sizes_of joined) p)) }
{
    let sizes = sizes_of(&joined);
    let moved = moved_behind(alloc, hash_keys, &sizes, p)?;
    let both = chain(alloc, joined, moved)?;
    Ok(both)
}

// How many entries the tables have.
#[derive(Clone, Copy, Debug)]
struct Sizes {
    text: usize,
    mapping: usize,
    function: usize,
    location: usize,
}

fn no_sizes() -> Sizes
    ensures same { result ≡ no_sizes }
    ensures few { AreFew result }
{
    Sizes {
        text: 0,
        mapping: 0,
        function: 0,
        location: 0,
    }
}

fn sizes_of(p: &Profile) -> Sizes
    ensures same { result ≡ sizes_of p.now }
    ensures few { AreFew result }
{
    Sizes {
        text: p.text.as_slice().len(),
        mapping: p.mapping.as_slice().len(),
        function: p.function.as_slice().len(),
        location: p.location.as_slice().len(),
    }
}

// The profile with its references by place, as its tables stand behind tables of these sizes.
fn moved_behind(
    alloc: Global,
    hash_keys: HashKeys,
    after: &Sizes,
    mut p: Profile,
) -> Result<Profile, Memory>
    requires valid { NoRuleFails p }
    requires few { AreFew after.now }
    ensures { IfOk result (λ r. r ≡ moved_behind after.now p) }
{
    move_behind(alloc, hash_keys, after, &mut p)?;
    Ok(p)
}

// Gives the profile's references their places behind tables of these sizes.
fn move_behind(
    alloc: Global,
    hash_keys: HashKeys,
    after: &Sizes,
    p: &mut Profile,
) -> Result<(), Memory>
    requires valid { NoRuleFails p.old }
    requires few { AreFew after.now }
    ensures { OnOk result (p.new ≡ moved_behind after.now p.old) }
{
    let by = behind(alloc, hash_keys, after, p)?;
    renumber(p, &by);
    mem::drop(by);
    Ok(())
}

// What the profile's references become.
fn behind(
    alloc: Global,
    hash_keys: HashKeys,
    after: &Sizes,
    p: &Profile,
) -> Result<Renumbering, Memory>
    requires valid { NoRuleFails p.now }
    requires few { AreFew after.now }
    ensures { IfOk result (λ by. new_ids by ≡ behind_ids after.now p.now) }
{
    let texts = Behind::new(after.text, p.text.as_slice().len());
    let mappings = Behind::new(after.mapping, p.mapping.as_slice().len());
    let functions = Behind::new(after.function, p.function.as_slice().len());
    let locations = Behind::new(after.location, p.location.as_slice().len());
    let mapping = known_once(alloc, hash_keys, p.mapping.as_slice())?;
    let function = known_once(alloc, hash_keys, p.function.as_slice())?;
    let location = known_once(alloc, hash_keys, p.location.as_slice())?;
    Ok(Renumbering {
        text: Ids::Moved(Known::InOrder, texts),
        mapping: Ids::Moved(mapping, mappings),
        function: Ids::Moved(function, functions),
        location: Ids::Moved(location, locations),
    })
}

// How the entries of the table are found by their ids.
fn known_once<T: HasId>(alloc: Global, hash_keys: HashKeys, items: &[T]) -> Result<Known, Memory>
    requires { first_repeated (map T.id_of items.now) ≡ None }
    ensures { IfOk result (λ known. (after : ℕ) → (id : ℕ)
        → behind_id after (length (map T.id_of items.now)) (known_id known id)
        ≡ behind_id after (length (map T.id_of items.now)) (place_id (map T.id_of items.now) id)) }
{
    let ids = ids_of(alloc, items)?;
    known_ids(alloc, hash_keys, ids.as_slice())
}

// The ids of the entries, in order.
fn ids_of<T: HasId>(alloc: Global, items: &[T]) -> Result<Vec<u64>, Memory>
    ensures { IfOk result (λ ids. ids.items ≡ map T.id_of items.now) }
{
    let ids = items.iter().map(|item| item.id()).collect(alloc)?;
    Ok(ids)
}

// The tables of both, and the header of both.
fn chain(alloc: Global, mut joined: Profile, mut p: Profile) -> Result<Profile, Memory>
    ensures { IfOk result (λ r. r ≡ chained joined p) }
{
    chain_header(&mut joined, &p);
    chain_tables(alloc, &mut joined, &mut p)?;
    Ok(joined)
}

// Moves the other profile's tables behind those of the first.
fn chain_tables(alloc: Global, joined: &mut Profile, p: &mut Profile) -> Result<(), Memory>
    ensures { OnOk result (joined.new ≡ with_tables_of joined.old p.old) }
{
    chain_list(alloc, &mut joined.sample, &mut p.sample)?;
    chain_list(alloc, &mut joined.mapping, &mut p.mapping)?;
    chain_list(alloc, &mut joined.location, &mut p.location)?;
    chain_list(alloc, &mut joined.function, &mut p.function)?;
    chain_list(alloc, &mut joined.text, &mut p.text)?;
    chain_list(alloc, &mut joined.comment, &mut p.comment)
}

// Moves the other items to the end.
fn chain_list<T: Drop>(
    alloc: Global,
    items: &mut List<T>,
    others: &mut List<T>,
) -> Result<(), Memory>
    ensures { OnOk result (items.new ≡ items.old ++ others.old) }
{
    items.append(mem::replace(others, List::new(alloc)))
}

// The header of both.
fn chain_header(joined: &mut Profile, p: &Profile)
    ensures { joined.new ≡ with_header_of joined.old p.now }
{
    let default_sample_type = first_text(joined, joined.default_sample_type, p.default_sample_type);
    let doc_url = first_text(joined, joined.doc_url, p.doc_url);
    set(&mut joined.default_sample_type, default_sample_type);
    set(&mut joined.doc_url, doc_url);
    keep_earlier(&mut joined.time_nanos, p.time_nanos);
    keep_greater(&mut joined.period, p.period);
}

// The index of the text in the profile where that isn't empty, and else the other index.
fn first_text(p: &Profile, index: i64, other: i64) -> i64
    ensures { result ≡ first_text p.now index other }
{
    if text_of(p, index).is_empty() {
        other
    } else {
        index
    }
}

/// Sets the number.
pub fn set(number: &mut i64, value: i64)
    ensures { number.new ≡ value }
{
    *number = value;
}

// Keeps the greater number.
fn keep_greater(number: &mut i64, other: i64)
    ensures { number.new ≡ greater number.old other }
{
    if *number < other {
        *number = other;
    }
}

// Keeps the lesser number, where 0 stands for none.
fn keep_earlier(number: &mut i64, other: i64)
    ensures { number.new ≡ earlier number.old other }
{
    if *number == 0 || other != 0 && other < *number {
        *number = other;
    }
}
