//! The keys of labels, each with the table of its own tags.
ghost use Rattle.std.specs.Prelude.{◌≡◌, ◌<◌, [], ◌∷◌, ◌++◌, length, IfOk, OnOk, List};
ghost use Rattle.pp_samples.specs.Names.{name_texts, key_tag};
ghost use Rattle.pp_samples.specs.Tables.{Event, AreKeys, Roomed, AddsAt, AreSmall};
ghost use Rattle.pp_samples.specs.Places.{AreEven, EachEven, Renames, IsPlaceIn, HasTagPlace, KeepsTagPlaces};

use crate::tag_name::TagName;
use crate::tag_table::{TagTable, add_known, add_tag, no_tags};
use pp_base::Memory;
use pp_keys::HashKeys;
use std::alloc::Global;

/// Keys with their sums, and by a key's number the table of its tags.
#[derive(Drop)]
pub struct TagKeyTable<'a> {
    /// The keys of labels, by number.
    pub keys: TagTable<'a>,
    /// By a key's number, its tags.
    pub tags: Vec<TagTable<'a>>,
}

/// Where a tag stands.
#[derive(Clone, Copy, Debug)]
pub struct TagPlace {
    /// The number of its key.
    pub key: u64,
    /// Its number in the table of the key.
    pub tag: u64,
}

/// A table without keys.
pub fn no_keys<'a>(alloc: Global, hash_keys: HashKeys) -> Result<TagKeyTable<'a>, Memory>
    ensures even { IfOk result AreEven }
    ensures keys { IfOk result (λ keys. AreKeys [] keys) }
{
    Ok(TagKeyTable {
        keys: no_tags(alloc, hash_keys)?,
        tags: Vec::new(alloc),
    })
}

/// Adds the value of the sample of this turn to the sums of the tag and of its key, to each once. Gives the tag's
/// place. Known tags keep theirs.
pub fn add_label<'a>(
    alloc: Global,
    keys: &mut TagKeyTable<'a>,
    key: TagName<'a>,
    tag: TagName<'a>,
    value: i64,
    turn: u64,
) -> Result<TagPlace, Memory>
    requires same { name_texts key ≡ key_tag (name_texts tag).key }
    requires even { AreEven keys.old }
    ensures even { OnOk result (AreEven keys.new) }
    ensures place { IfOk result (HasTagPlace keys.new (name_texts tag.entry)) }
    ensures kept { OnOk result (KeepsTagPlaces keys.old keys.new) }
    ensures keys { (events : List Event) → (e : Event) → e.tag ≡ name_texts tag.entry → e.value ≡ value →
        e.turn ≡ turn → AreKeys events keys.old → AreSmall (events ++ e ∷ []) →
        OnOk result (AreKeys (events ++ e ∷ []) keys.new) }
{
    let k = add_tag(&mut keys.keys, key, value, turn)?;
    let hash_keys = keys.keys.names.hash_keys();
    make_room(alloc, hash_keys, &mut keys.tags, k as usize)?;
    let t = add_at(&mut keys.tags, k as usize, tag, value, turn)?;
    Ok(TagPlace { key: k, tag: t })
}

/// Adds the value of the sample of this turn to the sums of a tag that has this place, and of its key.
pub fn add_known_label(keys: &mut TagKeyTable<'_>, place: TagPlace, value: i64, turn: u64)
    requires even { AreEven keys.old }
    requires inside { IsPlaceIn keys.old place }
    ensures even { AreEven keys.new }
    ensures kept { KeepsTagPlaces keys.old keys.new }
    ensures keys { (events : List Event) → (e : Event) → e.value ≡ value → e.turn ≡ turn →
        HasTagPlace keys.old e.tag place → AreKeys events keys.old → AreSmall (events ++ e ∷ []) →
        AreKeys (events ++ e ∷ []) keys.new }
{
    add_known(&mut keys.keys, place.key, value, turn);
    add_known(&mut keys.tags[place.key as usize], place.tag, value, turn);
}

// Room for a table at this place, which is at most the first one that there is none at.
fn make_room(
    alloc: Global,
    hash_keys: HashKeys,
    tables: &mut Vec<TagTable<'_>>,
    place: usize,
) -> Result<(), Memory>
    ensures even { EachEven tables.old.items → OnOk result (EachEven tables.new.items) }
    ensures room { OnOk result (Roomed tables.old.items tables.new.items place) }
{
    if place < tables.len() {
        return Ok(());
    }
    let empty = no_tags(alloc, hash_keys)?;
    tables.push(empty)?;
    Ok(())
}

// Adds the value of the sample of this turn to the sum of the tag in the table at the place. Gives the tag's number.
fn add_at<'a>(
    tables: &mut Vec<TagTable<'a>>,
    place: usize,
    tag: TagName<'a>,
    value: i64,
    turn: u64,
) -> Result<u64, Memory>
    requires even { EachEven tables.old.items }
    requires within { place < length tables.old.items }
    ensures number { IfOk result (λ t.
        Renames tables.old.items place (name_texts tag.entry) t tables.new.items) }
    ensures adds { (e : Event) → e.tag ≡ name_texts tag.entry → e.value ≡ value → e.turn ≡ turn →
        OnOk result (AddsAt tables.old.items place e tables.new.items) }
{
    let t = add_tag(&mut tables[place], tag, value, turn)?;
    Ok(t)
}
