//! Tags in order of first sight, with the sums over the samples that have them.
ghost use Rattle.std.specs.Prelude.{◌≡◌, ◌<◌, List, [], ◌∷◌, ◌++◌, length, slice_index_or, IfOk, OnOk};
ghost use Rattle.pp_model.specs.FirstSight.{seen_with, place_of};
ghost use Rattle.pp_samples.specs.TagLines.{same_tag};
ghost use Rattle.pp_samples.specs.Names.{name_texts};
ghost use Rattle.pp_samples.specs.Tables.{Event, credited_event, no_tag_sum, Padded, Credits, IsTableOf, AreSmall, Fits};
ghost use Rattle.pp_samples.specs.Places.{IsEven};

use crate::tag_name::TagName;
use crate::tag_names::TagNames;
use pp_base::Memory;
use pp_keys::HashKeys;
use std::alloc::Global;

/// What the samples come to that have a tag.
#[derive(Clone, Copy, Debug)]
pub struct TagSum {
    /// The sum of their values.
    pub sum: i64,
    /// The sum of their absolute values.
    pub size: u64,
    /// The turn of the last of them, 0 where there is none.
    pub last: u64,
}

impl TagSum {
    /// No sample has the tag.
    pub const NONE: TagSum = TagSum {
        sum: 0,
        size: 0,
        last: 0,
    };
}

/// Tags with their sums.
#[derive(Drop)]
pub struct TagTable<'a> {
    /// The tags, by number.
    pub names: TagNames<'a>,
    /// By a tag's number, what its samples come to.
    pub sums: Vec<TagSum>,
}

/// A table without tags.
pub fn no_tags<'a>(alloc: Global, hash_keys: HashKeys) -> Result<TagTable<'a>, Memory>
    ensures even { IfOk result IsEven }
    ensures table { IfOk result (λ table. IsTableOf [] table) }
{
    Ok(TagTable {
        names: TagNames::new(alloc, hash_keys)?,
        sums: Vec::new(alloc),
    })
}

/// Adds the value of the sample of this turn to the sum of the tag, once, and gives the tag's number. A tag that is new
/// gets the next one.
pub fn add_tag<'a>(
    table: &mut TagTable<'a>,
    name: TagName<'a>,
    value: i64,
    turn: u64,
) -> Result<u64, Memory>
    requires { IsEven table.old }
    ensures even { OnOk result (IsEven table.new) }
    ensures number { IfOk result (λ n. n ≡ place_of same_tag table.old.names (name_texts name.entry)) }
    ensures names { OnOk result (table.new.names ≡ seen_with same_tag table.old.names (name_texts name.entry)) }
    ensures table { (events : List Event) → (e : Event) → e.tag ≡ name_texts name.entry → e.value ≡ value →
        e.turn ≡ turn → IsTableOf events table.old → AreSmall (events ++ e ∷ []) →
        OnOk result (IsTableOf (events ++ e ∷ []) table.new) }
{
    let n = table.names.number(name)?;
    make_room(&mut table.sums, n as usize)?;
    credit(&mut table.sums, n as usize, value, turn);
    Ok(n)
}

/// Adds the value of the sample of this turn to the sum of the tag with the number, once.
pub fn add_known(table: &mut TagTable<'_>, n: u64, value: i64, turn: u64)
    requires even { IsEven table.old }
    requires known { n < length table.old.names }
    ensures even { IsEven table.new }
    ensures names { table.new.names ≡ table.old.names }
    ensures table { (events : List Event) → (e : Event) → e.value ≡ value → e.turn ≡ turn →
        n ≡ place_of same_tag table.old.names e.tag → IsTableOf events table.old →
        AreSmall (events ++ e ∷ []) → IsTableOf (events ++ e ∷ []) table.new }
{
    credit(&mut table.sums, n as usize, value, turn);
}

// Room for a sum at this place, which is at most the first one that there is none at.
fn make_room(sums: &mut Vec<TagSum>, place: usize) -> Result<(), Memory>
    ensures { OnOk result (Padded sums.old.items sums.new.items place) }
{
    if place < sums.len() {
        return Ok(());
    }
    sums.push(TagSum::NONE)?;
    Ok(())
}

// Adds the value of the sample of this turn to the sum at the place.
fn credit(sums: &mut Vec<TagSum>, place: usize, value: i64, turn: u64)
    requires { place < length sums.old.items }
    ensures count { length sums.new.items ≡ length sums.old.items }
    ensures credits { (e : Event) → e.value ≡ value → e.turn ≡ turn →
        Fits (slice_index_or sums.old.items place no_tag_sum) e →
        Credits sums.old.items place e sums.new.items }
{
    sums[place] = credited(sums[place], value, turn);
}

// The sum with the value of the sample of this turn. It fits wherever the column's values can be added up.
fn credited(sum: TagSum, value: i64, turn: u64) -> TagSum
    ensures { (e : Event) → e.value ≡ value → e.turn ≡ turn → Fits sum e → result ≡ credited_event sum e }
{
    if sum.last == turn {
        return sum;
    }
    TagSum {
        sum: sum.sum.saturating_add(value),
        size: sum.size.saturating_add(value.unsigned_abs()),
        last: turn,
    }
}
