//! The pairs of callers and callees in a sample's keys.
ghost use Rattle.std.specs.Prelude.{◌≡◌, ◌++◌, ◌<◌, ◌^◌, [], not, ◌==◌, ◌&&◌, ◌||◌, length, IfOk, Some};
ghost use Rattle.std.specs.List.{filter};
ghost use Rattle.std.specs.Option.{ForSome};
ghost use Rattle.pp_count.specs.Column.{first_else};
ghost use Rattle.pp_count.specs.Edges.{pair_place, is_marked, has_mark, pair_between, pairs_of, HasPairPlaces};

use pp_base::{List, Memory};

/// The keys that pairs are counted over.
#[derive(Drop)]
pub struct Pairing {
    /// For each key number, the key's place among these keys. None where it isn't one of them.
    pub place: List<Option<u32>>,
    /// For each of these keys, by its place, whether it is marked. Pairs of two keys that aren't are left out.
    pub marked: List<bool>,
}

/// The pairs of a sample's keys, leaf first, over the keys that have a place: those with a marked end. A pair of the
/// places `caller` and `callee` has the number `caller * marked.len() + callee`.
pub fn gather_pairs(pairs: &mut Vec<u64>, keys: &[u64], over: &Pairing) -> Result<(), Memory>
    requires { HasPairPlaces over.now }
    ensures { IfOk result (λ _. pairs.new.items ≡ pairs_of over.now keys.now) }
{
    pairs.clear();
    let marked = over.marked.as_slice();
    let mut under = None;
    for key in keys {
        let place = pair_place(over, *key);
        push_between(pairs, place, under, marked)?;
        under = first_else(place, under);
    }
    Ok(())
}

// The key's place.
fn pair_place(over: &Pairing, key: u64) -> Option<u32>
    ensures { result ≡ pair_place over.now key }
{
    match over.place.as_slice().get(key as usize) {
        None => None,
        Some(place) => *place,
    }
}

fn first_else(first: Option<u32>, other: Option<u32>) -> Option<u32>
    ensures { result ≡ first_else first other }
{
    match first {
        None => other,
        Some(first) => Some(first),
    }
}

// Adds the pair of the places, where there are both, unless they are the same or neither is marked.
fn push_between(
    pairs: &mut Vec<u64>,
    caller: Option<u32>,
    callee: Option<u32>,
    marked: &[bool],
) -> Result<(), Memory>
    requires few { length marked.now < 2 ^ 32 }
    requires caller { ForSome caller (λ a. a < length marked.now) }
    requires callee { ForSome callee (λ b. b < length marked.now) }
    ensures { IfOk result (λ _. pairs.new.items ≡ pairs.old.items
        ++ filter (has_mark marked.now) (pair_between (length marked.now) caller callee)) }
{
    match caller {
        None => Ok(()),
        Some(caller) => push_pair(pairs, caller, callee, marked),
    }
}

fn push_pair(
    pairs: &mut Vec<u64>,
    caller: u32,
    callee: Option<u32>,
    marked: &[bool],
) -> Result<(), Memory>
    requires few { length marked.now < 2 ^ 32 }
    requires caller { caller < length marked.now }
    requires callee { ForSome callee (λ b. b < length marked.now) }
    ensures { IfOk result (λ _. pairs.new.items ≡ pairs.old.items
        ++ filter (has_mark marked.now) (pair_between (length marked.now) (Some caller) callee)) }
{
    let Some(callee) = callee else {
        return Ok(());
    };
    if is_counted(marked, caller, callee) {
        pairs.push(caller as u64 * marked.len() as u64 + callee as u64)?;
    }
    Ok(())
}

// Whether pairs of these places are counted.
fn is_counted(marked: &[bool], caller: u32, callee: u32) -> bool
    ensures { result ≡ (not (caller == callee)
        && (is_marked marked.now caller || is_marked marked.now callee)) }
{
    caller != callee
        && (is_marked(marked, u64::from(caller)) || is_marked(marked, u64::from(callee)))
}

/// Whether the entry of the number is true. A number past the end is not marked.
pub(crate) fn is_marked(marked: &[bool], number: u64) -> bool
    ensures { result ≡ is_marked marked.now number }
{
    match marked.get(number as usize) {
        None => false,
        Some(marked) => *marked,
    }
}
