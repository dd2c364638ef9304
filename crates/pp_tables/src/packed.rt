//! The numbers of a packed list.
ghost use Rattle.std.specs.Prelude.{◌≡◌, ◌<◌, ◌≤◌, [], ◌++◌, take, IfOk, OnOk};
ghost use Rattle.pp_wire.specs.Fields.{numbers};
ghost use Rattle.pp_tables.specs.declared.packed.TheConstants.{ROW};
ghost use Rattle.pp_tables.specs.Takes.{TakesField};

use crate::ReadRefusal;
use pp_base::{List, Memory};
use pp_wire::Packed;
use std::alloc::Global;

/// How many numbers are read before they are added to their list. Most samples have no more locations.
const ROW: usize = 32;

/// A type of the numbers in a packed list.
pub(crate) trait Packable: Drop {
    ghost use Rattle.std.specs.Prelude.{◌≡◌, [], ◌++◌, ℕ, List, OnOk};

    /// The numbers that these varints stand for.
    ghost numbers: { List ℕ → List Self };

    /// Adds the numbers of these varints at the end.
    fn add(list: &mut List<Self>, varints: &[u64]) -> Result<(), Memory>
        ensures { OnOk result (list.new ≡ list.old ++ numbers varints.now) };

    ghost numbers_none: { numbers [] ≡ [] };

    ghost numbers_append: { (xs ys : List ℕ) → numbers (xs ++ ys) ≡ numbers xs ++ numbers ys };
}

impl Packable for u64 {
    ghost use Rattle.std.specs.Prelude.{refl};

    ghost numbers = { λ varints. varints };

    fn add(list: &mut List<u64>, varints: &[u64]) -> Result<(), Memory> {
        list.extend(varints)
    }

    ghost numbers_none = { refl };

    ghost numbers_append = { λ xs ys. refl };
}

impl Packable for i64 {
    ghost use Rattle.std.specs.Prelude.{map, refl};
    ghost use Rattle.std.proofs.lemmas.List.{map-append};
    ghost use Rattle.pp_tables.specs.Select.{signed};

    ghost numbers = { λ varints. map signed varints };

    fn add(list: &mut List<i64>, varints: &[u64]) -> Result<(), Memory> {
        for n in varints {
            list.push(n.cast_signed())?;
        }
        Ok(())
    }

    ghost numbers_none = { refl };

    ghost numbers_append = { λ xs ys. map-append signed xs ys };
}

/// Adds the numbers of a packed payload, of a field whose tag is at the place `at`.
pub(crate) fn push_packed<N: Packable>(
    alloc: Global,
    list: &mut List<N>,
    bytes: &[u8],
    at: u64,
) -> Result<(), ReadRefusal>
    ensures { TakesField result (numbers bytes.now at).fault
        (list.new ≡ list.old ++ N.numbers (numbers bytes.now at).items) }
{
    let mut packed = Packed::new(bytes, at);
    let mut row = [0u64; ROW];
    let mut count = 0;
    while let Some(next) = packed.next() {
        let place = next_place(alloc, list, &row, count, bytes)?;
        row[place] = next?;
        count = place + 1;
    }
    add_row(alloc, list, &row[..count], bytes)?;
    Ok(())
}

// Where the number at index `count` goes in the row. A full row is added to the list first.
fn next_place<N: Packable>(
    alloc: Global,
    list: &mut List<N>,
    row: &[u64; ROW],
    count: usize,
    bytes: &[u8],
) -> Result<usize, Memory>
    requires { count ≤ ROW }
    ensures within { IfOk result (λ place. place < ROW) }
    ensures kept { IfOk result (λ place. list.new ++ N.numbers (take place row.now)
        ≡ list.old ++ N.numbers (take count row.now)) }
{
    if count < ROW {
        return Ok(count);
    }
    add_row(alloc, list, row, bytes)?;
    Ok(0)
}

// Adds numbers of the payload at the end.
fn add_row<N: Packable>(
    alloc: Global,
    list: &mut List<N>,
    row: &[u64],
    bytes: &[u8],
) -> Result<(), Memory>
    ensures { OnOk result (list.new ≡ list.old ++ N.numbers row.now) }
{
    make_room(alloc, list, row, bytes)?;
    N::add(list, row)
}

// Makes room for all numbers in an empty list, and no more, since it is mostly filled once. The first row of several is
// full.
fn make_room<T: Drop>(
    alloc: Global,
    list: &mut List<T>,
    row: &[u64],
    bytes: &[u8],
) -> Result<(), Memory>
    ensures { OnOk result (list.new ≡ list.old) }
{
    if list.len() != 0 {
        return Ok(());
    }
    let room = if row.len() < ROW {
        row.len()
    } else {
        count_ends(bytes)
    };
    *list = with_room(alloc, room)?;
    Ok(())
}

/// An empty list with room for `count` items.
pub(crate) fn with_room<T>(alloc: Global, count: usize) -> Result<List<T>, Memory>
    ensures { IfOk result (λ list. list ≡ []) }
{
    Ok(List::from_vec(Vec::with_capacity(alloc, count)?))
}

// How many varints end in the bytes. It is a measure of room alone, so nothing is promised of it.
fn count_ends(bytes: &[u8]) -> usize {
    let mut count = 0usize;
    for byte in bytes {
        count = count.wrapping_add(usize::from(*byte < 128));
    }
    count
}
