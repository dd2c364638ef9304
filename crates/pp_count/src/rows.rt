//! Rows of key numbers, most of them of one number, in two flat lists.
ghost use Rattle.std.specs.Prelude.{◌≡◌, ◌∷◌, ◌++◌, ◌<◌, [], length, slice_index_or, IfOk};
ghost use Rattle.pp_base.specs.Front.{IsFront};
ghost use Rattle.pp_count.specs.Rows.{row_by, IsRowWithin};

use pp_base::{List, Memory};
use std::alloc::Global;
use std::marker::Model;

/// The least entry that says where a row's numbers stand. A lesser entry is a row's one number.
pub const LONG: u32 = 1 << 31;

/// Rows of key numbers, in order. Contracts see the list of the rows.
#[derive(Drop)]
pub struct Rows {
    // For each row its number, if it has that one alone. Else `LONG` plus the place of its count in `long`.
    entries: List<u32>,
    // The other rows, each behind the count of its numbers.
    long: List<u32>,
}

impl Model for Rows {
    ghost use Rattle.std.specs.Prelude.{ℕ, map, All, List as Seq};
    ghost use Rattle.pp_count.specs.Rows.{row_by, IsRowWithin};

    ghost Value = { Seq (Seq ℕ) };

    ghost view = { λ r. map (row_by r.long) r.entries };

    ghost invariant = { λ r. All (IsRowWithin r.long) r.entries };
}

impl Rows {
    /// No rows.
    pub fn new(alloc: Global) -> Rows
        ensures { result ≡ [] }
    {
        Rows {
            entries: List::new(alloc),
            long: List::new(alloc),
        }
    }

    /// The row at the index.
    pub fn row(&self, index: usize) -> &[u32]
        requires { index < length self.now }
        ensures { result.now ≡ slice_index_or self.now index [] }
    {
        let entries = self.entries.as_slice();
        let entry = entries[index];
        if entry < LONG {
            return &entries[index..index + 1];
        }
        let long = self.long.as_slice();
        let start = (entry - LONG) as usize + 1;
        let count = long[start - 1] as usize;
        &long[start..start + count]
    }

    /// Adds the row's numbers to the list. Most rows have one, which is added without a loop. `Err` is want of memory.
    pub fn add_to(&self, index: usize, numbers: &mut Vec<u64>) -> Result<(), Memory>
        requires { index < length self.now }
        ensures { IfOk result (λ _. numbers.new.items
            ≡ numbers.old.items ++ slice_index_or self.now index []) }
    {
        let entry = self.entries.as_slice()[index];
        if entry < LONG {
            numbers.push(u64::from(entry))?;
            return Ok(());
        }
        add_several(self.row(index), numbers)
    }

    /// Adds the row at the end. `Err` is want of memory.
    pub fn push(&mut self, row: &[u32]) -> Result<(), Memory>
        ensures { IfOk result (λ _. self.new ≡ self.old ++ row.now ∷ []) }
    {
        let entry = entry_for(&mut self.long, row)?;
        self.entries.push(entry)?;
        Ok(())
    }
}

// Adds the numbers of a row that may have several.
#[inline(never)]
fn add_several(row: &[u32], numbers: &mut Vec<u64>) -> Result<(), Memory>
    ensures { IfOk result (λ _. numbers.new.items ≡ numbers.old.items ++ row.now) }
{
    for number in row {
        numbers.push(u64::from(*number))?;
    }
    Ok(())
}

// The entry of the row, which is put into `long` unless it is one number below `LONG`.
fn entry_for(long: &mut List<u32>, row: &[u32]) -> Result<u32, Memory>
    ensures grown { IsFront long.old long.new }
    ensures within { IfOk result (IsRowWithin long.new) }
    ensures row { IfOk result (λ entry. row_by long.new entry ≡ row.now) }
{
    if let [number] = row {
        if *number < LONG {
            return Ok(*number);
        }
    }
    put_row(long, row)
}

// Adds the row behind its count.
fn put_row(long: &mut List<u32>, row: &[u32]) -> Result<u32, Memory>
    ensures grown { IsFront long.old long.new }
    ensures within { IfOk result (IsRowWithin long.new) }
    ensures row { IfOk result (λ entry. row_by long.new entry ≡ row.now) }
{
    let place = long.len();
    let count = row.len();
    if place >= LONG as usize || count >= LONG as usize {
        return Err(Memory);
    }
    long.push(count as u32)?;
    long.extend(row)?;
    Ok(LONG + place as u32)
}
