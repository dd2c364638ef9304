//! The key numbers of the lines of each location: made once for a report, and read by all pieces.
ghost use Rattle.std.specs.Prelude.{◌≡◌, ◌<◌, [], length, map, slice_get, All, IfOk};
ghost use Rattle.pp_model.specs.Conditions.{IsStackOf};
ghost use Rattle.pp_model.specs.FrameTexts.{written};
ghost use Rattle.pp_grain.specs.Keys.{IsKeyOf};
ghost use Rattle.pp_grain.specs.Sight.{with_key};
ghost use Rattle.pp_count.specs.Table.{Grown, IsNumbered, IsRow, AreRows, IsKeyTable};

use crate::frames::frames_of;
use crate::rows::Rows;
use pp_base::{List, Memory};
use pp_grain::{Key, Names, key_of};
use pp_keys::HashKeys;
use pp_model::{Frame, Grouping, Loaded, Stack};
use std::alloc::Global;
use std::mem;

/// The keys of a profile's lines, and which line has which.
#[derive(Drop)]
pub struct KeyTable {
    /// The keys, by number.
    pub names: Names,
    /// For each location, in the order of the table, the key number of each of its lines, in their order. A location
    /// without lines has the one number of its frame.
    pub location: Rows,
}

/// Numbers the keys of all lines, by this grouping. `hash_keys` are for the tables of the report.
pub fn key_table(
    alloc: Global,
    hash_keys: HashKeys,
    l: &Loaded,
    grouping: Grouping,
) -> Result<KeyTable, Memory>
    ensures { IfOk result (IsKeyTable l.now.profile grouping) }
{
    let mut names = Names::new(alloc, hash_keys)?;
    match number_locations(alloc, l, grouping, &mut names) {
        Ok(location) => Ok(KeyTable { names, location }),
        Err(Memory) => {
            mem::drop(names);
            Err(Memory)
        }
    }
}

// Numbers the keys of all locations' frames.
fn number_locations(
    alloc: Global,
    l: &Loaded,
    grouping: Grouping,
    names: &mut Names,
) -> Result<Rows, Memory>
    requires { All (IsKeyOf l.now.profile) names.old }
    ensures { IfOk result (λ location.
        AreRows grouping.grain grouping.showcolumns l.now.profile names.new location) }
{
    let mut location = Rows::new(alloc);
    let mut stack = List::new(alloc);
    let mut row = List::new(alloc);
    for place in 0..l.profile.get().location.len() {
        number_location(l, grouping, place as u64, names, &mut stack, &mut row)?;
        location.push(row.as_slice())?;
    }
    let _distinct = names.len();
    Ok(location)
}

// The numbers of the keys of the location's frames, in the place of what `row` held. `stack` is room for the frames.
fn number_location(
    l: &Loaded,
    grouping: Grouping,
    location: u64,
    names: &mut Names,
    stack: &mut Stack,
    row: &mut List<u32>,
) -> Result<(), Memory>
    requires { location < length l.now.profile.location }
    ensures grown { IfOk result (λ _. Grown l.now.profile names.old names.new) }
    ensures row { IfOk result (λ _.
        IsRow grouping.grain grouping.showcolumns l.now.profile names.new location row.new) }
{
    row.truncate(0);
    frames_of(l, location, stack)?;
    number_frames(l, grouping, stack.as_slice(), names, row)
}

// Adds the numbers of the frames' keys.
fn number_frames(
    l: &Loaded,
    grouping: Grouping,
    stack: &[Frame],
    names: &mut Names,
    row: &mut List<u32>,
) -> Result<(), Memory>
    requires frames { IsStackOf l.now.profile stack.now }
    requires none { row.old ≡ [] }
    ensures grown { IfOk result (λ _. Grown l.now.profile names.old names.new) }
    ensures row { IfOk result (λ _. IsNumbered grouping.grain grouping.showcolumns
        l.now.profile names.new (map (written l.now.profile) stack.now) row.new) }
{
    for frame in stack {
        let key = key_of(l, frame, grouping.grain, grouping.showcolumns);
        let number = key_number(names, key)?;
        row.push(number)?;
    }
    Ok(())
}

// The key's number. More than 2^32 keys are want of memory.
fn key_number(names: &mut Names, key: Key) -> Result<u32, Memory>
    ensures key { IfOk result (λ n. slice_get names.new n ≡ Some key) }
    ensures seen { IfOk result (λ _. names.new ≡ with_key names.old key) }
{
    let number = names.number(key)?;
    if number > u64::from(u32::MAX) {
        return Err(Memory);
    }
    Ok(number as u32)
}
