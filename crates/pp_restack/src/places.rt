//! The locations of a profile of which lines may be cut.
ghost use Rattle.std.specs.Prelude.{◌≡◌, ◌+◌, ◌<◌, [], ◌∷◌, ◌++◌, length, true, IfOk, IfSome, OnOk};
ghost use Rattle.pp_base.specs.Front.{IsFront};
ghost use Rattle.pp_model.specs.Conditions.{IsFrameOf, IsStackOf};
ghost use Rattle.pp_model.specs.Frames.{line_at};
ghost use Rattle.pp_model.specs.Rules.{NoRuleFails};
ghost use Rattle.pp_restack.specs.Stacks.{lines_of_frames, cut_location};
ghost use Rattle.pp_restack.specs.Places.{with_lines, without_id, line_location, KeepsPlaces, TakesPlace, IsEntry};

use crate::copying::{same_items, same_locations};
use pp_base::{List, Memory};
use pp_keys::HashKeys;
use pp_model::{Frame, Line, Location, Profile};
use std::alloc::Global;
use std::collections::HashMap;
use std::hash::BuildHasher;

/// Locations whose ids are places plus 1.
#[derive(Drop)]
pub struct Places {
    /// Those of the profile, in its order, and behind them those that were cut from them.
    pub locations: List<Location>,
    /// The places of the locations that were cut, the last one of each key.
    pub cuts: HashMap<CutKey, u64, HashKeys>,
    /// The lines of the group that is placed.
    pub lines: List<Line>,
}

/// What a location was cut by. Two cuts may have one such key, so the lines are compared too.
#[derive(Clone, Copy, Debug, PartialEq, Eq, Hash, Drop)]
pub struct CutKey {
    /// The place of the location that is cut, or the place behind all of them.
    pub place: u64,
    /// The hash of the lines that are left.
    pub lines: u64,
}

/// The locations of the profile, none of which is cut. `keys` are those of the table of cut locations.
pub fn places_of(alloc: Global, keys: HashKeys, p: &Profile) -> Result<Places, Memory>
    ensures { IfOk result (λ places. places.locations ≡ p.now.location) }
{
    Ok(Places {
        locations: same_locations(alloc, p.location.as_slice())?,
        cuts: HashMap::with_hasher(alloc, keys),
        lines: List::new(alloc),
    })
}

/// The id of a location with the lines of the frames of `group` alone. It is added where neither the whole location nor
/// one that was cut before has just these lines.
pub fn place_group(
    alloc: Global,
    p: &Profile,
    group: &[Frame],
    places: &mut Places,
) -> Result<u64, Memory>
    requires some { 0 < length group.now }
    requires frames { IsStackOf p.now group.now }
    requires valid { NoRuleFails p.now }
    ensures places { OnOk result
        (KeepsPlaces p.now places.old.locations places.new.locations) }
    ensures front { OnOk result (IsFront places.old.locations places.new.locations) }
    ensures entry { IfOk result (λ id.
        IsEntry places.new.locations (cut_location p.now group.now) id) }
{
    read_lines(p, group, &mut places.lines)?;
    let place = group[0].location;
    let location = &p.location.as_slice()[place as usize];
    place_lines(alloc, location, place, places)
}

// The id of a location like `location`, with the lines that were read. It may stand at `place`, or where one was cut.
fn place_lines(
    alloc: Global,
    location: &Location,
    place: u64,
    places: &mut Places,
) -> Result<u64, Memory>
    ensures places { OnOk result (TakesPlace (with_lines location.now places.old.lines)
        places.old.locations places.new.locations) }
    ensures front { OnOk result (IsFront places.old.locations places.new.locations) }
    ensures entry { IfOk result (λ id.
        IsEntry places.new.locations (with_lines location.now places.old.lines) id) }
{
    if let Some(id) = entry_at(places, place, location) {
        return Ok(id);
    }
    let cut = cut_at(places, place);
    if let Some(id) = cut_before(places, cut, location) {
        return Ok(id);
    }
    let id = add(alloc, location, places)?;
    keep(places, cut, id - 1)?;
    Ok(id)
}

/// The id of a location of the one line `line`, of which nothing else is known. `place` is kept with it, so that it is
/// found again by that place and that line.
pub fn place_line(alloc: Global, line: Line, place: u64, places: &mut Places) -> Result<u64, Memory>
    ensures places { OnOk result (TakesPlace (line_location line)
        places.old.locations places.new.locations) }
    ensures front { OnOk result (IsFront places.old.locations places.new.locations) }
    ensures entry { IfOk result (λ id. IsEntry places.new.locations (line_location line) id) }
{
    set_line(line, places)?;
    let bare = Location {
        id: 0,
        mapping_id: 0,
        address: 0,
        line: List::new(alloc),
        folded: false,
    };
    place_lines(alloc, &bare, place, places)
}

// Has `line` placed next, alone.
fn set_line(line: Line, places: &mut Places) -> Result<(), Memory>
    ensures locations { places.new.locations ≡ places.old.locations }
    ensures lines { OnOk result (places.new.lines ≡ line ∷ []) }
{
    places.lines.truncate(0);
    places.lines.push(line)
}

// The lines of the frames, in the place of what was there.
fn read_lines(p: &Profile, group: &[Frame], lines: &mut List<Line>) -> Result<(), Memory>
    requires { IsStackOf p.now group.now }
    ensures { OnOk result (lines.new ≡ lines_of_frames p.now group.now) }
{
    lines.truncate(0);
    for frame in group {
        if let Some(line) = line_in(p, frame) {
            lines.push(line)?;
        }
    }
    Ok(())
}

// The frame's line, if it has one.
fn line_in(p: &Profile, frame: &Frame) -> Option<Line>
    requires { IsFrameOf p.now frame.now }
    ensures { result ≡ line_at p.now frame.now }
{
    let lines = p.location.as_slice()[frame.location as usize]
        .line
        .as_slice();
    match frame.row {
        Some(row) => Some(lines[row as usize]),
        None => None,
    }
}

// The id of the location at the place, where it is this one with the lines that were read.
fn entry_at(places: &Places, place: u64, location: &Location) -> Option<u64>
    ensures { IfSome result (IsEntry places.now.locations
        (with_lines location.now places.now.lines)) }
{
    let locations = places.locations.as_slice();
    if place >= locations.len() as u64 {
        return None;
    }
    let entry = &locations[place as usize];
    if is_cut(entry, location, places.lines.as_slice()) {
        Some(place + 1)
    } else {
        None
    }
}

// Whether the entry is the location with these lines, but for its id.
fn is_cut(entry: &Location, location: &Location, lines: &[Line]) -> bool
    ensures { result ≡ true →
        without_id entry.now ≡ without_id (with_lines location.now lines.now) }
{
    entry.mapping_id == location.mapping_id
        && entry.address == location.address
        && entry.folded == location.folded
        && are_same(entry.line.as_slice(), lines)
}

fn are_same(lines: &[Line], others: &[Line]) -> bool
    ensures { result ≡ true → lines.now ≡ others.now }
{
    lines == others
}

// By what the location at `place` is cut to the lines that were read.
fn cut_at(places: &Places, place: u64) -> CutKey {
    CutKey {
        place,
        lines: places.cuts.hasher().hash_one(places.lines.as_slice()),
    }
}

// The id of the location that was cut so, where it is `location` with the lines that were read.
fn cut_before(places: &Places, cut: CutKey, location: &Location) -> Option<u64>
    ensures { IfSome result (IsEntry places.now.locations
        (with_lines location.now places.now.lines)) }
{
    match places.cuts.get(&cut) {
        None => None,
        Some(at) => entry_at(places, *at, location),
    }
}

// Keeps the place of the location that was cut so.
fn keep(places: &mut Places, cut: CutKey, at: u64) -> Result<(), Memory>
    ensures { places.new.locations ≡ places.old.locations }
{
    places.cuts.insert(cut, at)?;
    Ok(())
}

// Adds such a location with the lines that were read.
fn add(alloc: Global, location: &Location, places: &mut Places) -> Result<u64, Memory>
    ensures id { IfOk result (λ id. id ≡ length places.old.locations + 1) }
    ensures locations { IfOk result (λ id. places.new.locations ≡ places.old.locations
        ++ record (with_lines location.now places.old.lines) { id = id } ∷ []) }
{
    let id = places.locations.as_slice().len() as u64 + 1;
    places.locations.push(Location {
        id,
        mapping_id: location.mapping_id,
        address: location.address,
        line: same_items(alloc, places.lines.as_slice())?,
        folded: location.folded,
    })?;
    Ok(id)
}
