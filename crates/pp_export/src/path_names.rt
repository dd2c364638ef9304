//! The names of keys as they stand in paths, by key number.
ghost use Rattle.std.specs.Prelude.{◌≡◌, ◌≢◌, ◌++◌, ◌<◌, ℕ, List as Seq, length, slice_index_or, IfOk};
ghost use Rattle.pp_grain.specs.Keys.{IsKeyOf};
ghost use Rattle.pp_count.specs.Table.{key_numbered};
ghost use Rattle.pp_export.specs.Escaped.{escaped_name};
ghost use Rattle.pp_export.specs.PathNames.{no_name_place, at_place, name_place, name_and_separator, numbered_name, ArePathNames, GivesName};

use crate::escaped::put_frame_name;
use pp_base::{Memory, Text};
use pp_calltree::key_at;
use pp_grain::{Names, write_name};
use pp_model::Loaded;
use std::alloc::Global;

/// Where a name stands in the text of many.
#[derive(Clone, Copy, Debug)]
pub struct NamePlace {
    /// How many bytes stand before it.
    pub start: usize,
    /// How many bytes it has. 0 where there is no name.
    pub len: usize,
}

/// The names of keys as they stand in paths, by key number. Each is made once, when it is first asked for.
#[derive(Drop)]
pub struct PathNames {
    /// The names that are made, each with a `;` behind it.
    text: Vec<u8>,
    /// For each key number, where its name stands.
    places: Vec<NamePlace>,
    /// Room for a name before its bytes are written over.
    scratch: Text,
}

impl PathNames {
    /// No names.
    pub fn new(alloc: Global) -> PathNames
        ensures { (name : ℕ → Seq ℕ) → ArePathNames name result }
    {
        PathNames {
            text: Vec::new(alloc),
            places: Vec::new(alloc),
            scratch: Text::new(alloc),
        }
    }

    /// Appends the name of the key with the number, and a `;`. The name is made where none was asked for before.
    pub fn put_name(
        &mut self,
        l: &Loaded,
        names: &Names,
        number: u32,
        out: &mut Text,
    ) -> Result<(), Memory>
        requires key { IsKeyOf l.now.profile (key_numbered names.now number) }
        requires names { ArePathNames (numbered_name l.now.profile names.now) self.old }
        ensures names { IfOk result (λ _.
            ArePathNames (numbered_name l.now.profile names.now) self.new) }
        ensures text { IfOk result (λ _. out.new ≡ out.old
            ++ name_and_separator (numbered_name l.now.profile names.now number)) }
    {
        let place = self.place_of(l, names, number)?;
        out.extend(part(&self.text, place))
    }

    // The place of the name of the key with the number.
    fn place_of(&mut self, l: &Loaded, names: &Names, number: u32) -> Result<NamePlace, Memory>
        requires key { IsKeyOf l.now.profile (key_numbered names.now number) }
        requires names { ArePathNames (numbered_name l.now.profile names.now) self.old }
        ensures { IfOk result (λ place. GivesName (numbered_name l.now.profile names.now) number
            self.new place) }
    {
        let place = self.place(number);
        if place.len > 0 {
            return Ok(place);
        }
        self.make(l, names, number)
    }

    // Makes the name of the key with the number, and gives its place.
    fn make(&mut self, l: &Loaded, names: &Names, number: u32) -> Result<NamePlace, Memory>
        requires key { IsKeyOf l.now.profile (key_numbered names.now number) }
        requires names { ArePathNames (numbered_name l.now.profile names.now) self.old }
        ensures { IfOk result (λ place. GivesName (numbered_name l.now.profile names.now) number
            self.new place) }
    {
        self.scratch.clear();
        write_name(l, &key_at(names, number as u64), &mut self.scratch)?;
        self.add(number)
    }

    // Puts the name that was written to the number, and gives its place.
    fn add(&mut self, number: u32) -> Result<NamePlace, Memory>
        ensures { (name : ℕ → Seq ℕ) → ArePathNames name self.old →
            escaped_name self.old.scratch ≡ name number →
            IfOk result (λ place. GivesName name number self.new place) }
    {
        let place = put_path_name(self.scratch.as_slice(), &mut self.text)?;
        put_place(number, place, &mut self.places)?;
        Ok(place)
    }

    // Where the name of the number stands.
    fn place(&self, number: u32) -> NamePlace
        ensures { result ≡ name_place self.now number }
    {
        match self.places.get(number as usize) {
            Some(place) => *place,
            None => NO_NAME,
        }
    }
}

const NO_NAME: NamePlace = NamePlace { start: 0, len: 0 };

// The bytes at the place.
fn part(text: &[u8], place: NamePlace) -> &[u8]
    ensures { result.now ≡ at_place text.now place }
{
    let rest = &text[place.start.min(text.len())..];
    &rest[..place.len.min(rest.len())]
}

// Adds the name as it stands in a path, and a `;`, and gives its place.
fn put_path_name(name: &[u8], text: &mut Vec<u8>) -> Result<NamePlace, Memory>
    ensures text { IfOk result (λ _.
        text.new.items ≡ text.old.items ++ name_and_separator (escaped_name name.now)) }
    ensures start { IfOk result (λ place. place.start ≡ length text.old.items) }
    ensures len { IfOk result (λ place.
        place.len ≡ length (name_and_separator (escaped_name name.now))) }
{
    let start = text.len();
    put_frame_name(name, text)?;
    text.push(b';')?;
    Ok(NamePlace {
        start,
        len: name.len() + 1,
    })
}

// Puts the place to the number.
fn put_place(number: u32, place: NamePlace, places: &mut Vec<NamePlace>) -> Result<(), Memory>
    ensures own { IfOk result (λ _. slice_index_or places.new.items number no_name_place ≡ place) }
    ensures others { IfOk result (λ _. (other : ℕ) → other ≢ number →
        slice_index_or places.new.items other no_name_place
        ≡ slice_index_or places.old.items other no_name_place) }
{
    make_room(number, places)?;
    places[number as usize] = place;
    Ok(())
}

// Goes on with no places up to the number.
fn make_room(number: u32, places: &mut Vec<NamePlace>) -> Result<(), Memory>
    ensures room { IfOk result (λ _. number < length places.new.items) }
    ensures same { IfOk result (λ _. (other : ℕ) →
        slice_index_or places.new.items other no_name_place
        ≡ slice_index_or places.old.items other no_name_place) }
{
    let len = number as usize + 1;
    if places.len() < len {
        places.resize(len, NO_NAME)?;
    }
    Ok(())
}
