//! Ids in the order in which they are met.
ghost use Rattle.std.specs.Prelude.{◌≡◌, ℕ, ◌<◌, ◌≤◌, [], nat_eq, slice_index_or, IfOk, OnOk};
ghost use Rattle.std.specs.Bool.{OnTrue};
ghost use Rattle.std.specs.List.{IsDistinct};
ghost use Rattle.pp_share.specs.Located.{KnowsAll};
ghost use Rattle.pp_share.specs.Walk.{met_with, IsPlaced};
ghost use Rattle.pp_share.specs.Ids.{place_id};

use crate::ids::place_id;
use indexmap::IndexSet;
use pp_base::Memory;
use pp_keys::HashKeys;
use std::alloc::Global;
use std::marker::Model;

/// Ids without repeats, in the order in which they are met. Samples name the same locations over and over, so what was
/// met is found in a table, by index, and hashed only once.
#[derive(Drop)]
pub struct Met {
    ids: IndexSet<u64, HashKeys>,
    // At the index of an id its place plus 1. With 0 it wasn't met, or is past the table.
    places: Vec<u64>,
}

impl Model for Met {
    ghost use Rattle.std.specs.Prelude.{ℕ, List};
    ghost use Rattle.pp_share.specs.MetPlaces.{HoldsPlaces};

    ghost Value = { List ℕ };

    ghost view = { λ met. met.ids.keys };

    ghost invariant = { λ met. HoldsPlaces met.ids.keys met.places.items };
}

impl Met {
    /// No ids. Ids below `room` are found by index.
    pub fn new(alloc: Global, hash_keys: HashKeys, room: usize) -> Result<Met, Memory>
        ensures { IfOk result (λ met. met ≡ []) }
    {
        let places = vec![in alloc; 0u64; room]?;
        Ok(Met {
            ids: IndexSet::with_hasher(alloc, hash_keys),
            places,
        })
    }

    /// Adds the id, unless it is 0 or was met.
    #[inline(always)]
    pub fn meet(&mut self, id: u64) -> Result<(), Memory>
        ensures { OnOk result (self.new ≡ met_with self.old id) }
    {
        self.place(id)?;
        Ok(())
    }

    /// Adds the id, unless it is 0 or was met, and gives its place plus 1. 0 stays.
    #[inline(always)]
    #[tactic(auto, using(crate::proofs::MetLemmas::met_already, crate::proofs::MetLemmas::placed_already))]
    pub fn place(&mut self, id: u64) -> Result<u64, Memory>
        ensures met { OnOk result (self.new ≡ met_with self.old id) }
        ensures place { IfOk result (λ place. IsPlaced place_id self.new id place) }
    {
        let number = number_at(&self.places, id);
        if number > 0 {
            return Ok(number);
        }
        self.place_new(id)
    }

    // `place` for an id that the table `places` does not know.
    #[inline(never)]
    #[tactic(auto, using(crate::proofs::MetLemmas::placed_now))]
    fn place_new(&mut self, id: u64) -> Result<u64, Memory>
        ensures met { OnOk result (self.new ≡ met_with self.old id) }
        ensures place { IfOk result (λ place. IsPlaced place_id self.new id place) }
    {
        if id == 0 {
            return Ok(0);
        }
        let (place, _) = self.ids.insert_full(id)?;
        // A place is below the length, so its number fits.
        let _len = self.ids.len();
        let number = place as u64 + 1;
        let index = id as usize;
        if index < self.places.len() {
            self.places[index] = number;
        }
        Ok(number)
    }

    /// The place of the id plus 1, which is past the ids where it wasn't met. 0 stays.
    pub fn id(&self, id: u64) -> u64
        ensures { result ≡ place_id self.now id }
    {
        let number = number_at(&self.places, id);
        if number > 0 {
            return number;
        }
        place_id(&self.ids, id)
    }

    /// Whether it is known that all ids up to this one were met.
    pub fn knows_all(&self, count: usize) -> bool
        ensures { OnTrue result (KnowsAll count self.now) }
    {
        self.ids.len() >= count && have_places(&self.places, count)
    }

    /// The ids, in order.
    pub fn as_slice(&self) -> &[u64]
        ensures ids { result.now ≡ self.now }
        ensures once { IsDistinct nat_eq result.now }
    {
        self.ids.as_slice()
    }
}

// The number at the index, and 0 past the list.
fn number_at(numbers: &[u64], index: u64) -> u64
    ensures { result ≡ slice_index_or numbers.now index 0 }
{
    match numbers.get(index as usize) {
        None => 0,
        Some(number) => *number,
    }
}

// Whether each index from 1 up to this one has a number above 0.
fn have_places(numbers: &[u64], last: usize) -> bool
    ensures { OnTrue result ((index : ℕ) → 1 ≤ index → index ≤ last → 0 < slice_index_or numbers.now index 0) }
{
    last < numbers.len() && numbers[..last + 1].iter().skip(1).all(|number| *number > 0)
}
