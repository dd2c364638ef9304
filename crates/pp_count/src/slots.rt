//! Tallies in the order of first sight, which are found by key number.
ghost use Rattle.std.specs.Prelude.{◌≡◌, ◌≢◌, ℕ, ◌+◌, ◌<◌, ◌^◌, nat_abs, length, IfOk};
ghost use Rattle.pp_count.specs.Tally.{credited, no_tally, slot_tally};

use crate::tally::Tally;
use pp_base::Memory;
use std::alloc::Global;

/// A key number and what it has so far.
#[derive(Clone, Copy)]
pub struct TallyRow {
    /// The key's number.
    pub key: u64,
    /// What it has.
    pub tally: Tally,
}

/// Tallies of those key numbers below a limit that were seen.
#[derive(Drop)]
pub struct Slots {
    /// For each key number, the place of its row. A key has no row where the one at that place has another number.
    pub place: Vec<u32>,
    /// The rows, in the order of first sight.
    pub rows: Vec<TallyRow>,
}

impl Slots {
    /// No tallies, with a slot for each of `numbers` key numbers.
    pub fn new(alloc: Global, numbers: usize) -> Result<Slots, Memory>
        ensures { IfOk result (λ slots. (k : ℕ) →
            slot_tally slots.place.items slots.rows.items k ≡ no_tally) }
    {
        let place = vec![in alloc; 0; numbers]?;
        Ok(Slots {
            place,
            rows: Vec::new(alloc),
        })
    }

    /// What is kept of the key number.
    pub fn tally(&self, key: u64) -> Tally
        requires { key < length self.now.place.items }
        ensures { result ≡ slot_tally self.now.place.items self.now.rows.items key }
    {
        let place = self.place[key as usize] as usize;
        if place < self.rows.len() && self.rows[place].key == key {
            self.rows[place].tally
        } else {
            Tally::NONE
        }
    }

    /// Adds the value to the cum of the key number, where the sample of that turn was not yet added.
    pub fn credit(&mut self, key: u64, value: i64, turn: u64) -> Result<(), Memory>
        requires within { key < length self.old.place.items }
        requires fits { (slot_tally self.old.place.items self.old.rows.items key).last ≢ turn →
            nat_abs (slot_tally self.old.place.items self.old.rows.items key).cum + nat_abs value
            < 2 ^ 63 }
        ensures count { length self.new.place.items ≡ length self.old.place.items }
        ensures key { IfOk result (λ _. slot_tally self.new.place.items self.new.rows.items key
            ≡ credited value turn (slot_tally self.old.place.items self.old.rows.items key)) }
        ensures others { IfOk result (λ _. (k : ℕ) → k ≢ key →
            slot_tally self.new.place.items self.new.rows.items k
            ≡ slot_tally self.old.place.items self.old.rows.items k) }
    {
        let place = self.place[key as usize] as usize;
        if place < self.rows.len() && self.rows[place].key == key {
            self.rows[place].tally.credit(value, turn);
            return Ok(());
        }
        let mut tally = Tally::NONE;
        tally.credit(value, turn);
        self.add(key, tally)
    }

    /// Keeps the tally for the key number, in the place of what was kept for it.
    pub fn keep(&mut self, key: u64, tally: Tally) -> Result<(), Memory>
        requires { key < length self.old.place.items }
        ensures count { length self.new.place.items ≡ length self.old.place.items }
        ensures key { IfOk result (λ _.
            slot_tally self.new.place.items self.new.rows.items key ≡ tally) }
        ensures others { IfOk result (λ _. (k : ℕ) → k ≢ key →
            slot_tally self.new.place.items self.new.rows.items k
            ≡ slot_tally self.old.place.items self.old.rows.items k) }
    {
        let place = self.place[key as usize] as usize;
        if place < self.rows.len() && self.rows[place].key == key {
            self.rows[place] = TallyRow { key, tally };
            return Ok(());
        }
        self.add(key, tally)
    }

    // Adds a row for the key number, which has none.
    #[inline(never)]
    fn add(&mut self, key: u64, tally: Tally) -> Result<(), Memory>
        requires { key < length self.old.place.items }
        ensures count { length self.new.place.items ≡ length self.old.place.items }
        ensures key { IfOk result (λ _.
            slot_tally self.new.place.items self.new.rows.items key ≡ tally) }
        ensures others { IfOk result (λ _. (k : ℕ) → k ≢ key →
            slot_tally self.new.place.items self.new.rows.items k
            ≡ slot_tally self.old.place.items self.old.rows.items k) }
    {
        let place = u32::try_from(self.rows.len()).map_err(|_| Memory)?;
        self.rows.push(TallyRow { key, tally })?;
        self.place[key as usize] = place;
        Ok(())
    }
}
