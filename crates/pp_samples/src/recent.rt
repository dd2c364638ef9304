//! Labels that were counted before, with the places of their tags.
ghost use Rattle.std.specs.Prelude.{IfOk, IfSome};
ghost use Rattle.pp_samples.specs.Recent.{AreBlank, Holds, Noted};

use crate::key_table::TagPlace;
use pp_base::Memory;
use pp_keys::HashKeys;
use pp_model::Label;
use std::alloc::Global;
use std::hash::BuildHasher;

// How many labels are remembered: as many as 12 bits tell apart.
const SLOTS: usize = 4096;

/// A label with the place of its tag.
#[derive(Clone, Copy, Debug)]
pub struct PlacedLabel {
    /// The label.
    pub label: Label,
    /// Where its tag stands.
    pub place: TagPlace,
}

/// Labels that were counted before, each in the slot that some bits of it choose. Of those that choose one slot the last
/// has it. So room and time stay small, whatever labels a file has.
#[derive(Drop)]
pub struct Recent {
    /// The label of each slot, if one chose it.
    pub slots: Vec<Option<PlacedLabel>>,
    factors: Factors,
}

// What the fields of a label are multiplied by. No file can know which labels choose one slot, since the keys of hash
// tables are random.
#[derive(Clone, Copy)]
struct Factors {
    key: u64,
    text: u64,
    num: u64,
    num_unit: u64,
}

impl Recent {
    /// No labels.
    pub fn new(alloc: Global, hash_keys: HashKeys) -> Result<Recent, Memory>
        ensures { IfOk result (λ recent. AreBlank recent.slots.items) }
    {
        let mut slots = Vec::with_capacity(alloc, SLOTS)?;
        for _ in 0..SLOTS {
            slots.push(None)?;
        }
        let factors = Factors {
            key: hash_keys.hash_one(&0u64) | 1,
            text: hash_keys.hash_one(&1u64) | 1,
            num: hash_keys.hash_one(&2u64) | 1,
            num_unit: hash_keys.hash_one(&3u64) | 1,
        };
        Ok(Recent { slots, factors })
    }

    /// Where the label's tag stands, if its slot has the label.
    pub fn place(&self, label: &Label) -> Option<TagPlace>
        ensures { IfSome result (Holds self.now.slots.items label.now) }
    {
        match self.slots.get(slot_of(&self.factors, label)) {
            Some(Some(placed)) if placed.label == *label => Some(placed.place),
            _ => None,
        }
    }

    /// Notes where the label's tag stands.
    pub fn note(&mut self, label: Label, place: TagPlace)
        ensures { Noted self.old.slots.items label place self.new.slots.items }
    {
        let slot = slot_of(&self.factors, &label);
        if slot < self.slots.len() {
            self.slots[slot] = Some(PlacedLabel { label, place });
        }
    }
}

// The slot that the label chooses.
fn slot_of(factors: &Factors, label: &Label) -> usize {
    let key = label.key.cast_unsigned().wrapping_mul(factors.key);
    let text = label.text.cast_unsigned().wrapping_mul(factors.text);
    let num = label.num.cast_unsigned().wrapping_mul(factors.num);
    let unit = label
        .num_unit
        .cast_unsigned()
        .wrapping_mul(factors.num_unit);
    let sum = key.wrapping_add(text).wrapping_add(num).wrapping_add(unit);
    (sum >> 52) as usize
}
