//! What the samples so far come to, to which the parts of those after them are added in order.
ghost use Rattle.std.specs.Prelude.{◌≡◌, ◌++◌, ℕ, ◌+◌, ◌<◌, ◌^◌, nat_abs, [], IfOk};
ghost use Rattle.pp_count.specs.Tally.{tally_at, no_tally, tally_added, tally_entry};
ghost use Rattle.pp_count.specs.Matches.{no_matches, either};
ghost use Rattle.pp_count.specs.Parts.{sums_of, flat_size, cum_size};
ghost use Rattle.pp_count.specs.Totals.{totals_plus};

use crate::matched::Matched;
use crate::part::Part;
use crate::tallies::{Tallies, add_sums, entries};
use crate::total::Totals;
use pp_base::{List, Memory};
use pp_keys::HashKeys;
use std::alloc::Global;

/// What the samples so far come to.
#[derive(Drop)]
pub struct Sofar {
    /// The numbers of the samples that the filters leave, rising.
    pub kept: List<u32>,
    /// A tally for each key number that occurs.
    pub tallies: Tallies,
    /// Which options have a match.
    pub matched: Matched,
    /// What percentages are taken of.
    pub totals: Totals,
}

impl Sofar {
    /// Nothing, with tallies in the form that suits `numbers` key numbers, of which about `adds` are added.
    pub fn new(
        alloc: Global,
        hash_keys: HashKeys,
        numbers: usize,
        adds: usize,
    ) -> Result<Self, Memory>
        ensures kept { IfOk result (λ sofar. sofar.kept ≡ []) }
        ensures none { IfOk result (λ sofar. (k : ℕ) → tally_at sofar.tallies k ≡ no_tally) }
        ensures matched { IfOk result (λ sofar. sofar.matched.slots ≡ no_matches) }
        ensures totals { IfOk result (λ sofar. sofar.totals ≡ record { all = 0; base = 0 }) }
    {
        let tallies = Tallies::new(alloc, hash_keys, numbers, adds)?;
        let matched = Matched::none(alloc)?;
        Ok(Sofar {
            kept: List::new(alloc),
            tallies,
            matched,
            totals: Totals::none(),
        })
    }

    /// Adds the part of the samples that follow.
    pub fn add(&mut self, alloc: Global, part: &Part) -> Result<(), Memory>
        requires flat_fits { (k : ℕ) → nat_abs (tally_at self.old.tallies k).flat
            + flat_size (sums_of k part.now.sums) < 2 ^ 63 }
        requires cum_fits { (k : ℕ) → nat_abs (tally_at self.old.tallies k).cum
            + cum_size (sums_of k part.now.sums) < 2 ^ 63 }
        ensures kept { IfOk result (λ _. self.new.kept ≡ self.old.kept ++ part.now.kept) }
        ensures tallies { IfOk result (λ _. (k : ℕ) → tally_at self.new.tallies k
            ≡ tally_added (tally_at self.old.tallies k) (sums_of k part.now.sums)) }
        ensures matched { IfOk result (λ _.
            self.new.matched.slots ≡ either self.old.matched.slots part.now.matched.slots) }
        ensures totals { IfOk result (λ _.
            self.new.totals ≡ totals_plus self.old.totals part.now.totals) }
    {
        self.kept.extend(part.kept.as_slice())?;
        self.matched = self.matched.or(alloc, &part.matched)?;
        self.totals = self.totals.plus(part.totals);
        add_sums(&mut self.tallies, part.sums.as_slice())
    }

    /// The part of all samples so far.
    pub fn into_part(self, alloc: Global) -> Result<Part, Memory>
        ensures kept { IfOk result (λ part. part.kept ≡ self.kept) }
        ensures sums { IfOk result (λ part. (k : ℕ) →
            sums_of k part.sums ≡ tally_entry k (tally_at self.tallies k)) }
        ensures matched { IfOk result (λ part. part.matched ≡ self.matched) }
    {
        let sums = entries(alloc, &self.tallies)?;
        Ok(Part {
            kept: self.kept,
            sums,
            matched: self.matched,
            totals: self.totals,
        })
    }
}
