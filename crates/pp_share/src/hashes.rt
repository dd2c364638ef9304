//! The hashes of samples.
ghost use Rattle.std.specs.Prelude.{◌≡◌, ◌+◌, ◌++◌, ℕ, List as Seq, [], nat_abs, IfOk, OnOk};
ghost use Rattle.std.specs.List.{sum_by};
ghost use Rattle.pp_base.specs.Capped.{capped};
ghost use Rattle.pp_model.specs.declared.profile.Sample.{Sample as SampleValue};
ghost use Rattle.pp_share.specs.Hashes.{AreHashesBy, AddsHash};

use crate::hashing::{hash_by, sample_hash};
use crate::renumbering::Renumbering;
use crate::samples::has_values;
use pp_base::Memory;
use pp_model::Sample;
use pp_steal::{Piecewise, Resources, run_piecewise};
use std::alloc::Global;
use std::thread::Threads;

/// What one walk over samples tells of them: what they are told apart by, whether all are kept, and whether their
/// values can be added up.
#[derive(Debug, Drop)]
pub struct Hashes {
    /// For each sample, in order, the hash of its locations and labels. Equal samples have the same hash; others may
    /// have it too.
    pub list: Vec<u64>,
    /// Whether each sample has a value that isn't 0.
    pub have_values: bool,
    /// The absolute values of all columns of all samples, added up, or 2^64-1 where they are more.
    pub together: u64,
}

impl Hashes {
    /// The hashes of no samples, with room for those of `room` samples.
    pub fn with_room(alloc: Global, room: usize) -> Result<Hashes, Memory>
        ensures { IfOk result (λ n. (hash : SampleValue → ℕ) → AreHashesBy hash [] n) }
    {
        let list = Vec::with_capacity(alloc, room)?;
        Ok(Hashes {
            list,
            have_values: true,
            together: 0,
        })
    }

    /// Adds one sample more, which has this hash.
    pub fn add(&mut self, hash: u64, sample: &Sample) -> Result<(), Memory>
        ensures { OnOk result (AddsHash hash sample.now self.old self.new) }
    {
        self.list.push(hash)?;
        self.have_values &= has_values(sample);
        self.together = add_values(self.together, sample.value.as_slice());
        Ok(())
    }

    /// These hashes, and behind them those of more samples.
    pub fn append(mut self, more: Hashes) -> Result<Hashes, Memory>
        ensures { (hash : SampleValue → ℕ) (front back : Seq SampleValue) → AreHashesBy hash front self
            → AreHashesBy hash back more → IfOk result (AreHashesBy hash (front ++ back)) }
    {
        self.list.extend_from_slice(&more.list)?;
        self.have_values &= more.have_values;
        self.together = self.together.saturating_add(more.together);
        Ok(self)
    }
}

// The total with the absolute values.
fn add_values(total: u64, values: &[i64]) -> u64
    ensures { result ≡ capped (total + sum_by nat_abs values.now) }
{
    let mut sum = total;
    for value in values {
        sum = sum.saturating_add(value.unsigned_abs());
    }
    sum
}

/// What a sample is hashed by.
pub trait SampleHash {
    /// The hash of the sample.
    ghost hash: { Self → SampleValue → ℕ };

    /// The hash of the sample, which stays as it is.
    fn hash(&self, sample: &Sample) -> u64
        ensures { result ≡ hash self.now sample.now };
}

/// The ids that a sample has.
#[derive(Clone, Copy, Debug)]
pub struct OwnIds;

impl SampleHash for OwnIds {
    ghost use Rattle.pp_share.specs.SampleKeys.{sample_hash};

    ghost hash = { λ _. sample_hash };

    fn hash(&self, sample: &Sample) -> u64 {
        sample_hash(sample)
    }
}

impl SampleHash for Renumbering {
    ghost use Rattle.pp_share.specs.Hashes.{hash_by};
    ghost use Rattle.pp_share.specs.Renumbered.{new_ids};

    ghost hash = { λ by. hash_by (new_ids by) };

    fn hash(&self, sample: &Sample) -> u64 {
        hash_by(self, sample)
    }
}

/// The hashes of the samples, by the ids that they have or, with a renumbering, by those that they get.
pub fn hash_samples<H: SampleHash>(
    alloc: Global,
    samples: &[Sample],
    by: &H,
) -> Result<Hashes, Memory>
    ensures { IfOk result (AreHashesBy (H.hash by.now) samples.now) }
{
    let mut hashes = Hashes::with_room(alloc, samples.len())?;
    for sample in samples {
        hashes.add(by.hash(sample), sample)?;
    }
    Ok(hashes)
}

/// The hashes that `hash_samples` gives, made in pieces on `with.workers` lanes. They do not tell how many there were.
pub fn hash_samples_on<R: Threads + Sync, H: SampleHash + Sync>(
    with: &Resources<'_, R>,
    samples: &[Sample],
    by: &H,
) -> Result<Hashes, Memory>
    ensures { IfOk result (AreHashesBy (H.hash by.now) samples.now) }
{
    let alloc = with.alloc;
    run_piecewise(with, &Hashing { alloc, by }, samples)
}

// Hashing, which can be done for any part of the samples.
#[derive(Drop)]
struct Hashing<'a, H> {
    // Where the hashes are allocated.
    alloc: Global,
    by: &'a H,
}

impl<H: SampleHash + Sync> Piecewise<Sample> for Hashing<'_, H> {
    type Out = Hashes;

    ghost use Rattle.pp_share.specs.Hashes.{AreHashesBy};

    ghost right = { λ work samples hashes. AreHashesBy (H.hash work.by.now) samples hashes };

    fn begin(&self, room: usize) -> Result<Hashes, Memory> {
        Hashes::with_room(self.alloc, room)
    }

    fn run(&self, samples: &[Sample]) -> Result<Hashes, Memory> {
        hash_samples(self.alloc, samples, self.by)
    }

    fn append(&self, front: Hashes, back: Hashes) -> Result<Hashes, Memory> {
        front.append(back)
    }
}
