//! The samples that are equal to earlier ones once they have their new ids.
ghost use Rattle.std.specs.Bool.{OnTrue};
ghost use Rattle.std.specs.Ordering.{is_eq};
ghost use Rattle.std.specs.Prelude.{◌≡◌, ◌<◌, ◌≤◌, ◌-◌, ◌++◌, [], ◌∷◌, length, map, if◌then◌else◌, nat_lt, All, IfOk, OnOk};
ghost use Rattle.std.specs.List.Sorted.{IsSorted, IsPermutation};
ghost use Rattle.pp_share.specs.Hashes.{hash_by};
ghost use Rattle.pp_share.specs.Renumbered.{new_ids};
ghost use Rattle.pp_share.specs.StackOrder.{kind_cmp, placed_cmp};
ghost use Rattle.pp_share.specs.Repeats.{class_of, AreEqual, AreOfClass, BeginsKind, FindsBelow, FindsOfClass, FindsRepeats, IsPair};

use crate::renumbering::Renumbering;
use crate::stack_order::stack_order;
use pp_base::{Memory, OpenGate};
use pp_model::Sample;
use pp_steal::{Deal, Job, Resources, run_pieces};
use std::alloc::Global;
use std::cmp::Ordering;
use std::thread::Threads;

/// A sample that is equal to an earlier one.
#[derive(Clone, Copy, Debug)]
pub struct Repeat {
    /// The place of the first sample of its kind.
    pub first: usize,
    /// Its own place.
    pub later: usize,
}

// A sample, its hash, and its place among all.
#[derive(Clone, Copy, Debug)]
struct Placed<'a> {
    hash: u64,
    place: usize,
    sample: &'a Sample,
}

// How many classes the hashes have. Equal hashes are of one class. Only the samples of one class are put in order at a
// time, so that this takes a few bytes a sample.
const CLASSES: u32 = 8;

// The class of the hash, by its upper bits.
fn class_of(hash: u64) -> u32
    ensures { result ≡ class_of hash }
{
    ((hash >> 61) % 8) as u32
}

/// The samples that are equal to earlier ones, where these are the hashes of all.
pub fn find_repeats(
    alloc: Global,
    by: &Renumbering,
    hashes: &[u64],
    samples: &[Sample],
) -> Result<Vec<Repeat>, Memory>
    requires { hashes.now ≡ map (hash_by (new_ids by.now)) samples.now }
    ensures { IfOk result (λ all. FindsBelow (new_ids by.now) samples.now 8 all.items) }
{
    let mut all = Vec::new(alloc);
    for class in 0..CLASSES {
        let part = repeats_of_class(alloc, by, hashes, samples, class)?;
        all.extend_from_slice(&part)?;
    }
    Ok(all)
}

/// The samples that `find_repeats` gives, found by `with.workers` lanes, each of which looks at one class of hashes
/// after another.
pub fn find_repeats_on<R: Threads + Sync>(
    with: &Resources<'_, R>,
    by: &Renumbering,
    hashes: &[u64],
    samples: &[Sample],
) -> Result<Vec<Repeat>, Memory>
    requires { hashes.now ≡ map (hash_by (new_ids by.now)) samples.now }
    ensures { IfOk result (λ all. FindsBelow (new_ids by.now) samples.now 8 all.items) }
{
    let job = Classes {
        alloc: with.alloc,
        by,
        hashes,
        samples,
    };
    let lanes = with.workers.min(CLASSES);
    let parts = run_pieces(
        with.rt,
        with.alloc,
        &job,
        CLASSES,
        lanes,
        Deal::Round,
        &OpenGate,
    )?;
    let mut all = Vec::new(with.alloc);
    for class in 0..parts.len() {
        all.extend_from_slice(&parts.as_slice()[class])?;
    }
    Ok(all)
}

// Samples as a job in classes of hashes.
#[derive(Drop)]
struct Classes<'a> {
    // Where the parts are allocated.
    alloc: Global,
    by: &'a Renumbering,
    hashes: &'a [u64],
    samples: &'a [Sample],
    ghost hashed: { hashes.now ≡ map (hash_by (new_ids by.now)) samples.now },
}

impl Job for Classes<'_> {
    /// The repeats of the class.
    type Out = Vec<Repeat>;

    ghost use Rattle.pp_share.specs.Renumbered.{new_ids};
    ghost use Rattle.pp_share.specs.Repeats.{FindsOfClass};

    ghost pieces = { λ job. 8 };

    ghost right = { λ job class part. FindsOfClass (new_ids job.by.now) job.samples.now class part.items };

    fn run(&self, class: u32) -> Result<Vec<Repeat>, Memory> {
        repeats_of_class(self.alloc, self.by, self.hashes, self.samples, class)
    }
}

// The samples of the class that are equal to earlier ones. Those of one hash are mostly equal: each is compared with
// the first of them. Where one differs, all are sorted by what they are.
fn repeats_of_class(
    alloc: Global,
    by: &Renumbering,
    hashes: &[u64],
    samples: &[Sample],
    class: u32,
) -> Result<Vec<Repeat>, Memory>
    requires { hashes.now ≡ map (hash_by (new_ids by.now)) samples.now }
    ensures { IfOk result (λ repeats. FindsOfClass (new_ids by.now) samples.now class repeats.items) }
{
    let mut placed = of_class(alloc, hashes, samples, class)?;
    let repeats = sort_out(alloc, &KindBy::Hash, &mut placed)?;
    if are_equal(by, samples, &repeats) {
        return Ok(repeats);
    }
    sort_out(alloc, &KindBy::Stack(by), &mut placed)
}

// The samples of the class, in order.
fn of_class<'a>(
    alloc: Global,
    hashes: &[u64],
    samples: &'a [Sample],
    class: u32,
) -> Result<Vec<Placed<'a>>, Memory>
    requires { length hashes.now ≡ length samples.now }
    ensures { IfOk result (λ placed. AreOfClass hashes.now samples.now class (length samples.now) placed.items) }
{
    // Hashes are spread evenly, so a class has about an eighth of them.
    let mut placed = Vec::with_capacity(alloc, samples.len() / 7)?;
    for place in 0..samples.len() {
        let hash = hashes[place];
        if class_of(hash) == class {
            let sample = &samples[place];
            placed.push(Placed {
                hash,
                place,
                sample,
            })?;
        }
    }
    Ok(placed)
}

// By what samples are of one kind.
#[derive(Clone, Copy)]
enum KindBy<'a> {
    // By their hashes. No sample is looked at.
    Hash,
    // By their hashes, and by what they are with their new ids.
    Stack(&'a Renumbering),
}

// Sorts the samples, and gives those that follow one of their kind, in the order of their places.
fn sort_out(alloc: Global, kind: &KindBy, placed: &mut Vec<Placed>) -> Result<Vec<Repeat>, Memory>
    ensures same { IsPermutation placed.old.items placed.new.items }
    ensures found { IfOk result (λ repeats.
        FindsRepeats (kind_cmp kind.now) placed.new.items (length placed.new.items) repeats.items) }
{
    sort_placed(kind, placed);
    let mut repeats = repeats_in(alloc, kind, placed.as_slice())?;
    sort_repeats(&mut repeats);
    Ok(repeats)
}

// Sorts the samples by kind, and those of one kind by place.
fn sort_placed(kind: &KindBy, placed: &mut Vec<Placed>)
    ensures sorted { IsSorted (placed_cmp (kind_cmp kind.now)) placed.new.items }
    ensures same { IsPermutation placed.old.items placed.new.items }
{
    placed.sort_unstable_by(|a, b| placed_order(kind, a, b));
}

fn placed_order(kind: &KindBy, a: &Placed, b: &Placed) -> Ordering
    ensures { result ≡ placed_cmp (kind_cmp kind.now) a.now b.now }
{
    match kind_order(kind, a, b) {
        Ordering::Equal => a.place.cmp(&b.place),
        other => other,
    }
}

fn kind_order(kind: &KindBy, a: &Placed, b: &Placed) -> Ordering
    ensures { result ≡ kind_cmp kind.now a.now b.now }
{
    match kind {
        KindBy::Hash => a.hash.cmp(&b.hash),
        KindBy::Stack(by) => match a.hash.cmp(&b.hash) {
            Ordering::Equal => stack_order(by, a.sample, b.sample),
            other => other,
        },
    }
}

// The samples that follow one of their kind.
fn repeats_in(alloc: Global, kind: &KindBy, placed: &[Placed]) -> Result<Vec<Repeat>, Memory>
    requires { IsSorted (placed_cmp (kind_cmp kind.now)) placed.now }
    ensures { IfOk result (λ repeats. FindsRepeats (kind_cmp kind.now) placed.now (length placed.now) repeats.items) }
{
    let mut repeats = Vec::new(alloc);
    let mut first = 0;
    for index in 0..placed.len() {
        first = first_of(kind, placed, index, first);
        push_later(&mut repeats, first, placed[index].place)?;
    }
    Ok(repeats)
}

// The first place of the kind at the index, where `before` is that of the kind before it.
fn first_of(kind: &KindBy, placed: &[Placed], index: usize, before: usize) -> usize
    requires within { index < length placed.now }
    requires sorted { IsSorted (placed_cmp (kind_cmp kind.now)) placed.now }
    requires before { 0 < index → BeginsKind (kind_cmp kind.now) placed.now (index - 1) before }
    ensures { BeginsKind (kind_cmp kind.now) placed.now index result }
{
    if index > 0 && is_kind(kind, &placed[index - 1], &placed[index]) {
        return before;
    }
    placed[index].place
}

// Whether the samples are of one kind.
fn is_kind(kind: &KindBy, a: &Placed, b: &Placed) -> bool
    ensures { result ≡ is_eq (kind_cmp kind.now a.now b.now) }
{
    kind_order(kind, a, b).is_eq()
}

// Adds the sample at the later place, unless it is the first.
fn push_later(repeats: &mut Vec<Repeat>, first: usize, later: usize) -> Result<(), Memory>
    ensures { OnOk result (repeats.new.items
        ≡ (if nat_lt first later then repeats.old.items ++ record { first = first; later = later } ∷ [] else repeats.old.items)) }
{
    if first < later {
        repeats.push(Repeat { first, later })?;
    }
    Ok(())
}

// Puts the repeats into the order of the samples.
fn sort_repeats(repeats: &mut Vec<Repeat>)
    ensures { IsPermutation repeats.old.items repeats.new.items }
{
    repeats.sort_unstable_by(|a, b| a.later.cmp(&b.later));
}

// Whether the two samples of each repeat are equal.
fn are_equal(by: &Renumbering, samples: &[Sample], repeats: &[Repeat]) -> bool
    requires { All (IsPair (length samples.now)) repeats.now }
    ensures { OnTrue result (All (AreEqual (new_ids by.now) samples.now) repeats.now) }
{
    for repeat in repeats {
        if !stack_order(by, &samples[repeat.first], &samples[repeat.later]).is_eq() {
            return false;
        }
    }
    true
}
