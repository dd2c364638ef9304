//! A profile with frames that are made from labels.
ghost use Rattle.std.specs.Prelude.{◌≡◌, ◌++◌, ◌<◌, ◌^◌, [], IfOk, OnOk};
ghost use Rattle.std.specs.List.{AllByRecursion};
ghost use Rattle.pp_model.specs.Words.{IsCountable};
ghost use Rattle.pp_pseudo.specs.Grown.{grown};
ghost use Rattle.pp_pseudo.specs.TagSums.{KeepsTagSums};
ghost use Rattle.pp_pseudo.specs.WithTags.{tagged};
ghost use Rattle.pp_pseudo.specs.Framed.{AreTagged, IsTagged};
ghost use Rattle.pp_restack.specs.Places.{with_cut};

use crate::frames::{FrameKeys, Frames, put_frames};
use crate::growing::grow;
use crate::names::FrameNames;
use pp_base::{List, Memory, Text};
use pp_keys::HashKeys;
use pp_merge::merge_alone;
use pp_model::{Loaded, Profile, Sample, Valid};
use pp_restack::{no_items, places_of, sample_with, with_cut};
use std::alloc::Global;

/// The profile with a frame for each listed key of which a sample has a label. Frames of the keys of `roots` stand at
/// the root and those of `leaves` at the leaf, each list root first. The frame's function is named by the key, `=` and
/// the values of the labels, joined by commas. Load pruning is done, so that the profile has neither patterns nor
/// verdicts. All labels and values stay, and samples that became equal are added up. `Err` is want of memory.
///
/// The hash tables have the keys `hash_keys`, on which no answer depends.
pub fn with_tags(
    alloc: Global,
    hash_keys: HashKeys,
    l: &Loaded,
    roots: &List<Text>,
    leaves: &List<Text>,
) -> Result<Loaded, Memory>
    requires { IsCountable l.now.profile }
    ensures tagged { IfOk result (λ q. q ≡ tagged l.now roots.now leaves.now) }
    ensures countable { IfOk result (λ q. IsCountable q.profile) }
    ensures sums { IfOk result (λ q. KeepsTagSums l.now (roots.now ++ leaves.now) q.profile) }
{
    let root_keys = roots.as_slice();
    let leaf_keys = leaves.as_slice();
    let p = tagged_alone(alloc, hash_keys, l, root_keys, leaf_keys)?;
    let profile = merge_alone(alloc, hash_keys, p)?;
    Ok(Loaded {
        profile,
        drop: None,
        keep: None,
    })
}

// The profile that is merged alone.
fn tagged_alone(
    alloc: Global,
    hash_keys: HashKeys,
    l: &Loaded,
    roots: &[Text],
    leaves: &[Text],
) -> Result<Valid, Memory>
    ensures { IfOk result (λ q. IsTagged l.now roots.now leaves.now q) }
{
    let p = l.profile.get();
    let mut samples = no_items(alloc, p.sample.len())?;
    let places = places_of(alloc, hash_keys, p)?;
    let mut frames = Frames {
        names: FrameNames::new(alloc, hash_keys),
        places,
        name: Text::new(alloc),
        stack: List::new(alloc),
    };
    let keys = FrameKeys { roots, leaves };
    tag_samples(alloc, l, &keys, &mut samples, &mut frames)?;
    let q = grown_with(alloc, p, samples, frames)?;
    Ok(Valid::claim(q))
}

// Adds each sample with the frames of the keys.
fn tag_samples(
    alloc: Global,
    l: &Loaded,
    keys: &FrameKeys,
    samples: &mut List<Sample>,
    frames: &mut Frames,
) -> Result<(), Memory>
    requires none { AreTagged l.now keys.now.roots.now keys.now.leaves.now [] frames.old.names
        frames.old.places.locations samples.old }
    ensures { OnOk result (AreTagged l.now keys.now.roots.now keys.now.leaves.now
        l.now.profile.sample frames.new.names frames.new.places.locations samples.new) }
{
    let p = l.profile.get();
    let mut ids = List::new(alloc);
    for s in p.sample.as_slice() {
        ids.truncate(0);
        put_frames(alloc, l, keys, s, &mut ids, frames)?;
        let sample = sample_with(alloc, s, ids.as_slice(), s.label.as_slice())?;
        samples.push(sample)?;
    }
    Ok(())
}

// The profile with these samples and locations, and with the names.
fn grown_with(
    alloc: Global,
    p: &Profile,
    samples: List<Sample>,
    frames: Frames,
) -> Result<Profile, Memory>
    ensures same { IfOk result (λ q.
        q ≡ with_cut (grown p.now frames.names) samples frames.places.locations) }
    ensures starts { IfOk result (λ q. AllByRecursion (λ m. m.start < 2 ^ 64) p.now.mapping) }
{
    let places = frames.places;
    let q = with_cut(alloc, p, samples, places.locations)?;
    grow(alloc, q, frames.names)
}
