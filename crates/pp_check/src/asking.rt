//! Asking the samples of a profile, which can be cut anywhere.
ghost use Rattle.std.specs.Prelude.{◌≡◌, false, IfOk};
ghost use Rattle.std.specs.List.{list_all};
ghost use Rattle.pp_model.specs.Rules.{location_ids};
ghost use Rattle.pp_check.specs.Known.{Knows};
ghost use Rattle.pp_check.specs.Sound.{is_sound};

use crate::known::IdSet;
use crate::references::is_whole;
use crate::texts::sample_has_texts;
use pp_base::Memory;
use pp_model::{Profile, Sample};
use pp_share::{Hashes, OwnIds, hash_samples};
use pp_steal::Piecewise;
use std::alloc::Global;

/// What any thread needs to ask samples of a profile.
#[derive(Drop)]
pub(crate) struct Asking<'a> {
    /// Where the hashes of samples are allocated.
    pub(crate) alloc: Global,
    /// The profile.
    pub(crate) p: &'a Profile,
    /// The ids of its locations.
    pub(crate) locations: &'a IdSet,
    pub ghost known: { Knows locations.now (location_ids p.now) },
}

/// What is told of samples.
#[derive(Debug, Drop)]
pub(crate) struct Asked {
    /// Whether all are sound.
    pub(crate) sound: bool,
    /// Their hashes by the ids that they have.
    pub(crate) hashes: Hashes,
}

impl Asked {
    /// What is told of samples that are not asked.
    pub(crate) fn unsound(alloc: Global) -> Result<Asked, Memory>
        ensures { IfOk result (λ asked. asked.sound ≡ false) }
    {
        let hashes = Hashes::with_room(alloc, 0)?;
        Ok(Asked {
            sound: false,
            hashes,
        })
    }
}

impl Piecewise<Sample> for Asking<'_> {
    type Out = Asked;

    ghost use Rattle.pp_check.specs.Sound.{IsAsked};

    ghost right = { λ work samples asked. IsAsked work.p.now samples asked };

    fn begin(&self, room: usize) -> Result<Asked, Memory> {
        let hashes = Hashes::with_room(self.alloc, room)?;
        Ok(Asked {
            sound: true,
            hashes,
        })
    }

    // A piece stays in the processor's cache between the two walks over it.
    fn run(&self, samples: &[Sample]) -> Result<Asked, Memory> {
        let sound = are_sound(self.p, self.locations, samples);
        let hashes = hash_samples(self.alloc, samples, &OwnIds)?;
        Ok(Asked { sound, hashes })
    }

    fn append(&self, front: Asked, back: Asked) -> Result<Asked, Memory> {
        let sound = front.sound & back.sound;
        let hashes = front.hashes.append(back.hashes)?;
        Ok(Asked { sound, hashes })
    }
}

// Whether all of these samples are sound.
fn are_sound(p: &Profile, locations: &IdSet, samples: &[Sample]) -> bool
    requires { Knows locations.now (location_ids p.now) }
    ensures { result ≡ list_all (is_sound p.now) samples.now }
{
    samples.iter().all(|sample| is_sound(p, locations, sample))
}

// Whether the sample breaks none of rules 2, 11 and 12.
fn is_sound(p: &Profile, locations: &IdSet, sample: &Sample) -> bool
    requires { Knows locations.now (location_ids p.now) }
    ensures { result ≡ is_sound p.now sample.now }
{
    sample_has_texts(p, sample) && is_whole(p, locations, sample)
}
