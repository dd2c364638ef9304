//! Profiles whose samples were hashed.

use crate::hashes::{Hashes, OwnIds, hash_samples};
use pp_base::Memory;
use pp_model::Valid;
use std::alloc::Global;
use std::marker::Model;

/// A profile in which no table rule fails, and the hashes of its samples by the ids that they have. A check goes over
/// all samples anyway and finds the hashes on the way, so that merging need not go over them again.
#[derive(Debug, Drop)]
pub struct Hashed {
    valid: Valid,
    hashes: Hashes,
}

impl Model for Hashed {
    ghost use Rattle.pp_model.specs.declared.profile.Profile.{Profile};
    ghost use Rattle.pp_share.specs.Hashes.{AreOwnHashes};

    ghost Value = { Profile };

    ghost view = { λ n. n.valid };

    ghost invariant = { λ n. AreOwnHashes n.valid.sample n.hashes };
}

impl Hashed {
    ghost use Rattle.std.specs.Prelude.{◌≡◌, IfOk};
    ghost use Rattle.pp_share.specs.Hashes.{AreOwnHashes};

    /// The profile, whose samples have these hashes.
    pub fn claim(valid: Valid, hashes: Hashes) -> Hashed
        requires { AreOwnHashes valid.sample hashes }
        ensures { result ≡ valid }
    {
        Hashed { valid, hashes }
    }

    /// The profile, whose samples are gone over here.
    pub fn new(alloc: Global, valid: Valid) -> Result<Hashed, Memory>
        ensures { IfOk result (λ n. n ≡ valid) }
    {
        let hashes = hash_samples(alloc, valid.get().sample.as_slice(), &OwnIds)?;
        Ok(Hashed { valid, hashes })
    }

    /// The profile.
    pub fn valid(&self) -> &Valid
        ensures { result.now ≡ self.now }
    {
        &self.valid
    }

    /// The profile, and the hashes of its samples.
    pub fn into_parts(self) -> (Valid, Hashes)
        ensures same { result.0 ≡ self }
        ensures hashes { AreOwnHashes self.sample result.1 }
    {
        (self.valid, self.hashes)
    }
}
