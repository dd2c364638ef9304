//! Numbers that are given to keys at first sight.

use crate::key::Key;
use indexmap::IndexSet;
use pp_base::Memory;
use pp_keys::HashKeys;
use std::alloc::Global;
use std::marker::Model;

/// The keys seen so far, without repeats. A key's number is its place in the order of first sight.
#[derive(Drop)]
pub struct Names {
    seen: IndexSet<Key, HashKeys>,
}

impl Model for Names {
    ghost use Rattle.std.specs.Prelude.{List};
    ghost use Rattle.pp_grain.specs.declared.key.Key.{Key};

    ghost Value = { List Key };

    ghost view = { λ n. n.seen.keys };
}

impl Names {
    ghost use Rattle.std.specs.Prelude.{◌≡◌, ◌≢◌, ◌<◌, [], length, slice_get, AllPairs, IfOk, OnOk, OnErr};
    ghost use Rattle.pp_grain.specs.Sight.{with_key, key_number_in};

    /// No keys, to be hashed by `hash_keys`.
    pub fn new(alloc: Global, hash_keys: HashKeys) -> Result<Names, Memory>
        ensures { IfOk result (λ names. names ≡ []) }
    {
        Ok(Names {
            seen: IndexSet::with_hasher(alloc, hash_keys),
        })
    }

    /// The key's number. A key that is new gets the next one. On want of memory nothing changes.
    pub fn number(&mut self, key: Key) -> Result<u64, Memory>
        ensures number { IfOk result (λ n. n ≡ key_number_in self.old key) }
        ensures key { IfOk result (λ n. slice_get self.new n ≡ Some key) }
        ensures seen { OnOk result (self.new ≡ with_key self.old key) }
        ensures err { OnErr result (self.new ≡ self.old) }
    {
        let (n, _) = self.seen.insert_full(key)?;
        Ok(n as u64)
    }

    /// The key with the number.
    pub fn key(&self, n: u64) -> Key
        requires { n < length self.now }
        ensures { slice_get self.now n ≡ Some result }
    {
        self.seen.as_slice()[n as usize]
    }

    /// What the keys are hashed by, for other tables of the same file.
    pub fn hash_keys(&self) -> HashKeys {
        *self.seen.hasher()
    }

    /// The number of keys.
    pub fn len(&self) -> u64
        ensures len { result ≡ length self.now }
        ensures distinct { AllPairs (λ a b. a ≢ b) self.now }
    {
        self.seen.len() as u64
    }
}
