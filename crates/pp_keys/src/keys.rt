//! How a table hashes: SipHash-1-3 behind keys.

use std::fmt;
use std::fmt::{Debug, Formatter};
use std::hash::{BuildHasher, DefaultHasher, RandomState};
use std::random::RandomSource;

/// The keys of hash tables. A table over them answers as one over any others.
#[derive(Clone, Copy)]
pub struct HashKeys {
    // The hasher that has taken the keys, and nothing of an entry.
    keyed: DefaultHasher,
}

impl HashKeys {
    /// Keys from the system's randomness, and the fixed ones if the system gives none.
    pub fn random(rt: &impl RandomSource) -> HashKeys {
        match RandomState::new(rt) {
            Ok(state) => HashKeys {
                keyed: state.build_hasher(),
            },
            Err(_) => HashKeys::fixed(),
        }
    }

    /// The keys 0 and 0, for tests, and for callers that have no runtime.
    pub fn fixed() -> HashKeys {
        HashKeys {
            keyed: DefaultHasher::new(),
        }
    }
}

impl BuildHasher for HashKeys {
    type Hasher = DefaultHasher;

    ghost build_hasher = { λ keys. keys.keyed };

    fn build_hasher(&self) -> DefaultHasher {
        self.keyed
    }
}

impl Debug for HashKeys {
    // The keys themselves stay out of every text.
    fn fmt<W: fmt::Write>(&self, f: &mut Formatter<W>) -> fmt::Result {
        f.debug_struct("HashKeys").finish_non_exhaustive()
    }
}
