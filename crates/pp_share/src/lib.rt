//! A profile with each thing once: equal texts, functions, mappings, locations and samples are made one.
//!
//! `share` and `share_on` go this way, and `sharing` is the file to begin with:
//!
//! 1. Each table is left with one entry of a kind (`texts`, `functions`, `places`, over `first_sight`). What the old
//!    ids become is a `Renumbering` (`ids`, `renumbering`). The samples keep their ids until they are written.
//! 2. Each sample is hashed by the ids that it gets (`hashing`, `hashes`), unless its hash is known from a check
//!    (`hashed`, `kept`).
//! 3. Samples are sorted by hash, and those of equal hash are compared (`repeats`, `stack_order`). The values of each
//!    are added to the first of its kind (`samples`).
//! 4. What the samples name is written in the order in which a walk over them meets it (`write`, `walk`, `met`,
//!    `placing`, `lanes`, `gather`).
#![tactic(auto)]

mod behind;
mod change;
mod first_sight;
mod functions;
mod gather;
mod hashed;
mod hashes;
mod hashing;
mod ids;
mod kept;
mod known;
mod lanes;
mod met;
mod places;
mod placing;
mod renumbering;
mod repeats;
mod samples;
mod sharing;
mod stack_order;
mod texts;
mod walk;
mod write;

pub use behind::Behind;
pub use change::{Change, change_each};
pub use hashed::Hashed;
pub use hashes::{Hashes, OwnIds, SampleHash, hash_samples};
pub use ids::{Ids, Known};
pub use known::{are_in_place, known_ids};
pub use renumbering::{Renumbering, renumber};
pub use sharing::{share, share_on};
