//! What calls on several workers are passed on.
ghost use Rattle.std.specs.Prelude.{◌≤◌};

use pp_keys::HashKeys;
use std::alloc::Global;

/// What a call on several workers is lent, and lends to those below it.
#[derive(Drop)]
pub struct Resources<'a, R> {
    /// Where the lanes' threads are made.
    pub rt: &'a R,
    /// Where everything is allocated.
    pub alloc: Global,
    /// How many lanes share the work, from 1 to 64. One works on the caller's thread.
    pub workers: u32,
    /// The keys of the hash tables. No answer depends on them.
    pub keys: HashKeys,
    pub ghost some: { 1 ≤ workers },
    pub ghost most: { workers ≤ 64 },
}
