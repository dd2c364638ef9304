//! What a session has of the machine.

use pp_keys::HashKeys;
use pp_model::Environment;
use pp_steal::Resources;
use std::alloc::Global;

/// What a session has of the machine that it runs on, apart from the objects of the outside.
#[derive(Drop)]
pub struct Host<'a, R, G> {
    /// Where the lanes' threads are made.
    pub rt: &'a R,
    /// Where everything is allocated.
    pub alloc: Global,
    /// The keys of the hash tables. No answer depends on them.
    pub keys: HashKeys,
    /// What each lane passes before and after a piece that it counts.
    pub gate: &'a G,
}

impl<'a, R, G> Host<'a, R, G> {
    /// What a call on as many workers as this environment has is lent.
    pub fn resources(&self, environment: &Environment) -> Resources<'a, R> {
        Resources {
            rt: self.rt,
            alloc: self.alloc,
            workers: environment.workers,
            keys: self.keys,
        }
    }
}
