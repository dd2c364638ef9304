//! What a run takes of the machine.

use std::alloc::Global;
use std::thread::Threads;

/// The threads, the files and the memory of the machine.
#[derive(Drop)]
pub struct Machine<'a, R: Threads + Sync> {
    pub threads: &'a R,
    pub host: &'a HostRuntime,
    pub alloc: Global,
}
