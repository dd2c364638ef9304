//! The keys of hash tables.
//!
//! Whoever writes a file chooses what stands in a table of it. With keys that nobody knows outside of the run, no file
//! is made so that its entries collide. What a table answers is the same for all keys: they decide about its time
//! alone. The program takes `HashKeys::random` once, and lends it down. Tests take `HashKeys::fixed`.
#![tactic(auto)]

mod keys;
#[cfg(test)]
mod tests;

pub use keys::HashKeys;
