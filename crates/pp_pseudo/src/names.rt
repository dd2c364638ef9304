//! Numbers that are given to names at first sight.
ghost use Rattle.std.specs.Prelude.{◌≡◌, map, IfOk};

use indexmap::IndexSet;
use pp_base::{List, Memory, Text};
use pp_keys::HashKeys;
use std::alloc::Global;
use std::marker::Model;

/// The names seen so far, without repeats. A name's number is its place in the order of first sight.
#[derive(Drop)]
pub struct FrameNames {
    seen: IndexSet<Vec<u8>, HashKeys>,
}

impl Model for FrameNames {
    ghost use Rattle.std.specs.Prelude.{ℕ, List as Seq, map};

    ghost Value = { Seq (Seq ℕ) };

    ghost view = { λ n. map (λ name. name.items) n.seen.keys };
}

impl FrameNames {
    ghost use Rattle.std.specs.Prelude.{◌≡◌, ◌<◌, ◌^◌, [], length, Contains, IfOk, IsOk};
    ghost use Rattle.pp_pseudo.specs.Names.{IsNumberedName};

    /// No names.
    pub fn new(alloc: Global, hash_keys: HashKeys) -> FrameNames
        ensures { result ≡ [] }
    {
        FrameNames {
            seen: IndexSet::with_hasher(alloc, hash_keys),
        }
    }

    /// The name's number. A name that is new gets the next one; one that is known takes no memory.
    pub fn number(&mut self, alloc: Global, name: &[u8]) -> Result<u64, Memory>
        ensures numbered { IfOk result (λ n. IsNumberedName self.old self.new name.now n) }
        ensures small { IfOk result (λ n. n < 2 ^ 60) }
        ensures known { Contains self.old name.now → IsOk result }
    {
        let next = self.len();
        if let Some(n) = self.seen.get_index_of(name) {
            return Ok(n as u64);
        }
        let key = Text::from_slice(alloc, name)?.into_vec();
        self.seen.insert(key)?;
        Ok(next)
    }

    /// The number of names, which memory bounds.
    pub fn len(&self) -> u64
        ensures len { result ≡ length self.now }
        ensures small { result < 2 ^ 60 }
    {
        self.seen.as_slice().len() as u64
    }

    /// The names as texts, in the order of their numbers.
    pub fn into_texts(self, alloc: Global) -> Result<List<Text>, Memory>
        ensures { IfOk result (λ texts. texts ≡ self) }
    {
        let names = keys_of(alloc, self.seen)?;
        texts_of(alloc, names)
    }
}

// The names of the set, in order.
fn keys_of(alloc: Global, seen: IndexSet<Vec<u8>, HashKeys>) -> Result<Vec<Vec<u8>>, Memory>
    ensures { IfOk result (λ names. names.items ≡ seen.keys) }
{
    let names = seen.into_iter().collect(alloc)?;
    Ok(names)
}

// The names as texts.
fn texts_of(alloc: Global, names: Vec<Vec<u8>>) -> Result<List<Text>, Memory>
    ensures { IfOk result (λ texts. texts ≡ map (λ name. name.items) names.items) }
{
    let mut texts = List::new(alloc);
    for name in names {
        texts.push(Text::from_vec(name))?;
    }
    Ok(texts)
}
