// The ids of a table.
ghost use Rattle.std.specs.Prelude.{◌≡◌, ℕ, ◌==◌, ◌||◌, not, [], IfOk};
ghost use Rattle.pp_check.specs.Known.{holds, Knows, Inserts};

use pp_base::Memory;
use pp_keys::HashKeys;
use std::alloc::Global;
use std::collections::HashSet;

/// The ids from 1 up to a number, and others. A table whose ids are places plus 1 has no others.
#[derive(Drop)]
pub struct IdSet {
    numbered: u64,
    others: HashSet<u64, HashKeys>,
}

impl IdSet {
    /// No ids. It takes no memory.
    pub fn new(alloc: Global, keys: HashKeys) -> Self
        ensures { Knows result [] }
    {
        IdSet {
            numbered: 0,
            others: HashSet::with_hasher(alloc, keys),
        }
    }

    /// Whether the id is one of these.
    pub fn contains(&self, id: u64) -> bool
        ensures { result ≡ holds self.now id }
    {
        0 < id && id <= self.numbered || self.others.contains(&id)
    }

    /// Adds the id, and tells whether it is new.
    pub fn insert(&mut self, id: u64) -> Result<bool, Memory>
        ensures added { IfOk result (λ added. added ≡ not (holds self.old id)) }
        ensures after { IfOk result (λ added. Inserts self.old self.new id) }
    {
        if self.contains(id) {
            return Ok(false);
        }
        if id.checked_sub(1) == Some(self.numbered) {
            self.numbered = id;
        } else {
            self.others.insert(id)?;
        }
        Ok(true)
    }
}
