//! Numbers that are given to tags at first sight.

use crate::tag_name::TagName;
use indexmap::IndexSet;
use pp_base::Memory;
use pp_keys::HashKeys;
use std::alloc::Global;
use std::marker::Model;

/// The tags seen so far, without repeats. A tag's number is its place in the order of first sight.
#[derive(Drop)]
pub struct TagNames<'a> {
    seen: IndexSet<TagName<'a>, HashKeys>,
}

impl<'a> Model for TagNames<'a> {
    ghost use Rattle.std.specs.Prelude.{List, map};
    ghost use Rattle.pp_samples.specs.TagLines.{TagTexts};
    ghost use Rattle.pp_samples.specs.Names.{name_texts};

    ghost Value = { List TagTexts };

    ghost view = { λ n. map name_texts n.seen.keys };
}

impl<'a> TagNames<'a> {
    ghost use Rattle.std.specs.Prelude.{◌≡◌, ◌<◌, [], length, slice_get, Some, IfOk, OnOk};
    ghost use Rattle.pp_model.specs.FirstSight.{seen_with, place_of};
    ghost use Rattle.pp_samples.specs.TagLines.{same_tag};
    ghost use Rattle.pp_samples.specs.Names.{name_texts};

    /// No tags.
    pub fn new(alloc: Global, hash_keys: HashKeys) -> Result<TagNames<'a>, Memory>
        ensures { IfOk result (λ names. names ≡ []) }
    {
        Ok(TagNames {
            seen: IndexSet::with_hasher(alloc, hash_keys),
        })
    }

    /// What the tags are hashed by, for other tables of the same file.
    pub fn hash_keys(&self) -> HashKeys {
        *self.seen.hasher()
    }

    /// The tag's number. A tag that is new gets the next one.
    pub fn number(&mut self, name: TagName<'a>) -> Result<u64, Memory>
        ensures number { IfOk result (λ n. n ≡ place_of same_tag self.old (name_texts name.entry)) }
        ensures seen { OnOk result (self.new ≡ seen_with same_tag self.old (name_texts name.entry)) }
    {
        let (n, _) = self.seen.insert_full(name)?;
        Ok(n as u64)
    }

    /// The tag with the number.
    pub fn name(&self, n: u64) -> &TagName<'a>
        requires { n < length self.now }
        ensures { slice_get self.now n ≡ Some (name_texts result.now) }
    {
        &self.seen.as_slice()[n as usize]
    }

    /// The number of tags.
    pub fn len(&self) -> u64
        ensures { result ≡ length self.now }
    {
        self.seen.len() as u64
    }
}
