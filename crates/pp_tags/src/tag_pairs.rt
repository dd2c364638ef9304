//! The tags of a profile.

ghost use Rattle.std.specs.Prelude.{◌≡◌, IfOk, OnOk, map};
ghost use Rattle.std.specs.List.{fold};
ghost use Rattle.std.specs.BTreeSet.{insert_key};
ghost use Rattle.pp_tags.specs.TagPairs.{tag_pairs, AreTagPairs};
ghost use Rattle.pp_tags.specs.Pairs.{pairs_in, pair_cmp, tag_with};

use crate::labels::has_text;
use pp_base::{List, Memory};
use pp_model::{Label, Loaded, Tag};
use std::alloc::Global;
use std::collections::BTreeSet;

/// The distinct pairs of key and text of the text labels of all samples, by rising key index, then rising text index.
/// `Err` is want of memory.
pub fn tags_of(alloc: Global, l: &Loaded) -> Result<List<Tag>, Memory>
    ensures pairs { IfOk result (λ tags. tags ≡ tag_pairs l.now.profile) }
    ensures law { AreTagPairs l.now.profile (tag_pairs l.now.profile) }
{
    let mut seen = BTreeSet::new(alloc);
    for s in l.profile.get().sample.as_slice() {
        add_pairs(s.label.as_slice(), &mut seen)?;
    }
    tags_with(alloc, seen)
}

// Adds the pairs of the text labels.
fn add_pairs(labels: &[Label], seen: &mut BTreeSet<(i64, i64)>) -> Result<(), Memory>
    ensures { OnOk result
        (seen.new.keys ≡ fold (insert_key pair_cmp) seen.old.keys (pairs_in labels.now)) }
{
    for label in labels {
        if has_text(label) {
            seen.insert((label.key, label.text))?;
        }
    }
    Ok(())
}

// The pairs as tags.
fn tags_with(alloc: Global, pairs: BTreeSet<(i64, i64)>) -> Result<List<Tag>, Memory>
    ensures { IfOk result (λ tags. tags ≡ map tag_with pairs.keys) }
{
    let tags = pairs
        .into_iter()
        .map(|(key, text)| Tag { key, text })
        .collect(alloc)?;
    Ok(List::from_vec(tags))
}
