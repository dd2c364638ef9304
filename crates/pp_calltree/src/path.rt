//! The paths of samples, in order.
ghost use Rattle.std.specs.Prelude.{◌≡◌, ◌≤◌, ℕ, List as Seq, length, map, IfOk, OnOk};
ghost use Rattle.std.specs.List.{sum_by};
ghost use Rattle.std.specs.List.Sorted.{IsPermutation, IsSorted};
ghost use Rattle.pp_calltree.specs.CallTree.{all_lengths};
ghost use Rattle.pp_calltree.specs.Paths.{below, path_of, path_cmp, parts_of};

use pp_base::Memory;
use std::alloc::Global;

/// A sample's path.
#[derive(Clone, Copy, Debug)]
pub struct Path<'a> {
    /// The sample's value.
    pub value: i64,
    /// The numbers of its keys, root first.
    pub keys: &'a [u32],
}

/// What a path has of the keys of many, which stand one behind the other.
#[derive(Clone, Copy, Debug)]
pub struct PathPart {
    /// The sample's value.
    pub value: i64,
    /// How many keys.
    pub len: usize,
}

/// The paths that have these parts of the keys, in order.
pub fn cut_paths<'a>(
    alloc: Global,
    keys: &'a [u32],
    parts: &[PathPart],
) -> Result<Vec<Path<'a>>, Memory>
    requires { sum_by (λ s. s.len) parts.now ≤ length keys.now }
    ensures { IfOk result (λ paths. map path_of paths.items ≡ parts_of keys.now parts.now) }
{
    let mut paths = Vec::with_capacity(alloc, parts.len())?;
    let mut rest = keys;
    for part in parts {
        let (keys, after) = rest.split_at(part.len);
        paths.push(Path {
            value: part.value,
            keys,
        })?;
        rest = after;
    }
    Ok(paths)
}

/// Sorts the paths by their keys, those of the root first. A path stands before those that go on from it.
pub fn sort_paths(paths: &mut Vec<Path>) -> Result<(), Memory>
    ensures sorted { OnOk result (IsSorted path_cmp paths.new.items) }
    ensures same { IsPermutation paths.old.items paths.new.items }
{
    paths.sort_by(|a, b| a.keys.cmp(&b.keys))?;
    Ok(())
}

/// How many nodes the tree of these sorted paths has.
pub fn node_count(paths: &[Path]) -> usize
    ensures { result ≤ all_lengths (below 0 paths.now) }
{
    let mut count: usize = 0;
    for (place, path) in paths.iter().enumerate() {
        let shared = if place > 0 {
            shared_length(paths[place - 1].keys, path.keys)
        } else {
            0
        };
        count = count.saturating_add(path.keys.len() - shared);
    }
    count
}

// With how many keys both begin.
fn shared_length(before: &[u32], keys: &[u32]) -> usize
    ensures { result ≤ length keys.now }
{
    for (place, key) in keys.iter().enumerate() {
        if before.get(place) != Some(key) {
            return place;
        }
    }
    keys.len()
}
