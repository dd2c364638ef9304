//! The branches of paths: what they come to by the first of the keys that are left of them.
ghost use Rattle.std.specs.Prelude.{◌≡◌, ℕ, ◌+◌, ◌+ℤ◌, ◌<◌, ◌≤◌, ◌^◌, nat_abs, pos, length, IfOk};
ghost use Rattle.pp_count.specs.Sums.{absolute, sum_where};
ghost use Rattle.pp_calltree.specs.CallTree.{any_path, is_end};
ghost use Rattle.pp_calltree.specs.Paths.{below, first_run, has_key_below, own_path_value, run_length, IsRising};
ghost use Rattle.pp_calltree.specs.Branches.{HasBranches, IsBranchOf, IsStep};
ghost use Rattle.pp_calltree.specs.Listed.{GoOn};

use crate::branch::Branch;
use crate::path::Path;
use crate::paths::number;
use pp_base::Memory;

/// Makes the branches of these sorted paths below `depth` keys the content of `found`.
pub fn find_branches<'p, 'k>(
    paths: &'p [Path<'k>],
    depth: usize,
    found: &mut Vec<Branch<'p, 'k>>,
) -> Result<(), Memory>
    requires deep { depth ≤ 2 ^ 32 }
    requires rises { IsRising (below depth paths.now) }
    requires fits { absolute (below depth paths.now) < 2 ^ 63 }
    ensures branches { IfOk result (λ _. HasBranches depth paths.now found.new.items) }
    ensures go_on { IfOk result (λ _. GoOn depth paths.now found.new.items) }
{
    found.clear();
    let mut from = 0;
    while from < paths.len() {
        let rest = &paths[from..];
        let count = first_run(rest, depth);
        add_branch(&rest[..count], depth, found)?;
        from += count;
    }
    Ok(())
}

// How many of the paths have the first one's key below `depth` others. 1 if it has none there.
fn first_run(paths: &[Path], depth: usize) -> usize
    requires { 0 < length paths.now }
    ensures value { result ≡ first_run depth paths.now }
    ensures within { result ≤ length paths.now }
{
    match paths[0].keys.get(depth) {
        Some(key) => run_length(paths, depth, *key),
        None => 1,
    }
}

// How many of the paths, from the first on, have this key below `depth` others.
fn run_length(paths: &[Path], depth: usize, key: u32) -> usize
    ensures value { result ≡ run_length (has_key_below depth key) paths.now }
    ensures within { result ≤ length paths.now }
{
    for (place, path) in paths.iter().enumerate() {
        if !has_key(path, depth, key) {
            return place;
        }
    }
    paths.len()
}

fn has_key(path: &Path, depth: usize, key: u32) -> bool
    ensures { result ≡ has_key_below depth key path.now }
{
    match path.keys.get(depth) {
        Some(other) => *other == key,
        None => false,
    }
}

// Adds the branch of a run's key, which is that of its first path. Where that has none, there is no branch.
fn add_branch<'p, 'k>(
    run: &'p [Path<'k>],
    depth: usize,
    found: &mut Vec<Branch<'p, 'k>>,
) -> Result<(), Memory>
    requires some { 0 < length run.now }
    requires deep { depth ≤ 2 ^ 32 }
    requires fits { absolute (below (depth + 1) run.now) < 2 ^ 63 }
    ensures { IfOk result (λ _. IsStep depth run.now found.old.items found.new.items) }
{
    let Some(key) = run[0].keys.get(depth) else {
        return Ok(());
    };
    found.push(branch_of(run, depth, *key)?)?;
    Ok(())
}

// The branch of the key, which all these paths have below `depth` others.
fn branch_of<'p, 'k>(run: &'p [Path<'k>], depth: usize, key: u32) -> Result<Branch<'p, 'k>, Memory>
    requires deep { depth ≤ 2 ^ 32 }
    requires fits { absolute (below (depth + 1) run.now) < 2 ^ 63 }
    ensures { IfOk result (IsBranchOf depth key run.now) }
{
    let (flat, cum) = sums_of(run, depth + 1);
    Ok(Branch {
        depth: number(depth as u64)?,
        key,
        flat,
        cum,
        paths: run,
    })
}

// The sums over the paths that have no key below `depth` others, and over all.
fn sums_of(run: &[Path], depth: usize) -> (i64, i64)
    requires { absolute (below depth run.now) < 2 ^ 63 }
    ensures flat { result.0 ≡ sum_where is_end (below depth run.now) }
    ensures cum { result.1 ≡ sum_where any_path (below depth run.now) }
{
    let mut flat = 0;
    let mut cum = 0;
    for path in run {
        cum = plus(cum, path.value);
        flat = plus(flat, own_value(path, depth));
    }
    (flat, cum)
}

// The value of a path that has no key below `depth` others, and else 0.
fn own_value(path: &Path, depth: usize) -> i64
    ensures { result ≡ own_path_value depth path.now }
{
    match path.keys.get(depth) {
        Some(_) => 0,
        None => path.value,
    }
}

/// The sum with one value more.
pub fn plus(sum: i64, value: i64) -> i64
    requires { nat_abs sum + nat_abs value < 2 ^ 63 }
    ensures { result ≡ sum +ℤ value }
{
    sum + value
}
