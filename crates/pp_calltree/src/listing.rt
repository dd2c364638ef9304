//! The paths of a call tree that samples end at, without its nodes.
ghost use Rattle.std.specs.Prelude.{◌≡◌, ◌≢◌, ◌++◌, ℕ, ◌+◌, ◌<◌, ◌^◌, List as Seq, length, map, All, AllPairs, IfOk};
ghost use Rattle.std.specs.List.{filter};
ghost use Rattle.pp_model.specs.declared.profile.Profile.{Profile as Tables};
ghost use Rattle.pp_model.specs.Rules.{IsCompact};
ghost use Rattle.pp_grain.specs.declared.key.Key.{Key};
ghost use Rattle.pp_grain.specs.Keys.{IsKeyOf, key_cmp};
ghost use Rattle.pp_count.specs.Sums.{absolute};
ghost use Rattle.pp_calltree.specs.Branches.{branch_samples};
ghost use Rattle.pp_calltree.specs.CallPaths.{all_paths, has_sum, path_written, HasKeysOf};
ghost use Rattle.pp_calltree.specs.CallTree.{all_lengths};
ghost use Rattle.pp_calltree.specs.Laid.{written_out, CanLay, HasRoom};
ghost use Rattle.pp_calltree.specs.Listed.{trail, unless_zero, IsListable, PassesOn};
ghost use Rattle.pp_calltree.specs.Paths.{below, IsRising};

use crate::branch::Branch;
use crate::path::Path;
use crate::siblings::push_branches;
use crate::texts::NameTexts;
use pp_base::Memory;
use pp_grain::Names;
use pp_model::Profile;
use std::alloc::Global;

/// A path from a root, and the sum over the samples that end there.
#[derive(Clone, Copy, Debug)]
pub struct PathSum<'k> {
    /// The numbers of its keys, root first.
    pub keys: &'k [u32],
    /// The sum over the samples whose path it is.
    pub sum: i64,
}

/// What the sorted paths, whose keys are numbers of the names, come to where the sum isn't 0.
pub fn list_paths<'k>(
    alloc: Global,
    p: &Profile,
    names: &Names,
    paths: &[Path<'k>],
) -> Result<Vec<PathSum<'k>>, Memory>
    requires compact { IsCompact p.now }
    requires keys { All (IsKeyOf p.now) names.now }
    requires distinct { AllPairs (λ a b. a ≢ b) names.now }
    requires room { HasRoom names.now (all_lengths (below 0 paths.now)) (below 0 paths.now) }
    requires rises { IsRising (below 0 paths.now) }
    ensures are { IfOk result (λ sums. map (path_written p.now names.now) sums.items
        ≡ filter has_sum (all_paths key_cmp (written_out p.now names.now (below 0 paths.now)))) }
    ensures keys { IfOk result (λ sums. All (HasKeysOf p.now names.now) sums.items) }
{
    let texts = NameTexts::new(p, names);
    let mut found = Vec::new(alloc);
    let mut waiting = Vec::new(alloc);
    push_branches(&texts, paths, 0, &mut found, &mut waiting)?;
    let mut sums = Vec::with_capacity(alloc, paths.len())?;
    while let Some(branch) = waiting.pop() {
        pass_on(&texts, &branch, &mut found, &mut waiting, &mut sums)?;
    }
    Ok(sums)
}

// Lists the path of the branch, if its sum isn't 0, and has the branches below it wait. Where one path alone goes
// through the branch, none but the whole of it can have a sum: that is listed at once, and nothing waits.
fn pass_on<'p, 'k>(
    texts: &NameTexts,
    branch: &Branch<'p, 'k>,
    found: &mut Vec<Branch<'p, 'k>>,
    waiting: &mut Vec<Branch<'p, 'k>>,
    sums: &mut Vec<PathSum<'k>>,
) -> Result<(), Memory>
    requires rises { IsRising (branch_samples branch.now) }
    requires fits { absolute (branch_samples branch.now) < 2 ^ 63 }
    requires long { length (trail branch.now) ≡ branch.now.depth + 1 }
    ensures { (p : Tables) (names : Seq Key) (most : ℕ) →
        CanLay p names texts.now → IsListable names most branch.now →
        IfOk result (λ _. PassesOn p names most branch.now
        waiting.old.items waiting.new.items sums.old.items sums.new.items) }
{
    if branch.paths.len() == 1 {
        let path = branch.paths[0];
        return push_sum(path.keys, path.value, sums);
    }
    let depth = branch.depth as usize + 1;
    let keys = &branch.paths[0].keys[..depth];
    push_sum(keys, branch.flat, sums)?;
    push_branches(texts, branch.paths, depth, found, waiting)
}

// Adds the path, unless its sum is 0.
fn push_sum<'k>(keys: &'k [u32], sum: i64, sums: &mut Vec<PathSum<'k>>) -> Result<(), Memory>
    ensures { IfOk result (λ _. sums.new.items
        ≡ sums.old.items ++ unless_zero (record { keys = keys.entry; sum = sum })) }
{
    if sum == 0 {
        return Ok(());
    }
    sums.push(PathSum { keys, sum })?;
    Ok(())
}
