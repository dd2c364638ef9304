//! The nodes of a call tree, laid out parents before children.
ghost use Rattle.std.specs.Prelude.{◌≡◌, ◌≢◌, ◌+◌, ◌<◌, ◌^◌, [], ◌∷◌, ◌++◌, nat_abs, map, All, AllPairs, IfOk};
ghost use Rattle.std.specs.List.{sum_by};
ghost use Rattle.pp_model.specs.Rules.{IsCompact};
ghost use Rattle.pp_grain.specs.Keys.{IsKeyOf, key_cmp};
ghost use Rattle.pp_count.specs.Sums.{absolute};
ghost use Rattle.pp_calltree.specs.Branches.{branch_samples};
ghost use Rattle.pp_calltree.specs.CallTree.{all_lengths, any_row, tree_rows};
ghost use Rattle.pp_calltree.specs.Laid.{HasRoom, node_row, written_out};
ghost use Rattle.pp_calltree.specs.Links.{nodes_by};
ghost use Rattle.pp_calltree.specs.Listed.{AddsBranches};
ghost use Rattle.pp_calltree.specs.Paths.{below, IsRising};

use crate::branch::Branch;
use crate::path::{Path, node_count};
use crate::siblings::push_branches;
use crate::texts::NameTexts;
use crate::tree::NumberedNode;
use pp_base::{List, Memory};
use pp_grain::Names;
use pp_model::Profile;
use std::alloc::Global;

/// The nodes of the sorted paths, whose keys are numbers of the names.
pub fn lay_out(
    alloc: Global,
    p: &Profile,
    names: &Names,
    paths: &[Path],
) -> Result<List<NumberedNode>, Memory>
    requires compact { IsCompact p.now }
    requires keys { All (IsKeyOf p.now) names.now }
    requires distinct { AllPairs (λ a b. a ≢ b) names.now }
    requires room { HasRoom names.now (all_lengths (below 0 paths.now)) (below 0 paths.now) }
    requires rises { IsRising (below 0 paths.now) }
    ensures rows { IfOk result (λ nodes. map (node_row p.now) (nodes_by names.now nodes)
        ≡ tree_rows key_cmp any_row (written_out p.now names.now (below 0 paths.now))) }
    ensures keys { IfOk result (λ nodes. All (λ n. IsKeyOf p.now n.key) (nodes_by names.now nodes)) }
    ensures fits { IfOk result (λ nodes.
        sum_by (λ n. nat_abs n.flat) (nodes_by names.now nodes) < 2 ^ 63) }
{
    let texts = NameTexts::new(p, names);
    let mut found = Vec::new(alloc);
    let mut waiting = Vec::new(alloc);
    push_branches(&texts, paths, 0, &mut found, &mut waiting)?;
    let mut nodes = Vec::with_capacity(alloc, node_count(paths))?;
    while let Some(branch) = waiting.pop() {
        put_node(&texts, &branch, &mut found, &mut waiting, &mut nodes)?;
    }
    Ok(List::from_vec(nodes))
}

// Adds the node of the branch, and has the branches below it wait.
fn put_node<'p, 'k>(
    texts: &NameTexts,
    branch: &Branch<'p, 'k>,
    found: &mut Vec<Branch<'p, 'k>>,
    waiting: &mut Vec<Branch<'p, 'k>>,
    nodes: &mut Vec<NumberedNode>,
) -> Result<(), Memory>
    requires rises { IsRising (branch_samples branch.now) }
    requires fits { absolute (branch_samples branch.now) < 2 ^ 63 }
    ensures node { IfOk result (λ _. nodes.new.items ≡ nodes.old.items ++ (record {
      key = branch.now.key;
      depth = branch.now.depth;
      flat = branch.now.flat;
      cum = branch.now.cum;
    }) ∷ []) }
    ensures adds { IfOk result (λ _. AddsBranches texts.now (branch.now.depth + 1)
        branch.now.paths.now waiting.old.items waiting.new.items) }
{
    nodes.push(NumberedNode {
        key: branch.key,
        depth: branch.depth,
        flat: branch.flat,
        cum: branch.cum,
    })?;
    push_branches(
        texts,
        branch.paths,
        branch.depth as usize + 1,
        found,
        waiting,
    )
}
