//! The branches of a node, as siblings stand.
ghost use Rattle.std.specs.Prelude.{◌≡◌, ◌<◌, ◌≤◌, ◌^◌, IfOk, OnOk};
ghost use Rattle.std.specs.Ordering.{ordering_then};
ghost use Rattle.std.specs.List.Sorted.{IsPermutation, IsSorted};
ghost use Rattle.pp_count.specs.Sums.{absolute};
ghost use Rattle.pp_calltree.specs.Listed.{AddsBranches};
ghost use Rattle.pp_calltree.specs.Paths.{below, IsRising};
ghost use Rattle.pp_calltree.specs.Siblings.{branch_cmp, size_cmp};

use crate::branch::Branch;
use crate::branching::find_branches;
use crate::path::Path;
use crate::texts::NameTexts;
use pp_base::Memory;
use pp_grain::texts_order;
use std::cmp::Ordering;

/// Adds the branches of the paths below `depth` keys to `waiting`, the last one first. `found` is room for them.
pub fn push_branches<'p, 'k>(
    texts: &NameTexts,
    paths: &'p [Path<'k>],
    depth: usize,
    found: &mut Vec<Branch<'p, 'k>>,
    waiting: &mut Vec<Branch<'p, 'k>>,
) -> Result<(), Memory>
    requires deep { depth ≤ 2 ^ 32 }
    requires rises { IsRising (below depth paths.now) }
    requires fits { absolute (below depth paths.now) < 2 ^ 63 }
    ensures { IfOk result (λ _.
        AddsBranches texts.now depth paths.now waiting.old.items waiting.new.items) }
{
    find_branches(paths, depth, found)?;
    sort_branches(texts, found)?;
    found.reverse();
    waiting.append(found)?;
    Ok(())
}

// Sorts the branches by absolute cum falling, then by absolute flat falling, then by the order of their keys.
fn sort_branches(texts: &NameTexts, list: &mut Vec<Branch>) -> Result<(), Memory>
    ensures sorted { OnOk result (IsSorted (branch_cmp texts.now) list.new.items) }
    ensures same { IsPermutation list.old.items list.new.items }
{
    list.sort_by(|a, b| branch_order(texts, a, b))?;
    Ok(())
}

fn branch_order(texts: &NameTexts, a: &Branch, b: &Branch) -> Ordering
    ensures { result ≡ branch_cmp texts.now a.now b.now }
{
    let sums = sum_order(a, b);
    if sums.is_ne() {
        return sums;
    }
    texts_order(&texts.at(a.key as u64), &texts.at(b.key as u64))
}

// By absolute cum falling, then by absolute flat falling.
fn sum_order(a: &Branch, b: &Branch) -> Ordering
    ensures { result ≡ ordering_then (size_cmp a.now.cum b.now.cum) (size_cmp a.now.flat b.now.flat) }
{
    b.cum
        .unsigned_abs()
        .cmp(&a.cum.unsigned_abs())
        .then(b.flat.unsigned_abs().cmp(&a.flat.unsigned_abs()))
}
