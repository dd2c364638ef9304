//! The call tree, walked by its links.
ghost use Rattle.std.specs.Prelude.{◌<◌, length, All};
ghost use Rattle.pp_grain.specs.Keys.{IsKeyOf};

use anyhow::{Result, ensure};
use pp_base::Text;
use pp_calltree::{CallTree, PathNode};
use pp_count::Survey;
use pp_model::Loaded;
use std::alloc::Global;

/// Appends a line for each node of the report's call tree.
pub fn put_tree(alloc: Global, survey: &Survey<'_>, out: &mut Text) -> Result<()> {
    let tree = CallTree::build(alloc, survey)?;
    let put = put_nodes(alloc, survey.l, &tree, out);
    drop(tree);
    put
}

// Parents before children, siblings in their order.
fn put_nodes(alloc: Global, l: &Loaded, tree: &CallTree<'_>, out: &mut Text) -> Result<()>
    requires { All (λ n. IsKeyOf l.now.profile n.key) tree.now }
{
    let mut next = tree.first_root();
    for _ in 0..tree.nodes() {
        let Some(place) = next else {
            return Ok(());
        };
        ensure!(place < tree.nodes(), "no node of the tree");
        put_node(alloc, l, &tree.node(place), out)?;
        next = after(tree, place);
    }
    Ok(())
}

// How deep it is, its own sum, that with callees, and its name.
fn put_node(alloc: Global, l: &Loaded, node: &PathNode, out: &mut Text) -> Result<()>
    requires { IsKeyOf l.now.profile node.now.key }
{
    let (depth, flat, cum) = (node.depth, node.flat, node.cum);
    let line = format!(in alloc; "\ndepth {depth}: {flat} of {cum} ")?;
    out.extend(line.as_bytes())?;
    Ok(pp_grain::write_name(l, &node.key, out)?)
}

// The first child, or else what stands beside the node.
fn after(tree: &CallTree<'_>, place: u64) -> Option<u64>
    requires { place < length tree.now }
{
    match tree.first_child(place) {
        Some(child) => Some(child),
        None => beside(tree, place),
    }
}

// The next sibling of the node, or of the nearest node above it that has one.
fn beside(tree: &CallTree<'_>, place: u64) -> Option<u64> {
    let mut place = place;
    for _ in 0..tree.nodes() {
        if place >= tree.nodes() {
            return None;
        }
        if let Some(sibling) = tree.next_sibling(place) {
            return Some(sibling);
        }
        place = tree.parent(place)?;
    }
    None
}
