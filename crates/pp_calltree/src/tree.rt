//! The nodes of a call tree, and the walk of the tree.
ghost use Rattle.std.specs.Prelude.{◌≡◌, ◌<◌, Some, None, length, slice_get, slice_index_or, IfOk};
ghost use Rattle.pp_count.specs.Table.{no_key};
ghost use Rattle.pp_calltree.specs.Tree.{first_root, first_child, next_sibling, parent};
ghost use Rattle.pp_calltree.specs.Links.{node_by, AreParents, AreNexts};

use crate::linking::{child_at, nexts_of, parents_of};
use pp_base::{List, Memory};
use pp_grain::{Key, Names};
use std::alloc::Global;
use std::marker::Model;

/// A node of a call tree.
#[derive(Clone, Copy, Debug, PartialEq, Eq, Drop)]
pub struct PathNode {
    /// The key at which the node's path ends.
    pub key: Key,
    /// The sum over the samples whose path ends here.
    pub flat: i64,
    /// The sum over the samples whose path goes through here.
    pub cum: i64,
    /// How many keys stand above this one.
    pub depth: u64,
}

/// A node, by the number of its key.
#[derive(Clone, Copy, Debug)]
pub struct NumberedNode {
    /// The number of its key.
    pub key: u32,
    /// How many keys stand above its own.
    pub depth: u32,
    /// The sum over the samples whose path ends here.
    pub flat: i64,
    /// The sum over the samples whose path goes through here.
    pub cum: i64,
}

/// The nodes of a report's call tree, without links. Contracts see their list, parents before children.
#[derive(Drop)]
pub struct PathNodes<'a> {
    /// The keys, by number.
    pub(crate) names: &'a Names,
    pub(crate) nodes: List<NumberedNode>,
}

impl<'a> Model for PathNodes<'a> {
    ghost use Rattle.std.specs.Prelude.{List as Seq};
    ghost use Rattle.pp_calltree.specs.declared.tree.PathNode.{PathNode};

    ghost Value = { Seq PathNode };

    ghost use Rattle.pp_calltree.specs.Links.{nodes_by};

    ghost view = { λ t. nodes_by t.names.now t.nodes };
}

impl PathNodes<'_> {
    /// The number of nodes.
    pub fn len(&self) -> u64
        ensures { result ≡ length self.now }
    {
        self.nodes.len() as u64
    }

    /// The node at index `n`.
    pub fn node(&self, n: u64) -> PathNode
        requires { n < length self.now }
        ensures { slice_get self.now n ≡ Some result }
    {
        named(self.names, &self.nodes.as_slice()[n as usize])
    }

    // The first root, None where there is no node.
    fn first_root(&self) -> Option<u64>
        ensures { result ≡ first_root self.now }
    {
        match self.nodes.as_slice() {
            [] => None,
            [_, ..] => Some(0),
        }
    }

    // The first child of the node at index `n`, None where it has none.
    fn first_child(&self, n: u64) -> Option<u64>
        requires { n < length self.now }
        ensures { result ≡ first_child self.now n }
    {
        child_at(self.nodes.as_slice(), n as usize)
    }

    /// The parent of each node.
    pub fn parents(&self, alloc: Global) -> Result<Vec<Option<u32>>, Memory>
        ensures { IfOk result (λ parents. AreParents self.now parents.items) }
    {
        parents_of(alloc, self.nodes.as_slice())
    }

    /// The next sibling of each node.
    pub fn nexts(&self, alloc: Global) -> Result<Vec<Option<u32>>, Memory>
        ensures { IfOk result (λ nexts. AreNexts self.now nexts.items) }
    {
        nexts_of(alloc, self.nodes.as_slice())
    }
}

/// The call tree of a report. Contracts see the list of its nodes, parents before children.
#[derive(Drop)]
pub struct CallTree<'a> {
    pub(crate) tree: PathNodes<'a>,
    /// For each node, the place of its parent, none for a root.
    pub(crate) parents: Vec<Option<u32>>,
    /// For each node, the place of the sibling after it, none for the last one.
    pub(crate) nexts: Vec<Option<u32>>,
}

impl<'a> Model for CallTree<'a> {
    ghost use Rattle.std.specs.Prelude.{List as Seq};
    ghost use Rattle.pp_calltree.specs.declared.tree.PathNode.{PathNode};

    ghost Value = { Seq PathNode };

    ghost use Rattle.pp_calltree.specs.Links.{AreLinked};

    ghost view = { λ t. t.tree };

    ghost invariant = { λ t. AreLinked t.tree t.parents.items t.nexts.items };
}

impl CallTree<'_> {
    /// The number of nodes.
    pub fn nodes(&self) -> u64
        ensures { result ≡ length self.now }
    {
        self.tree.len()
    }

    /// The first root, None where there is no node.
    pub fn first_root(&self) -> Option<u64>
        ensures { result ≡ first_root self.now }
    {
        self.tree.first_root()
    }

    /// The first of the node's children, None where it has none.
    pub fn first_child(&self, n: u64) -> Option<u64>
        requires { n < length self.now }
        ensures { result ≡ first_child self.now n }
    {
        self.tree.first_child(n)
    }

    /// The sibling after the node, None where it is the last one.
    pub fn next_sibling(&self, n: u64) -> Option<u64>
        requires { n < length self.now }
        ensures { result ≡ next_sibling self.now n }
    {
        place_at(&self.nexts, n)
    }

    /// The node whose child this one is, None where it is a root.
    pub fn parent(&self, n: u64) -> Option<u64>
        requires { n < length self.now }
        ensures { result ≡ parent self.now n }
    {
        place_at(&self.parents, n)
    }

    /// The node with the number.
    pub fn node(&self, n: u64) -> PathNode
        requires { n < length self.now }
        ensures { slice_get self.now n ≡ Some result }
    {
        self.tree.node(n)
    }
}

// The place that stands at the number, none past the end.
fn place_at(links: &[Option<u32>], n: u64) -> Option<u64>
    ensures { result ≡ slice_index_or links.now n None }
{
    match links.get(n as usize) {
        Some(Some(place)) => Some(*place as u64),
        _ => None,
    }
}

// The node with its key. Each number has one.
fn named(names: &Names, node: &NumberedNode) -> PathNode
    ensures { result ≡ node_by names.now node.now }
{
    PathNode {
        key: key_at(names, node.key as u64),
        flat: node.flat,
        cum: node.cum,
        depth: node.depth as u64,
    }
}

/// The key with the number. One without texts, where no key has it.
pub fn key_at(names: &Names, n: u64) -> Key
    ensures { result ≡ slice_index_or names.now n no_key }
{
    if n < names.len() {
        names.key(n)
    } else {
        NO_KEY
    }
}

// What no number stands for.
const NO_KEY: Key = Key {
    function: 0,
    file: 0,
    line: 0,
    column: 0,
    address: 0,
    object: 0,
};
