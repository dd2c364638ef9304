//! The nodes of the tree of paths, as they wait to be laid out.

use crate::path::Path;

/// A node of the tree of paths.
#[derive(Clone, Copy, Debug)]
pub struct Branch<'p, 'k> {
    /// How many keys stand above its own.
    pub depth: u32,
    /// The number of its key.
    pub key: u32,
    /// The sum over the paths that end here.
    pub flat: i64,
    /// The sum over the paths that go through here.
    pub cum: i64,
    /// The paths that go through here, whole.
    pub paths: &'p [Path<'k>],
}
