//! A node of a graph.

/// A name with its sums.
#[derive(Clone, Copy, Debug, PartialEq, Eq)]
pub struct Node {
    /// The name's number.
    pub name: u64,
    /// The sum over the samples whose leaf has the name.
    pub flat: i64,
    /// The sum over the samples that have the name, each once.
    pub cum: i64,
}
