//! What samples come to in a routine or in a line.

/// The sum of the samples whose leaf is there, and of those that have any frame there, each sample once.
#[derive(Clone, Copy, Debug, PartialEq, Eq)]
pub struct Amounts {
    /// The sum over the samples whose leaf is there, in the unit of the column.
    pub flat: i64,
    /// The sum over the samples that have any frame there, each sample once, in the same unit.
    pub cum: i64,
}
