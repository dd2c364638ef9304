//! An edge of a report.

/// What the samples come to in which one key stands directly over another.
#[derive(Clone, Copy, Debug, PartialEq, Eq)]
pub struct Edge {
    /// The caller's number among the names.
    pub from: u64,
    /// The callee's number.
    pub to: u64,
    /// The sum over the samples, each once.
    pub value: i64,
}
