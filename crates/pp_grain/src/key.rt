//! What a row stands for, as indices.

/// A function, a file, a place in it and an address, as far as the grain keeps them: each is 0 where
/// it isn't kept or not known. `function`, `file` and `object` are text indices. The object is there
/// only where the other texts are empty and the line is 0.
#[derive(Clone, Copy, Debug, PartialEq, Eq, Hash)]
pub struct Key {
    /// The text index of the function's name.
    pub function: u64,
    /// The text index of the path of the source file.
    pub file: u64,
    /// The line's number in that file.
    pub line: i64,
    /// The column in that line.
    pub column: i64,
    /// The address of the location.
    pub address: u64,
    /// The text index of the path of the mapping's file.
    pub object: u64,
}
