//! What a caller names and gives. An id is of the builder that gave it, which only grows.

/// A text of a builder.
#[derive(Clone, Copy, Debug, PartialEq, Eq)]
pub struct TextId {
    /// Its place among the builder's texts. The text at place 0 is empty.
    pub index: u64,
}

/// A mapping of a builder.
#[derive(Clone, Copy, Debug, PartialEq, Eq)]
pub struct MappingId {
    /// Its place among the builder's mappings, plus 1; 0 says that none is known.
    pub number: u64,
}

/// A function of a builder.
#[derive(Clone, Copy, Debug, PartialEq, Eq)]
pub struct FunctionId {
    /// Its place among the builder's functions, plus 1; 0 says that none is known.
    pub number: u64,
}

/// A location of a builder.
#[derive(Clone, Copy, Debug, PartialEq, Eq)]
pub struct LocationId {
    /// Its place among the builder's locations, plus 1.
    pub number: u64,
}

/// A file that was mapped into memory.
#[derive(Clone, Copy, Debug, PartialEq, Eq)]
pub struct NewMapping {
    /// The address of the first byte.
    pub start: u64,
    /// The address behind the last byte.
    pub limit: u64,
    /// Where the mapped part begins in the file, in bytes from its start.
    pub offset: u64,
    /// The file's path.
    pub file: TextId,
    /// The build id, which names a version of the file; the empty text where it isn't known.
    pub build_id: TextId,
    /// Whether the locations in it have their functions already.
    pub has_functions: bool,
    /// Whether they have the names of their source files.
    pub has_filenames: bool,
    /// Whether they have their line numbers.
    pub has_line_numbers: bool,
    /// Whether they have the functions that were inlined.
    pub has_inline_frames: bool,
}

/// A place in a function's source.
#[derive(Clone, Copy, Debug, PartialEq, Eq)]
pub struct SourceLine {
    /// The function.
    pub function: FunctionId,
    /// The line in the function's file; 0 where it isn't known.
    pub line: i64,
    /// The column in that line; 0 where it isn't known.
    pub column: i64,
}

/// What a sample is marked with.
#[derive(Clone, Copy, Debug, PartialEq, Eq)]
pub struct SampleLabel {
    /// The label's name.
    pub key: TextId,
    /// What the sample has under that name.
    pub value: LabelValue,
}

/// The value of a label.
#[derive(Clone, Copy, Debug, PartialEq, Eq)]
pub enum LabelValue {
    /// A text, which isn't empty.
    Text(TextId),
    /// A number in the unit; with the empty text as unit the label's name decides.
    Number(i64, TextId),
}
