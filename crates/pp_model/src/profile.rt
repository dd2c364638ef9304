//! The tables of a profile (profile.proto, message `Profile`). Texts are named by their index in `text`; index 0 is the
//! empty text, so a text index of 0 says that nothing is known.

use pp_base::{List, Text};

/// What one column of values counts, and in which unit (profile.proto, message `ValueType`).
#[derive(Clone, Copy, Debug, PartialEq, Eq)]
pub struct ValueType {
    /// The text index of what is counted, as `samples` or `cpu`.
    pub kind: i64,
    /// The text index of the unit, as `count` or `nanoseconds`.
    pub unit: i64,
}

/// One stack with its values (profile.proto, message `Sample`).
#[derive(Debug, Drop)]
pub struct Sample {
    /// The ids of its locations, the leaf's first.
    pub location_id: List<u64>,
    /// One value per sample type, in that type's unit.
    pub value: List<i64>,
    /// The labels, in the order of the message; a name may have several.
    pub label: List<Label>,
}

/// A text label where `text` isn't 0, else a number label (profile.proto, message `Label`).
#[derive(Clone, Copy, Debug, PartialEq, Eq, Hash)]
pub struct Label {
    /// The text index of the label's name.
    pub key: i64,
    /// The text index of a text label's value; 0 in a number label.
    pub text: i64,
    /// The value of a number label, in the unit of `num_unit`.
    pub num: i64,
    /// The text index of the number's unit; with 0 the label's name decides.
    pub num_unit: i64,
}

/// A file that was mapped into memory (profile.proto, message `Mapping`).
#[derive(Clone, Copy, Debug, PartialEq, Eq)]
pub struct Mapping {
    /// By which locations refer to it; not 0 in a valid profile.
    pub id: u64,
    /// The address of the first byte.
    pub start: u64,
    /// The address behind the last byte.
    pub limit: u64,
    /// Where the mapped part begins in the file, in bytes from its start.
    pub offset: u64,
    /// The text index of the file's path.
    pub file: i64,
    /// The text index of the build id, which names a version of the file.
    pub build_id: i64,
    /// Whether the locations in it have their functions already.
    pub has_functions: bool,
    /// Whether they have the names of their source files.
    pub has_filenames: bool,
    /// Whether they have their line numbers.
    pub has_line_numbers: bool,
    /// Whether they have the functions that were inlined.
    pub has_inline_frames: bool,
}

/// A place in the code (profile.proto, message `Location`).
#[derive(Debug, Drop)]
pub struct Location {
    /// By which samples refer to it; not 0 in a valid profile.
    pub id: u64,
    /// The id of the mapping that the address lies in; 0 where none is known.
    pub mapping_id: u64,
    /// The address of the instruction; 0 where none is known.
    pub address: u64,
    /// Each line but the last was inlined into the one after it; none where nothing is known of the source.
    pub line: List<Line>,
    /// Whether it stands for several places of the same content, which the linker folded into one.
    pub folded: bool,
}

/// A place in a function's source (profile.proto, message `Line`).
#[derive(Clone, Copy, Debug, PartialEq, Eq, Hash)]
pub struct Line {
    /// The id of the function; 0 where none is known.
    pub function_id: u64,
    /// The line in the function's file; 0 where none is known.
    pub line: i64,
    /// The column in that line; 0 where none is known.
    pub column: i64,
}

/// A function (profile.proto, message `Function`).
#[derive(Clone, Copy, Debug, PartialEq, Eq)]
pub struct Function {
    /// By which lines refer to it; not 0 in a valid profile.
    pub id: u64,
    /// The text index of the name in the form for people, as demangled.
    pub name: i64,
    /// The text index of the name as the linker has it.
    pub system_name: i64,
    /// The text index of the path of the source file.
    pub filename: i64,
    /// The line in that file where the function begins; 0 where it isn't known.
    pub start_line: i64,
}

/// A profile as it was read: nothing is promised of its ids and text indices.
#[derive(Debug, Drop)]
pub struct Profile {
    /// What the values of a sample are, in their order.
    pub sample_type: List<ValueType>,
    /// The samples. A stack with the same labels may stand in several, and their values then add up.
    pub sample: List<Sample>,
    /// The files in memory; profile.proto has the program's own file first.
    pub mapping: List<Mapping>,
    /// The locations to which samples refer.
    pub location: List<Location>,
    /// The functions to which the lines of locations refer.
    pub function: List<Function>,
    /// The texts that indices name (`string_table`); the first is empty in a valid profile.
    pub text: List<Text>,
    /// The text index of the pattern of functions that are dropped with all that they call; 0 where there is none.
    pub drop_frames: i64,
    /// The text index of the pattern of functions that stay in spite of `drop_frames`; 0 where there is none.
    pub keep_frames: i64,
    /// When it was taken, in nanoseconds since 1970 in UTC; 0 where it isn't known.
    pub time_nanos: i64,
    /// How long it took, in nanoseconds; 0 where it isn't known.
    pub duration_nanos: i64,
    /// What is counted between two samples, as `cpu` in `nanoseconds`.
    pub period_type: ValueType,
    /// How many of these lie between two samples, in the unit of `period_type`; 0 where it isn't known.
    pub period: i64,
    /// The text indices of remarks on the profile.
    pub comment: List<i64>,
    /// The text index of the sample type that reports show unless told otherwise; with 0 it is the last one.
    pub default_sample_type: i64,
    /// The text index of the address of the profile's documentation; 0 where there is none.
    pub doc_url: i64,
}
