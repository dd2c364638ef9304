//! What a builder has seen, as keys that are told apart by a hash.

use indexmap::IndexSet;
use pp_model::Line;
use std::alloc::Global;

/// What tells a mapping apart: all but its id.
#[derive(Clone, Copy, Debug, PartialEq, Eq, Hash)]
pub struct BuiltMapping {
    /// Its first address in the process.
    pub start: u64,
    /// The address behind its last byte.
    pub limit: u64,
    /// The offset of its first byte in the file.
    pub offset: u64,
    /// The index of the file's text.
    pub file: i64,
    /// The index of the build id's text.
    pub build_id: i64,
    /// Whether the locations in it have their functions.
    pub has_functions: bool,
    /// Whether they have the names of their source files.
    pub has_filenames: bool,
    /// Whether they have their line numbers.
    pub has_line_numbers: bool,
    /// Whether they have the functions that were inlined.
    pub has_inline_frames: bool,
}

/// What tells a function apart: all but its id.
#[derive(Clone, Copy, Debug, PartialEq, Eq, Hash)]
pub struct BuiltFunction {
    /// The index of the name's text.
    pub name: i64,
    /// The index of the linker's name.
    pub system_name: i64,
    /// The index of the source file's text.
    pub filename: i64,
    /// The line where it begins, from 1; 0 where that is unknown.
    pub start_line: i64,
}

/// What tells a location apart: all but its id.
#[derive(Debug, Drop, PartialEq, Eq, Hash)]
pub struct BuiltLocation {
    /// The id of its mapping, and 0 without one.
    pub mapping_id: u64,
    /// Its address in the process, and 0 where that is unknown.
    pub address: u64,
    /// Its lines, innermost first.
    pub line: Vec<Line>,
    /// Whether the linker made one of several functions here.
    pub folded: bool,
}

/// The keys of a builder's tables, each in the order of its table.
#[derive(Drop)]
pub struct Seen {
    /// By index: the empty text is the first.
    pub texts: IndexSet<Vec<u8>>,
    /// By id less 1.
    pub mappings: IndexSet<BuiltMapping>,
    /// By id less 1.
    pub functions: IndexSet<BuiltFunction>,
    /// By id less 1.
    pub locations: IndexSet<BuiltLocation>,
}

impl Seen {
    ghost use Rattle.std.specs.Prelude.{◌≡◌, []};

    /// No keys. It takes no memory.
    pub fn new(alloc: Global) -> Seen
        ensures texts { result.texts.keys ≡ [] }
        ensures mappings { result.mappings.keys ≡ [] }
        ensures functions { result.functions.keys ≡ [] }
        ensures locations { result.locations.keys ≡ [] }
    {
        Seen {
            texts: IndexSet::new(alloc),
            mappings: IndexSet::new(alloc),
            functions: IndexSet::new(alloc),
            locations: IndexSet::new(alloc),
        }
    }
}
