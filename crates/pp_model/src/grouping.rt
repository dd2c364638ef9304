//! What frames are grouped by: frames of one key count together.
ghost use Rattle.std.specs.Prelude.{◌≡◌};

/// What one row stands for.
#[derive(Clone, Copy, Debug, PartialEq, Eq)]
pub enum Grain {
    /// A function, by its name alone.
    Functions,
    /// A function in a source file.
    FileFunctions,
    /// A source file.
    Files,
    /// A line of a function in a source file, and its column with `showcolumns`.
    Lines,
    /// An address, with its function, file and line.
    Addresses,
}

/// The variables that say what a key is, and which frames have one.
#[derive(Clone, Copy, Debug, PartialEq, Eq)]
pub struct Grouping {
    /// What one row of a report stands for (`granularity`).
    pub grain: Grain,
    /// Whether inlined calls count for the function that they were inlined into.
    pub noinlines: bool,
    /// Whether rows of lines tell columns.
    pub showcolumns: bool,
}

impl Grouping {
    ghost use Rattle.pp_model.specs.Defaults.{standard_grouping};

    /// By functions, with inlined calls on their own.
    pub fn standard() -> Grouping
        ensures { result ≡ standard_grouping }
    {
        Grouping {
            grain: Grain::Functions,
            noinlines: false,
            showcolumns: false,
        }
    }
}
