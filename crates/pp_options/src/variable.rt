//! The variables: their names, the kinds of their values, and what the help tells of them.
ghost use Rattle.std.specs.Prelude.{◌≡◌};
ghost use Rattle.pp_options.specs.Variables.{variable_named};

use crate::table::{OptionRow, Row, option_in};

/// A variable that is on or off.
#[derive(Clone, Copy, Debug, PartialEq, Eq)]
pub enum FlagVariable {
    Noinlines,
    Showcolumns,
    PathTree,
    RelativePercentages,
}

/// A variable that is a least part of the total.
#[derive(Clone, Copy, Debug, PartialEq, Eq)]
pub enum FractionVariable {
    Nodefraction,
    Edgefraction,
}

/// A variable that is a text: a pattern, a tag filter, keys joined by `,`, paths joined by `:`, a
/// sample type or a unit.
#[derive(Clone, Copy, Debug, PartialEq, Eq)]
pub enum TextVariable {
    Focus,
    Ignore,
    Show,
    Hide,
    ShowFrom,
    PruneFrom,
    Tagfocus,
    Tagignore,
    Tagshow,
    Taghide,
    Tagroot,
    Tagleaf,
    SampleIndex,
    Unit,
    SourcePath,
    TrimPath,
}

/// A variable, by the kind of its value.
#[derive(Clone, Copy, Debug, PartialEq, Eq)]
pub enum Variable {
    Sort,
    Granularity,
    Flag(FlagVariable),
    Nodecount,
    Fraction(FractionVariable),
    Text(TextVariable),
    DivideBy,
    Workers,
}

/// The variables by subject, in the order in which they are listed.
pub static VARIABLES: [OptionRow<Variable>; 66] = [
    Row::Text(
        b"The variables follow with their defaults. Where a word in capitals stands for
the value, the default is empty.

Rows:
",
    ),
    Row::Option(b"sort", Variable::Sort),
    Row::Text(b"=flat                   the order: flat or cum; also -flat and -cum\n"),
    Row::Option(b"granularity", Variable::Granularity),
    Row::Text(
        b"=functions       what a row stands for: functions, filefunctions,
                               files, lines or addresses; also -functions and
                               so on\n",
    ),
    Row::Option(b"noinlines", Variable::Flag(FlagVariable::Noinlines)),
    Row::Text(b"=false             count inlined functions to their callers\n"),
    Row::Option(b"showcolumns", Variable::Flag(FlagVariable::Showcolumns)),
    Row::Text(
        b"=false           tell columns of a line apart, with lines and
                               addresses\n",
    ),
    Row::Option(b"path_tree", Variable::Flag(FlagVariable::PathTree)),
    Row::Text(b"=false             show the tree by paths from the root\n"),
    Row::Option(b"nodecount", Variable::Nodecount),
    Row::Text(
        b"=-1                the most rows, 0 for all; -1 is all, and 80 for
                               tree\n",
    ),
    Row::Option(
        b"nodefraction",
        Variable::Fraction(FractionVariable::Nodefraction),
    ),
    Row::Text(
        b"=0.005          leave out rows with less than this part of the
                               total\n",
    ),
    Row::Option(
        b"edgefraction",
        Variable::Fraction(FractionVariable::Edgefraction),
    ),
    Row::Text(
        b"=0.001          leave out edges with less than this part of the
                               total\n",
    ),
    Row::Text(b"Example: pprof -top -cum -lines -nodecount=20 cpu.pb\n\n"),
    Row::Text(b"Stacks; a PATTERN is a regular expression that may match anywhere:\n"),
    Row::Option(b"focus", Variable::Text(TextVariable::Focus)),
    Row::Text(b"=PATTERN               keep samples with a frame that is found\n"),
    Row::Option(b"ignore", Variable::Text(TextVariable::Ignore)),
    Row::Text(b"=PATTERN              drop samples with a frame that is found\n"),
    Row::Option(b"show", Variable::Text(TextVariable::Show)),
    Row::Text(b"=PATTERN                keep the frames that are found\n"),
    Row::Option(b"hide", Variable::Text(TextVariable::Hide)),
    Row::Text(b"=PATTERN                drop the frames that are found\n"),
    Row::Option(b"show_from", Variable::Text(TextVariable::ShowFrom)),
    Row::Text(
        b"=PATTERN           drop the frames above the first that is found,
                               from the root\n",
    ),
    Row::Option(b"prune_from", Variable::Text(TextVariable::PruneFrom)),
    Row::Text(
        b"=PATTERN          drop the frames below the first that is found,
                               from the leaf\n",
    ),
    Row::Text(b"Example: pprof -tree -focus=Handler -hide=^runtime cpu.pb\n\n"),
    Row::Text(
        b"Labels; a FILTER is a pattern, NAME=PATTERN, or a range like 4kb:1mb or
size=4kb:, and KEYS are joined by commas:\n",
    ),
    Row::Option(b"tagfocus", Variable::Text(TextVariable::Tagfocus)),
    Row::Text(b"=FILTER             keep samples with labels that the filter selects\n"),
    Row::Option(b"tagignore", Variable::Text(TextVariable::Tagignore)),
    Row::Text(b"=FILTER            drop samples with labels that the filter selects\n"),
    Row::Option(b"tagshow", Variable::Text(TextVariable::Tagshow)),
    Row::Text(b"=PATTERN             keep the labels whose key is found\n"),
    Row::Option(b"taghide", Variable::Text(TextVariable::Taghide)),
    Row::Text(b"=PATTERN             drop the labels whose key is found\n"),
    Row::Option(b"tagroot", Variable::Text(TextVariable::Tagroot)),
    Row::Text(b"=KEYS                add frames at the root from these labels\n"),
    Row::Option(b"tagleaf", Variable::Text(TextVariable::Tagleaf)),
    Row::Text(b"=KEYS                add frames at the leaf from these labels\n"),
    Row::Text(b"Example: pprof -top -tagfocus=bytes=4kb: -tagleaf=bytes heap.pb\n\n"),
    Row::Text(b"Values:\n"),
    Row::Option(b"sample_index", Variable::Text(TextVariable::SampleIndex)),
    Row::Text(
        b"=NAME           the sample type, by its name or its number from
                               0; also -inuse_space, -inuse_objects,
                               -alloc_space, -alloc_objects, -contentions, and
                               -total_delay for delay\n",
    ),
    Row::Option(b"unit", Variable::Text(TextVariable::Unit)),
    Row::Text(
        b"=UNIT                   the unit of all values; without one it is picked
                               from the total, and with each for every value\n",
    ),
    Row::Option(
        b"relative_percentages",
        Variable::Flag(FlagVariable::RelativePercentages),
    ),
    Row::Text(b"=false  percentages of the samples that are kept\n"),
    Row::Option(b"divide_by", Variable::DivideBy),
    Row::Text(b"=1                 divide all values, by 1 to 9223372036854775807\n"),
    Row::Text(b"Example: pprof -top -sample_index=alloc_space -unit=mb heap.pb\n\n"),
    Row::Text(b"Source files; PATHS are joined by colons:\n"),
    Row::Option(b"source_path", Variable::Text(TextVariable::SourcePath)),
    Row::Text(b"=PATHS           where list looks for source files\n"),
    Row::Option(b"trim_path", Variable::Text(TextVariable::TrimPath)),
    Row::Text(b"=PATHS             what list takes off the front of their names\n"),
    Row::Text(b"Example: pprof -list=ServeHTTP -trim_path=/build -source_path=src cpu.pb\n\n"),
    Row::Text(b"Threads:\n"),
    Row::Option(b"workers", Variable::Workers),
    Row::Text(b"=4                   the number of threads, 1 to 64\n"),
    Row::Text(b"Example: pprof -top -workers=16 cpu.pb\n\n"),
];

/// The variable of the name.
#[tactic(auto, unfolding(crate::specs::Variables::variable_named))]
pub fn variable_named(name: &[u8]) -> Option<Variable>
    ensures { result ≡ variable_named name.now }
{
    option_in(&VARIABLES, name)
}
