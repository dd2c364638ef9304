//! The names of options, and what the help tells of those of sources and bases.
ghost use Rattle.std.specs.Prelude.{◌≡◌};
ghost use Rattle.pp_options.specs.Names.{choice_named, option_named, needs_value};

use crate::table::{OptionRow, Row, option_in};
use crate::value::{grain_named, sort_named};
use crate::{Format, SampleType, Variable, format_named, sample_type_named, variable_named};
use pp_model::{BaseKind, Grain, Sort};

/// A value that is a name by itself, and gives its variable that value.
#[derive(Clone, Copy, Debug, PartialEq, Eq)]
pub enum Choice {
    Sort(Sort),
    Granularity(Grain),
}

/// What the name of an option stands for.
#[derive(Clone, Copy, Debug, PartialEq, Eq)]
pub enum OptionName {
    Variable(Variable),
    Choice(Choice),
    SampleType(SampleType),
    Format(Format),
    Base(BaseKind),
    Gen,
    Normalize,
}

/// The options that say which profiles are read.
pub static SOURCES: [OptionRow<OptionName>; 10] = [
    Row::Text(b"Sources and bases, 256 at most; each may be repeated:\n"),
    Row::Option(b"gen", OptionName::Gen),
    Row::Text(b"=N                       a source that is made, of 1 to 1000000 samples\n"),
    Row::Option(b"base", OptionName::Base(BaseKind::Base)),
    Row::Text(b"=PATH                   a profile that is subtracted\n"),
    Row::Option(b"diff_base", OptionName::Base(BaseKind::DiffBase)),
    Row::Text(b"=PATH              the same, and percentages are of the base\n"),
    Row::Option(b"normalize", OptionName::Normalize),
    Row::Text(b"                   scale the sources to the sums of the bases first\n"),
    Row::Text(b"Example: pprof -top -diff_base=before.pb after.pb\n\n"),
];

/// The choice of the name: an order or a granularity.
#[tactic(auto, unfolding(crate::specs::Names::choice_named))]
pub fn choice_named(name: &[u8]) -> Option<Choice>
    ensures { result ≡ choice_named name.now }
{
    if let Some(sort) = sort_named(name) {
        return Some(Choice::Sort(sort));
    }
    grain_named(name).map(Choice::Granularity)
}

/// What the name of an option stands for.
#[tactic(auto, unfolding(crate::specs::Names::option_named))]
pub fn option_named(name: &[u8]) -> Option<OptionName>
    ensures { result ≡ option_named name.now }
{
    if let Some(variable) = variable_named(name) {
        return Some(OptionName::Variable(variable));
    }
    if let Some(choice) = choice_named(name) {
        return Some(OptionName::Choice(choice));
    }
    if let Some(kind) = sample_type_named(name) {
        return Some(OptionName::SampleType(kind));
    }
    if let Some(format) = format_named(name) {
        return Some(OptionName::Format(format));
    }
    option_in(&SOURCES, name)
}

impl OptionName {
    /// Whether the option has a value even where none stands after `=`. The others are flags.
    pub fn needs_value(self) -> bool
        ensures { result ≡ needs_value self }
    {
        match self {
            OptionName::Variable(Variable::Flag(_)) => false,
            OptionName::Variable(_) => true,
            OptionName::Choice(_) | OptionName::SampleType(_) => false,
            OptionName::Format(Format::Pattern(_)) => true,
            OptionName::Format(Format::Flag(_)) => false,
            OptionName::Base(_) | OptionName::Gen => true,
            OptionName::Normalize => false,
        }
    }
}
