//! The options of a command line: variables and their values, words, and what they ask for.
//!
//! The tables of variables, formats and other names are data. Words, the lines of a shell and the
//! list of variables look names up in the same ones.
//!
//! Begin with `words`: each word is an `item`, which `drafting` adds to a `draft`, and without a fault the draft is a
//! `plan`. `variable`, `format`, `name` and `value` are the tables; `setting` and `assigning` set a variable, `listing`
//! lists all, and `help` tells them.
#![tactic(auto)]

mod assigning;
mod draft;
mod drafting;
mod format;
mod help;
mod item;
mod listing;
mod name;
mod origin;
mod plain_names;
mod plan;
mod sample_type;
mod setting;
mod spelling;
mod table;
mod text;
mod usage;
mod value;
mod variable;
mod words;

pub use assigning::{SetRefusal, set};
pub use format::{FlagFormat, Format, PatternFormat, format_named};
pub use help::{SHELL_HELP, Topic, topic_asked, write_topic};
pub use listing::write_options;
pub use name::{Choice, OptionName, choice_named, option_named};
pub use origin::Origin;
pub use plain_names::{lists_in_plain_lines, names_of_options};
pub use plan::Plan;
pub use sample_type::{SampleType, sample_type_named};
pub use setting::{Setting, setting_of};
pub use table::{Named, value_named};
pub use text::is;
pub use usage::{UsageFault, UsageKind, UsageRefusal};
pub use value::whole_number;
pub use variable::{FlagVariable, FractionVariable, TextVariable, Variable, variable_named};
pub use words::read_words;
