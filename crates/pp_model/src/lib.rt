//! The plain data of a profile, of a loaded profile and of the options, with what its parts refer to.
//!
//! Begin with `profile`, the tables as the message has them. `valid` has the two kinds of profiles that keep the table
//! rules, and `loaded` one with the verdicts of its own patterns. `frame` and `lookup` say what a sample's stack stands
//! for.
//!
//! `config` has the variables, in four groups by what reads them: `grouping` what a key is, `filtering` what is kept,
//! `presentation` what is shown, `environment` what the machine lends. `defaults` has their values, `report` the reports and
//! the facts in which they differ, and `verdicts` what patterns have found. `specs/Rules.antt` states the table rules.
#![tactic(auto)]

mod config;
mod defaults;
mod environment;
mod filtering;
mod frame;
mod grouping;
mod ids;
mod loaded;
mod lookup;
mod presentation;
mod profile;
mod report;
mod valid;
mod verdicts;

pub use config::Config;
pub use defaults::numbers_by_default;
pub use environment::{Environment, WORKERS};
pub use filtering::Filtering;
pub use frame::{Frame, Stack, frames, frames_at, frames_into};
pub use grouping::{Grain, Grouping};
pub use ids::HasId;
pub use loaded::Loaded;
pub use lookup::{
    FrameTexts, address_of, column_in, file_of, function_of, line_of, object_of, text_of, texts_of,
    value_in,
};
pub use presentation::{EDGE_FRACTION, NODE_FRACTION, Presentation, Sort};
pub use profile::{Function, Label, Line, Location, Mapping, Profile, Sample, ValueType};
pub use report::{BaseKind, Report};
pub use valid::{Compact, Valid};
pub use verdicts::{Slot, Tag, Verdicts};
