//! The outside in one hand, and what stages do with it. The desk holds files, input, both outputs and a matcher. A
//! script is a sequence of steps, and says how a stage went. Lines of an input are read here too.
//!
//! A stage is a function over a desk. Its main clause says that it went as its script, `Went old new script result`. A
//! script is a definition, mostly of the stage's name and with its cases: it gives a value, or makes a step at the
//! outside and goes on by the reply. A stage that asks patterns alone needs no more than a `MatcherDesk`.
#![tactic(auto)]

mod desk;
mod file_content;
mod halt;
mod input_line;
mod line_reader;
mod matcher_desk;
mod objects;
mod stop;
mod window;

pub use desk::Desk;
pub use file_content::FileContent;
pub use halt::{Halt, settle};
pub use input_line::InputLine;
pub use line_reader::{INPUT_LIMIT, LINE_LIMIT, LineRead, LineReader, limits_of_input};
pub use matcher_desk::MatcherDesk;
pub use objects::Objects;
pub use stop::Stop;
