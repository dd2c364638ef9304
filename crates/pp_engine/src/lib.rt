//! The session: all that is done for the words after the program's name, by one report or in the shell, and how it
//! ends.
//!
//! Begin with `running` (`run`): `program` makes it the program's one call. `session` reads the words, loads, and goes on
//! with one report (`reporting`) or the shell (`shell`). `ending` has the causes of an end and `message` the lines that
//! tell them. The definition that `run` is proved against is `specs/Session.antt`. `laws` says what words ask for. Which
//! sessions go alike is said by the laws of `pp_alike`.
#![tactic(auto)]

mod ending;
mod laws;
mod message;
mod program;
mod reporting;
mod running;
mod session;
mod shell;

pub use ending::{Cause, Ending};
pub use laws::words_ask_for_a_plan;
pub use pp_load::{LoadRefusal, gen_profile, load};
pub use pp_report::{Host, ReportRefusal, generate};
pub use program::run_program;
pub use reporting::reports_are_told;
pub use running::run;
