//! The lines of the shell: what each asks for.
//!
//! Begin with `line` (`read_line`): a line is an assignment or a command (`command`). The words behind a command are
//! `argument`s, which `narrowing` puts together and `run` makes a configuration of. `name` has the tables of names.
#![tactic(auto)]

mod argument;
mod blank;
mod command;
mod fault;
mod line;
mod name;
mod narrowing;
mod run;

pub use command::Command;
pub use fault::{LineFault, LineRefusal};
pub use line::read_line;
pub use name::names_of_commands;
