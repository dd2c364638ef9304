//! The outside as it is on the machine: files by path, any reader and any writer, and the words that a program is given.
//!
//! What files hold is told to no contract, since other programs may change it at any time. A stream tells what its reader
//! or writer tells, and the machine's own tell nothing. Each object keeps a count of its faults, which starts at 0 and
//! stays at its last value once a 64-bit counter is full.
//!
//! `files` opens, reads and writes paths, `input` and `output` take any stream, and `words` reads the program's words.
//! `steady` says which streams may be told of.
#![tactic(auto)]

mod files;
mod input;
mod output;
mod steady;
#[cfg(test)]
mod tests;
mod words;

pub use files::RealFiles;
pub use input::Input;
pub use output::Output;
pub use steady::{SteadyRead, SteadyWrite};
pub use words::read_words;
