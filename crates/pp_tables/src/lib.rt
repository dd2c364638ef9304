//! The message of profile.proto, read as the tables of a profile, and written again.
//!
//! `reading` is the file to begin with: the whole way on one thread. `profile`, `sample`, `code` and `message` take the
//! fields of each message, `fields` and `packed` the values of a field. `lanes` reads the samples apart from all else:
//! `skim` takes the other fields and notes where each sample lies (`extent`). `decoding` says how any part of the samples
//! is read (`decoded`), and how two parts become one. `writing` and `spelled` put a profile's canonical bytes, and
//! `waves` those of samples on the lanes. `laws` says what holds of reading and writing together.
#![tactic(auto)]

mod code;
mod decoded;
mod decoding;
mod extent;
mod fields;
mod lanes;
mod laws;
mod message;
mod packed;
mod profile;
mod reading;
mod refusal;
mod sample;
mod skim;
mod spelled;
mod waves;
mod writing;

pub use lanes::read_profile_on;
pub use laws::{bytes_are_never_memory, payloads_are_joined, read_fits, written_is_read};
pub use reading::read_profile;
pub use refusal::ReadRefusal;
pub use writing::{write_profile, write_profile_on};
