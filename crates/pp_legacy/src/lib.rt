//! CPU profiles as gperftools writes them (gperftools, "CPU Profile format"), read as the tables of a profile.
//!
//! A file is words of 64 bits, the lowest byte first: a header, records of a count, a depth and as many addresses,
//! and a trailer. Behind it stands the text of the process's mapped regions. A file is read in one pass, whatever its
//! words say.
//!
//! Begin with `reading`. `header` reads the first five words, `records` what follows up to the trailer, both by
//! `words`. `samples` makes a sample of each record, and numbers the addresses. `regions` reads the mapped regions, each
//! by `line`, and `holders` finds the mapping of each address. `fault` says why bytes are refused, and `laws` holds of
//! any bytes.
#![tactic(auto)]

mod fault;
mod header;
mod holders;
mod laws;
mod line;
mod reading;
mod records;
mod regions;
mod samples;
mod words;

pub use fault::{LegacyFault, LegacyKind, LegacyRefusal};
pub use laws::records_are_read_in_turn;
pub use reading::{is_legacy, read_legacy};
