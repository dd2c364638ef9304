//! The fields of the Protocol Buffers wire format, walked and written.
//!
//! Begin with `walker`, which goes over a message's fields; `reading` reads one field, and `varint` one number.
//! `packed` goes over packed numbers, and `writing` appends fields. `laws` says that what is written is read again.
#![tactic(auto)]

mod fault;
mod field;
mod laws;
mod packed;
mod reading;
mod varint;
mod walker;
mod writing;

pub use fault::{WireFault, WireKind};
pub use field::{Field, Payload};
pub use laws::{
    bytes_are_read, fields_are_read_in_turn, no_varint_is_shorter, number_is_read,
    numbers_are_read_in_turn, packed_is_read,
};
pub use packed::Packed;
pub use varint::varint_len;
pub use walker::Walker;
pub use writing::{put_bytes, put_number, put_packed, put_varint};
