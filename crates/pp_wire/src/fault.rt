//! What is wrong with bytes, and where.

use thiserror::Error;

/// Which rule of the wire format is broken.
#[derive(Clone, Copy, Debug, PartialEq, Eq, Error)]
pub enum WireKind {
    /// The bytes end within a tag, a varint or a payload.
    #[error("truncated")]
    Truncated,
    /// A varint has more than ten bytes.
    #[error("varint too long")]
    LongVarint,
    /// A field's number is 0 or at least 2^29.
    #[error("bad field number")]
    BadTag,
    /// A tag's kind is 3, 4, 6 or 7.
    #[error("bad kind")]
    BadKind,
    /// A known field is of a kind that its message does not give it.
    #[error("wrong kind")]
    WrongKind,
}

/// The first fault of some bytes, from the front.
#[derive(Clone, Copy, Debug, PartialEq, Eq, Error)]
#[error("{kind} at {at}")]
pub struct WireFault {
    /// Which rule the field breaks.
    pub kind: WireKind,
    /// The place of the first byte of the faulty field's tag, counted from 0 at the start of the file.
    pub at: u64,
}
