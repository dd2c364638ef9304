//! A field of a message, as it lies in the bytes.

ghost use Rattle.std.specs.Prelude.{◌<◌, ◌^◌};
ghost use Rattle.pp_wire.specs.Place.{end_of};

/// What stands behind a tag, by its kind (Protocol Buffers, Encoding, Message Structure).
#[derive(Clone, Copy, Debug)]
pub enum Payload<'a> {
    /// Kind 0.
    Varint(u64),
    /// Kind 1, eight bytes, lowest first.
    Eight(u64),
    /// Kind 5, four bytes, lowest first.
    Four(u32),
    /// Kind 2: the bytes, and the place of the first of them, counted from 0 at the start of the file.
    Bytes(&'a [u8], u64),
}

/// One field of a message: which it is, what it holds, and where it lies.
#[derive(Clone, Copy, Debug)]
pub struct Field<'a> {
    /// At least 1 and below 2^29.
    pub number: u32,
    /// What stands behind the tag.
    pub payload: Payload<'a>,
    /// The place of the first byte of the tag, counted from 0 at the start of the file.
    pub at: u64,
    ghost within: { end_of payload < 2 ^ 64 },
}
