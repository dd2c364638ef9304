//! A buffer for one number.
ghost use Rattle.std.specs.Prelude.{◌≡◌, ℕ, ◌+◌, ◌<◌, ◌≤◌, List, [], ◌∷◌, ◌++◌, length, take};

use std::marker::Model;

/// How many bytes a `Small` has.
pub const ROOM: usize = 48;

/// A buffer of 48 bytes, which is room for every number, and takes no memory.
#[derive(Debug, Drop)]
pub struct Small {
    buffer: [u8; ROOM],
    len: usize,
}

impl Model for Small {
    ghost Value = { List ℕ };

    ghost view = { λ s. take s.len s.buffer };

    ghost invariant = { λ s. s.len ≤ 48 };
}

impl Small {
    /// An empty buffer.
    pub fn new() -> Self
        ensures { result ≡ [] }
    {
        Small {
            buffer: [0; ROOM],
            len: 0,
        }
    }

    /// What was written last.
    pub fn bytes(&self) -> &[u8]
        ensures { result.now ≡ self.now }
    {
        &self.buffer[..self.len]
    }

    pub(crate) fn clear(&mut self)
        ensures { self.new ≡ [] }
    {
        self.len = 0;
    }

    pub(crate) fn push(&mut self, byte: u8)
        requires { length self.old < 48 }
        ensures { self.new ≡ self.old ++ byte ∷ [] }
    {
        self.buffer[self.len] = byte;
        self.len += 1;
    }

    pub(crate) fn extend(&mut self, bytes: &[u8])
        requires { length self.old + length bytes.now ≤ 48 }
        ensures { self.new ≡ self.old ++ bytes.now }
    {
        for byte in bytes {
            self.push(*byte);
        }
    }
}
