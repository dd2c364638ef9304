//! The varints of a packed payload, one after another.

ghost use Rattle.std.specs.Prelude.{◌≡◌, ◌≤◌, length};
ghost use Rattle.pp_wire.specs.Walk.{first, rest_of};
ghost use Rattle.pp_wire.specs.Fields.{numbers};

use crate::WireFault;
use crate::varint::varint_of;
use std::marker::Model;

/// Gives the numbers of a packed list in order, or the first fault. It takes no memory.
#[derive(Debug, Drop)]
pub struct Packed<'a> {
    rest: &'a [u8],
    at: u64,
}

impl<'a> Model for Packed<'a> {
    ghost use Rattle.std.specs.Prelude.{ℕ};
    ghost use Rattle.pp_wire.specs.Walk.{Walk};
    ghost use Rattle.pp_wire.specs.Fields.{numbers};

    ghost Value = { Walk ℕ };

    ghost view = { λ p. numbers p.rest.now p.at };
}

impl<'a> Packed<'a> {
    /// The varints of the payload of a field whose tag is at the place `at` of the file.
    pub fn new(bytes: &'a [u8], at: u64) -> Self
        ensures numbers { result ≡ numbers bytes.now at }
        ensures few { length result.items ≤ length bytes.now }
    {
        Packed { rest: bytes, at }
    }

    /// The next number, or `None` exactly at the end of the bytes. A fault has the place of the field's tag. A faulty
    /// varint is never passed: its fault is the answer from then on.
    #[inline(always)]
    pub fn next(&mut self) -> Option<Result<u64, WireFault>>
        ensures given { result ≡ first self.old }
        ensures left { self.new ≡ rest_of self.old }
    {
        if self.rest.is_empty() {
            return None;
        }
        match varint_of(self.rest) {
            Ok((number, rest)) => {
                self.rest = rest;
                Some(Ok(number))
            }
            Err(kind) => Some(Err(WireFault { kind, at: self.at })),
        }
    }
}
