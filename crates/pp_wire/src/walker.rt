//! The fields of a message, one after another.

ghost use Rattle.std.specs.Prelude.{◌≡◌, ◌+◌, ◌≤◌, ◌<◌, ◌^◌, length};
ghost use Rattle.pp_wire.specs.Walk.{first, rest_of};
ghost use Rattle.pp_wire.specs.Fields.{fields, item_or_fault};

use crate::reading::field_of;
use crate::{Field, WireFault};
use std::marker::Model;

/// Gives the fields of a message in order, or the first fault. It takes no memory and copies no payload.
#[derive(Debug, Drop)]
pub struct Walker<'a> {
    rest: &'a [u8],
    // The place behind the last byte.
    end: u64,
}

impl<'a> Model for Walker<'a> {
    ghost use Rattle.std.specs.Prelude.{◌≤◌, length};
    ghost use Rattle.pp_wire.specs.Walk.{Walk, walk_of};
    ghost use Rattle.pp_wire.specs.Fields.{Item, field};

    ghost Value = { Walk Item };

    ghost view = { λ w. walk_of (field w.end) w.rest.now };

    ghost invariant = { λ w. length w.rest.now ≤ w.end };
}

impl<'a> Walker<'a> {
    /// The fields of a message whose first byte is at the place `base` of the file.
    pub fn new(bytes: &'a [u8], base: u64) -> Self
        requires { base + length bytes.now < 2 ^ 64 }
        ensures fields { result ≡ fields bytes.now base }
        ensures few { length result.items ≤ length bytes.now }
    {
        Walker {
            rest: bytes,
            end: base + bytes.len() as u64,
        }
    }

    /// The next field, or `None` exactly at the end of the bytes. A faulty field is never passed: the walker stays in
    /// front of it and answers with its fault from then on. It never answers `WrongKind`, since it does not know which
    /// fields the message may have (`fields_are_read_in_turn`, `no_wrong_kind`).
    #[inline(always)]
    pub fn next(&mut self) -> Option<Result<Field<'a>, WireFault>>
        ensures given { item_or_fault result ≡ first self.old }
        ensures left { self.new ≡ rest_of self.old }
    {
        if self.rest.is_empty() {
            return None;
        }
        match field_of(self.end, self.rest) {
            Ok((field, rest)) => {
                self.rest = rest;
                Some(Ok(field))
            }
            Err(kind) => {
                let at = self.end - self.rest.len() as u64;
                Some(Err(WireFault { kind, at }))
            }
        }
    }
}
