//! A message of profile.proto that is filled field by field, and the one walk that fills each of them.
ghost use Rattle.std.specs.Prelude.{◌≡◌, ◌+◌, ◌<◌, ◌^◌, length};
ghost use Rattle.pp_wire.specs.Fields.{item, fields};
ghost use Rattle.pp_tables.specs.Message.{fault_of, fault_in};
ghost use Rattle.pp_tables.specs.Takes.{TakesField};

use crate::ReadRefusal;
use pp_wire::{Field, Walker};
use std::alloc::Global;

pub(crate) trait Message: Drop {
    ghost use Rattle.std.specs.Prelude.{◌≡◌, ℕ, List, [], ◌∷◌};
    ghost use Rattle.pp_wire.specs.Fields.{Item, item};
    ghost use Rattle.pp_tables.specs.Message.{Rule, fault_of};
    ghost use Rattle.pp_tables.specs.Takes.{TakesField};

    /// Of which rule the fields of each number are.
    ghost rules: { ℕ → Rule };

    /// The message without fields.
    ghost empty: { Self };

    /// The message with one field more, and with several.
    ghost put: { Self → Item → Self };

    ghost filled: { Self → List Item → Self };

    fn none(alloc: Global) -> Self
        ensures { result ≡ empty };

    /// Takes the next field.
    fn take(&mut self, alloc: Global, field: &Field<'_>) -> Result<(), ReadRefusal>
        ensures { TakesField result (fault_of rules (item field.now))
            (self.new ≡ put self.old (item field.now)) };

    ghost filled_none: { (m : Self) → filled m [] ≡ m };

    ghost filled_more: { (m : Self) (i : Item) (items : List Item)
        → filled (put m i) items ≡ filled m (i ∷ items) };
}

/// Fills a message with the fields of bytes of which the first is at the place `at`.
pub(crate) fn fill<M: Message>(
    alloc: Global,
    message: &mut M,
    bytes: &[u8],
    at: u64,
) -> Result<(), ReadRefusal>
    requires { at + length bytes.now < 2 ^ 64 }
    ensures { TakesField result (fault_in M.rules bytes.now at)
        (message.new ≡ M.filled message.old (fields bytes.now at).items) }
{
    let mut walker = Walker::new(bytes, at);
    while let Some(next) = walker.next() {
        let field = next?;
        message.take(alloc, &field)?;
    }
    Ok(())
}
