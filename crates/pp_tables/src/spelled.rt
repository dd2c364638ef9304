//! What has canonical bytes as a message, and the fields that are made of it.
ghost use Rattle.std.specs.Prelude.{◌≡◌, ◌≤◌, ◌<◌, ◌^◌, ◌++◌, map, OnOk, IfOk};
ghost use Rattle.std.specs.List.{AllByRecursion};
ghost use Rattle.pp_wire.specs.Spelling.{bytes_field, packed_field};
ghost use Rattle.pp_tables.specs.Encode.{unsigned, int_field, bool_field, message_fields};
ghost use Rattle.pp_tables.specs.Fits.{IsInt};

use pp_base::{Memory, Text};
use pp_wire::{put_bytes, put_number, put_packed};
use std::alloc::Global;

pub(crate) trait Spelled {
    ghost use Rattle.std.specs.Prelude.{◌≡◌, ◌++◌, ℕ, List, OnOk};

    /// The canonical bytes of the message, without its length.
    ghost bytes: { Self → List ℕ };

    /// What is known of its numbers once they were read: they lie in their types.
    ghost fits: { Self → Type 0 };

    /// Appends the bytes.
    fn put(&self, alloc: Global, out: &mut Text) -> Result<(), Memory>
        ensures written { OnOk result (out.new ≡ out.old ++ bytes self.now) }
        ensures numbers { OnOk result (fits self.now) };
}

pub(crate) fn put_int(out: &mut Text, number: u32, n: &i64) -> Result<(), Memory>
    requires least { 1 ≤ number }
    requires below { number < 2 ^ 29 }
    ensures written { OnOk result (out.new ≡ out.old ++ int_field number n.now) }
    ensures numbers { IsInt n.now }
{
    put_number(out, number, n.cast_unsigned())
}

pub(crate) fn put_bool(out: &mut Text, number: u32, flag: bool) -> Result<(), Memory>
    requires least { 1 ≤ number }
    requires below { number < 2 ^ 29 }
    ensures { OnOk result (out.new ≡ out.old ++ bool_field number flag) }
{
    put_number(out, number, if flag { 1 } else { 0 })
}

pub(crate) fn put_packed_ints(
    alloc: Global,
    out: &mut Text,
    number: u32,
    list: &[i64],
) -> Result<(), Memory>
    requires least { 1 ≤ number }
    requires below { number < 2 ^ 29 }
    ensures written { OnOk result
        (out.new ≡ out.old ++ packed_field number (map unsigned list.now)) }
    ensures numbers { OnOk result (AllByRecursion IsInt list.now) }
{
    // Most samples have one or two values, and for these no vector is made.
    match list {
        [n] => put_packed(out, number, &[n.cast_unsigned()]),
        [n, last] => put_packed(out, number, &[n.cast_unsigned(), last.cast_unsigned()]),
        _ => put_packed_list(alloc, out, number, list),
    }
}

fn put_packed_list(alloc: Global, out: &mut Text, number: u32, list: &[i64]) -> Result<(), Memory>
    requires least { 1 ≤ number }
    requires below { number < 2 ^ 29 }
    ensures written { OnOk result
        (out.new ≡ out.old ++ packed_field number (map unsigned list.now)) }
    ensures numbers { OnOk result (AllByRecursion IsInt list.now) }
{
    let numbers = unsigned_of(alloc, list)?;
    put_packed(out, number, &numbers)
}

fn unsigned_of(alloc: Global, list: &[i64]) -> Result<Vec<u64>, Memory>
    ensures written { IfOk result (λ numbers. numbers.items ≡ map unsigned list.now) }
    ensures numbers { IfOk result (λ _. AllByRecursion IsInt list.now) }
{
    let mut numbers = Vec::with_capacity(alloc, list.len())?;
    for n in list {
        numbers.push(n.cast_unsigned())?;
    }
    Ok(numbers)
}

/// Appends a field for each message of the list.
pub(crate) fn put_messages<M: Spelled>(
    alloc: Global,
    out: &mut Text,
    number: u32,
    list: &[M],
) -> Result<(), Memory>
    requires least { 1 ≤ number }
    requires below { number < 2 ^ 29 }
    ensures written { OnOk result (out.new ≡ out.old ++ message_fields M.bytes number list.now) }
    ensures numbers { OnOk result (AllByRecursion M.fits list.now) }
{
    let mut payload = Text::new(alloc);
    for message in list {
        put_message(alloc, out, number, message, &mut payload)?;
    }
    Ok(())
}

/// Appends a field for the message. What the payload had before is lost.
pub(crate) fn put_message<M: Spelled>(
    alloc: Global,
    out: &mut Text,
    number: u32,
    message: &M,
    payload: &mut Text,
) -> Result<(), Memory>
    requires least { 1 ≤ number }
    requires below { number < 2 ^ 29 }
    ensures written { OnOk result (out.new ≡ out.old ++ bytes_field number (M.bytes message.now)) }
    ensures numbers { OnOk result (M.fits message.now) }
{
    payload.clear();
    message.put(alloc, payload)?;
    put_bytes(out, number, payload.as_slice())
}
