//! What one field gives to a message: a scalar, numbers, a text or a message.
ghost use Rattle.std.specs.Prelude.{◌≡◌, ◌+◌, ◌<◌, ◌^◌, ◌++◌, [], ◌∷◌, length, IfOk, IfErr, OnOk, Some};
ghost use Rattle.pp_wire.specs.Fields.{Varint, Bytes, item, content_of, fields};
ghost use Rattle.pp_tables.specs.Message.{Scalar, Numbers, Run, Nested, fault_by, fault_in};
ghost use Rattle.pp_tables.specs.Select.{last_or, uints_in, ints_in, bools_in, listed, texts_in, messages_in, fields_in};
ghost use Rattle.pp_tables.specs.Takes.{TakesField};

use crate::ReadRefusal;
use crate::message::{Message, fill};
use crate::packed::{Packable, push_packed};
use pp_base::{List, Memory, Text};
use pp_wire::{Field, Payload, WireFault, WireKind};
use std::alloc::Global;
use std::mem;

/// A list with fewer items gets room for one more at a time.
const SHORT: usize = 4;

fn wrong_kind(field: &Field<'_>) -> WireFault
    ensures { result ≡ record { kind = WireKind.WrongKind; at = field.now.at } }
{
    WireFault {
        kind: WireKind::WrongKind,
        at: field.at,
    }
}

fn scalar_of(field: &Field<'_>) -> Result<u64, WireFault>
    ensures ok { IfOk result (λ n. content_of field.now.payload ≡ Varint n) }
    ensures err { IfErr result (λ fault. fault_by Scalar (content_of field.now.payload) field.now.at
        ≡ Some fault) }
{
    match field.payload {
        Payload::Varint(n) => Ok(n),
        _ => Err(wrong_kind(field)),
    }
}

pub(crate) fn set_uint(number: &mut u64, field: &Field<'_>) -> Result<(), ReadRefusal>
    ensures { TakesField result (fault_by Scalar (content_of field.now.payload) field.now.at)
        (number.new ≡ last_or number.old (uints_in (item field.now))) }
{
    *number = scalar_of(field)?;
    Ok(())
}

pub(crate) fn set_int(number: &mut i64, field: &Field<'_>) -> Result<(), ReadRefusal>
    ensures { TakesField result (fault_by Scalar (content_of field.now.payload) field.now.at)
        (number.new ≡ last_or number.old (ints_in (item field.now))) }
{
    *number = scalar_of(field)?.cast_signed();
    Ok(())
}

pub(crate) fn set_bool(flag: &mut bool, field: &Field<'_>) -> Result<(), ReadRefusal>
    ensures { TakesField result (fault_by Scalar (content_of field.now.payload) field.now.at)
        (flag.new ≡ last_or flag.old (bools_in (item field.now))) }
{
    *flag = scalar_of(field)? != 0;
    Ok(())
}

pub(crate) fn run_of<'a>(field: &Field<'a>) -> Result<(&'a [u8], u64), WireFault>
    ensures ok { IfOk result (λ run. content_of field.now.payload ≡ Bytes run.0.now run.1) }
    ensures within { IfOk result (λ run. run.1 + length run.0.now < 2 ^ 64) }
    ensures err { IfErr result (λ fault. fault_by Run (content_of field.now.payload) field.now.at
        ≡ Some fault) }
{
    match field.payload {
        Payload::Bytes(bytes, at) => Ok((bytes, at)),
        _ => Err(wrong_kind(field)),
    }
}

pub(crate) fn push_text(
    alloc: Global,
    list: &mut List<Text>,
    field: &Field<'_>,
) -> Result<(), ReadRefusal>
    ensures { TakesField result (fault_by Run (content_of field.now.payload) field.now.at)
        (list.new ≡ list.old ++ texts_in (item field.now)) }
{
    let (bytes, _) = run_of(field)?;
    list.push(Text::from_slice(alloc, bytes)?)?;
    Ok(())
}

pub(crate) fn fill_from<M: Message>(
    alloc: Global,
    message: &mut M,
    field: &Field<'_>,
) -> Result<(), ReadRefusal>
    ensures { TakesField result
        (fault_by (Nested (fault_in M.rules)) (content_of field.now.payload) field.now.at)
        (message.new ≡ M.filled message.old (fields_in (item field.now))) }
{
    let (bytes, at) = run_of(field)?;
    fill(alloc, message, bytes, at)
}

pub(crate) fn push_message<M: Message>(
    alloc: Global,
    list: &mut List<M>,
    field: &Field<'_>,
) -> Result<(), ReadRefusal>
    ensures { TakesField result
        (fault_by (Nested (fault_in M.rules)) (content_of field.now.payload) field.now.at)
        (list.new ≡ list.old ++ messages_in (M.filled M.empty) (item field.now)) }
{
    let (bytes, at) = run_of(field)?;
    push_filled(alloc, list, bytes, at)
}

/// Adds the message of these bytes, of which the first is at the place `at`.
pub(crate) fn push_filled<M: Message>(
    alloc: Global,
    list: &mut List<M>,
    bytes: &[u8],
    at: u64,
) -> Result<(), ReadRefusal>
    requires { at + length bytes.now < 2 ^ 64 }
    ensures { TakesField result (fault_in M.rules bytes.now at)
        (list.new ≡ list.old ++ M.filled M.empty (fields bytes.now at).items ∷ []) }
{
    let mut message = M::none(alloc);
    fill(alloc, &mut message, bytes, at)?;
    make_room_for_one(alloc, list)?;
    list.push(message)?;
    Ok(())
}

// Makes room for just one more in a short list. Most messages have few of a kind, and room that is never used adds up
// over many messages.
fn make_room_for_one<T: Drop>(alloc: Global, list: &mut List<T>) -> Result<(), Memory>
    ensures { OnOk result (list.new ≡ list.old) }
{
    if list.len() >= SHORT {
        return Ok(());
    }
    let mut items = mem::replace(list, List::new(alloc)).into_vec();
    items.reserve_exact(1)?;
    *list = List::from_vec(items);
    Ok(())
}

pub(crate) fn push_numbers<N: Packable>(
    alloc: Global,
    list: &mut List<N>,
    field: &Field<'_>,
) -> Result<(), ReadRefusal>
    ensures { TakesField result (fault_by Numbers (content_of field.now.payload) field.now.at)
        (list.new ≡ list.old ++ N.numbers (listed (content_of field.now.payload) field.now.at)) }
{
    match field.payload {
        Payload::Varint(n) => Ok(N::add(list, &[n])?),
        Payload::Bytes(bytes, _) => push_packed(alloc, list, bytes, field.at),
        _ => Err(ReadRefusal::Wire(wrong_kind(field))),
    }
}
