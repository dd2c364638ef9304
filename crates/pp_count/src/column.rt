//! The column of values that a report shows.
ghost use Rattle.std.specs.Prelude.{◌≡◌, ◌<◌, ◌^◌, min, IfOk, IfSome, true, length, position, bytes_eq};
ghost use Rattle.std.specs.List.{list_all};
ghost use Rattle.std.specs.Result.{result_ok};
ghost use Rattle.std.specs.Str.Parse.{digits_value};
ghost use Rattle.std.specs.Char.{is_ascii_digit};
ghost use Rattle.pp_model.specs.Conditions.{IsColumnOf};
ghost use Rattle.pp_model.specs.Lookup.{text_of};
ghost use Rattle.pp_count.specs.Column.{column_of, default_column, column_named, column_at, type_named};

use pp_model::{Loaded, Presentation, Profile, text_of};
use thiserror::Error;

/// No sample type has the number or the name that `sample_index` asks for.
#[derive(Clone, Copy, Debug, PartialEq, Eq, Error)]
#[error("no such sample type")]
pub struct BadSampleIndex;

/// The place of the sample type that `sample_index` asks for. None where it asks for none
/// and there are no sample types.
///
/// An empty `sample_index` means the first type of the profile's default name, else the last one. Digits alone are a
/// place, counted from 0. Any other text is the name of a type, of which the first counts.
pub fn column_of(l: &Loaded, presentation: &Presentation) -> Result<Option<u32>, BadSampleIndex>
    requires { length l.now.profile.sample_type < 2 ^ 32 }
    ensures value { result_ok result ≡ column_of l.now.profile presentation.now.sample_index }
    ensures bound { IfOk result (IsColumnOf l.now.profile) }
{
    let p = l.profile.get();
    let text = presentation.sample_index.as_slice();
    if text.is_empty() {
        return Ok(default_column(p));
    }
    match column_named(p, text) {
        Some(column) => Ok(Some(column)),
        None => Err(BadSampleIndex),
    }
}

// The column where none is asked for.
fn default_column(p: &Profile) -> Option<u32>
    requires { length p.now.sample_type < 2 ^ 32 }
    ensures value { result ≡ default_column p.now }
    ensures bound { IsColumnOf p.now result }
{
    match type_named(p, text_of(p, p.default_sample_type)) {
        Some(place) => Some(place),
        None if p.sample_type.len() == 0 => None,
        None => Some(p.sample_type.len() as u32 - 1),
    }
}

// The column of this number or name.
fn column_named(p: &Profile, text: &[u8]) -> Option<u32>
    requires { length p.now.sample_type < 2 ^ 32 }
    ensures value { result ≡ column_named p.now text.now }
    ensures bound { IfSome result (λ place. place < length p.now.sample_type) }
{
    if is_number(text) {
        column_at(p, text)
    } else {
        type_named(p, text)
    }
}

// Whether the text has digits alone.
fn is_number(text: &[u8]) -> bool
    ensures { result ≡ list_all is_ascii_digit text.now }
{
    text.iter().all(|byte| byte.is_ascii_digit())
}

// The column of the number that the digits spell.
fn column_at(p: &Profile, digits: &[u8]) -> Option<u32>
    requires few { length p.now.sample_type < 2 ^ 32 }
    requires digits { list_all is_ascii_digit digits.now ≡ true }
    ensures value { result ≡ column_at p.now digits.now }
    ensures bound { IfSome result (λ place. place < length p.now.sample_type) }
{
    let types = p.sample_type.len() as u64;
    let place = value_up_to(digits, types);
    if place < types {
        Some(place as u32)
    } else {
        None
    }
}

// The number that the digits spell, or the limit where that is less.
fn value_up_to(digits: &[u8], limit: u64) -> u64
    requires small { limit < 2 ^ 32 }
    requires digits { list_all is_ascii_digit digits.now ≡ true }
    ensures { result ≡ min (digits_value 10 digits.now) limit }
{
    let mut value = 0;
    for digit in digits {
        value = (value * 10 + u64::from(*digit - b'0')).min(limit);
    }
    value
}

// The first sample type of the name, which no empty name has.
fn type_named(p: &Profile, name: &[u8]) -> Option<u32>
    requires { length p.now.sample_type < 2 ^ 32 }
    ensures value { result ≡ type_named p.now name.now }
    ensures bound { IfSome result (λ place. place < length p.now.sample_type) }
{
    if name.is_empty() {
        return None;
    }
    match place_named(p, name) {
        Some(place) => Some(place as u32),
        None => None,
    }
}

fn place_named(p: &Profile, name: &[u8]) -> Option<usize>
    ensures value { result
        ≡ position (λ t. bytes_eq (text_of p.now t.kind) name.now) p.now.sample_type }
    ensures bound { IfSome result (λ place. place < length p.now.sample_type) }
{
    p.sample_type
        .as_slice()
        .iter()
        .position(|kind| text_of(p, kind.kind) == name)
}
