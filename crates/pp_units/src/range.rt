//! Ranges of numbers with units: how they are read, and what lies in them.
ghost use Rattle.std.specs.Prelude.{◌≡◌, ◌≤◌, true, length, drop, take_while, IfOk, option_map};
ghost use Rattle.std.specs.Char.{is_ascii_digit, is_ascii_alphabetic};
ghost use Rattle.std.specs.List.{list_all, prefix_len};
ghost use Rattle.std.specs.Str.Parse.{digits_value, starts_with_minus, without_leading_sign};
ghost use Rattle.pp_units.specs.Ranges.{range_of, bound_of, side_of, between, alone, with_sign, fitting, in_range, is_above, is_below, in_smallest_unit};
ghost use Rattle.pp_units.specs.BoundIn.{whole_bound};

use crate::forced::{factor_of, is_same_kind};
use crate::scan::{cut_at, number_within};
use pp_base::{Memory, Text};
use std::alloc::Global;

/// One end of a range.
#[derive(Debug, Drop)]
pub struct Bound {
    /// In the bound's own unit, with its sign.
    pub number: i64,
    /// Letters, or nothing where the number is in the unit of what it is compared with.
    pub unit: Text,
}

/// Numbers from `low` to `high`, both among them.
#[derive(Debug, Drop)]
pub struct Range {
    /// The least number, or `None` where no number is too low.
    pub low: Option<Bound>,
    /// The greatest number, or `None` where no number is too high.
    pub high: Option<Bound>,
}

/// The range that the text spells: `A` from A to A, `A:` from A, `:B` up to B, `A:B` from A to B.
/// A bound is a sign or none, digits within 64 bits, and ASCII letters or none. `None` where the
/// text is no such range.
#[tactic(auto, unfolding(crate::specs::Ranges::range_of))]
pub fn read_range(alloc: Global, text: &[u8]) -> Result<Option<Range>, Memory>
    ensures { IfOk result (λ found. found ≡ range_of text.now) }
{
    match cut_at(text, b':') {
        Some((low, high)) => read_between(alloc, low, high),
        None => read_alone(alloc, text),
    }
}

// A range from a bound to itself.
fn read_alone(alloc: Global, text: &[u8]) -> Result<Option<Range>, Memory>
    ensures { IfOk result (λ found. found ≡ option_map alone (bound_of text.now)) }
{
    let Some(bound) = bound_in(text) else {
        return Ok(None);
    };
    Ok(Some(Range {
        low: Some(copied(alloc, &bound)?),
        high: Some(copied(alloc, &bound)?),
    }))
}

// A range of two sides, of which one is there.
fn read_between(alloc: Global, low: &[u8], high: &[u8]) -> Result<Option<Range>, Memory>
    ensures { IfOk result (λ found. found ≡ between (side_of low.now) (side_of high.now)) }
{
    if low.is_empty() && high.is_empty() {
        return Ok(None);
    }
    let Some(low) = read_side(alloc, low)? else {
        return Ok(None);
    };
    let Some(high) = read_side(alloc, high)? else {
        return Ok(None);
    };
    Ok(Some(Range { low, high }))
}

fn read_side(alloc: Global, text: &[u8]) -> Result<Option<Option<Bound>>, Memory>
    ensures { IfOk result (λ found. found ≡ side_of text.now) }
{
    if text.is_empty() {
        return Ok(Some(None));
    }
    let Some(bound) = bound_in(text) else {
        return Ok(None);
    };
    Ok(Some(Some(copied(alloc, &bound)?)))
}

// A bound whose unit is a part of the text.
#[derive(Drop)]
struct BoundIn<'a> {
    number: i64,
    unit: &'a [u8],
}

fn copied(alloc: Global, bound: &BoundIn<'_>) -> Result<Bound, Memory>
    ensures { IfOk result (λ copy. copy ≡ whole_bound bound.now) }
{
    Ok(Bound {
        number: bound.number,
        unit: Text::from_slice(alloc, bound.unit)?,
    })
}

#[tactic(auto, unfolding(crate::specs::Ranges::bound_of))]
fn bound_in(text: &[u8]) -> Option<BoundIn<'_>>
    ensures { option_map whole_bound result ≡ bound_of text.now }
{
    let (digits, unit) = split_digits(without_sign(text));
    if digits.is_empty() || !is_letters(unit) {
        return None;
    }
    Some(BoundIn {
        number: number_of(has_minus(text), digits)?,
        unit,
    })
}

fn is_letters(text: &[u8]) -> bool
    ensures { result ≡ list_all is_ascii_alphabetic text.now }
{
    text.iter().all(|byte| byte.is_ascii_alphabetic())
}

fn has_minus(text: &[u8]) -> bool
    ensures { result ≡ starts_with_minus text.now }
{
    match text {
        [b'-', ..] => true,
        _ => false,
    }
}

fn without_sign(text: &[u8]) -> &[u8]
    ensures { result.now ≡ without_leading_sign text.now }
{
    match text {
        [b'-' | b'+', unsigned @ ..] => unsigned,
        _ => text,
    }
}

// The digits that the text begins with, and the rest.
fn split_digits(text: &[u8]) -> (&[u8], &[u8])
    ensures digits { result.0.now ≡ take_while is_ascii_digit text.now }
    ensures rest { result.1.now ≡ drop (prefix_len is_ascii_digit text.now) text.now }
    ensures all { list_all is_ascii_digit result.0.now ≡ true }
{
    text.split_at(digits_len(text))
}

// How many digits the text begins with.
fn digits_len(text: &[u8]) -> usize
    ensures value { result ≡ prefix_len is_ascii_digit text.now }
    ensures within { result ≤ length text.now }
{
    for (i, byte) in text.iter().enumerate() {
        if !byte.is_ascii_digit() {
            return i;
        }
    }
    text.len()
}

// The number of the digits, where it fits.
fn number_of(negative: bool, digits: &[u8]) -> Option<i64>
    requires { list_all is_ascii_digit digits.now ≡ true }
    ensures { result ≡ fitting (with_sign negative (digits_value 10 digits.now)) }
{
    if negative {
        let size = number_within(digits, 1 << 63)?;
        return Some((-i128::from(size)) as i64);
    }
    let size = number_within(digits, i64::MAX as u64)?;
    Some(size as i64)
}

/// Whether the number of the unit lies in the range. A bound without a unit is compared with the number as it is. Else
/// both are counted in the smallest unit of their family; a number of another family, or of another unit that is in
/// none, does not lie in the range.
#[tactic(auto, unfolding(crate::specs::Ranges::in_range))]
pub fn in_range(range: &Range, num: i64, unit: &[u8]) -> bool
    ensures { result ≡ in_range range.now num unit.now }
{
    is_above(&range.low, num, unit) && is_below(&range.high, num, unit)
}

fn is_above(low: &Option<Bound>, num: i64, unit: &[u8]) -> bool
    ensures { result ≡ is_above low.now num unit.now }
{
    let Some(bound) = low else { return true };
    if bound.unit.len() == 0 {
        return bound.number <= num;
    }
    is_same_kind(bound.unit.as_slice(), unit)
        && scaled(bound.number, bound.unit.as_slice()) <= scaled(num, unit)
}

fn is_below(high: &Option<Bound>, num: i64, unit: &[u8]) -> bool
    ensures { result ≡ is_below high.now num unit.now }
{
    let Some(bound) = high else { return true };
    if bound.unit.len() == 0 {
        return num <= bound.number;
    }
    is_same_kind(bound.unit.as_slice(), unit)
        && scaled(num, unit) <= scaled(bound.number, bound.unit.as_slice())
}

// The number, counted in the smallest unit of the unit's family.
fn scaled(number: i64, unit: &[u8]) -> i128
    ensures { result ≡ in_smallest_unit number unit.now }
{
    i128::from(number) * i128::from(factor_of(unit))
}
