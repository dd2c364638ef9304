//! Bytes as they are spelled in transcripts: `\n`, `\t`, `\\` and `\xHH` name bytes, `\#` a number where there is one,
//! and every other character stands for itself.

use crate::problem::Problem;
use pp_base::{Memory, Text};

/// Adds the bytes that the text spells, in which there is no number.
pub fn put_unescaped(into: &mut Text, text: &str) -> Result<(), Problem> {
    put_numbered(into, text, None)
}

/// Adds the bytes that the text spells. `\#` stands for these bytes of a number.
pub fn put_numbered(into: &mut Text, text: &str, number: Option<[u8; 3]>) -> Result<(), Problem> {
    let mut is_escape = false;
    for piece in text.split('\\') {
        if !is_escape {
            into.extend(piece.as_bytes())?;
            is_escape = true;
        } else if piece.is_empty() {
            into.extend(b"\\")?;
            is_escape = false;
        } else {
            put_escape(into, piece, number)?;
        }
    }
    if is_escape {
        Ok(())
    } else {
        Err(Problem::Escape)
    }
}

// Adds the byte or the number that is named behind a `\`, and what follows its name.
fn put_escape(into: &mut Text, piece: &str, number: Option<[u8; 3]>) -> Result<(), Problem> {
    if let Some(rest) = piece.strip_prefix('n') {
        put_byte_and(into, b'\n', rest)
    } else if let Some(rest) = piece.strip_prefix('t') {
        put_byte_and(into, b'\t', rest)
    } else if let Some(rest) = piece.strip_prefix('x') {
        let (digits, rest) = rest.split_at_checked(2).ok_or(Problem::Escape)?;
        put_byte_and(into, byte_of(digits)?, rest)
    } else if let Some(rest) = piece.strip_prefix('#') {
        into.extend(&number.ok_or(Problem::Escape)?)?;
        into.extend(rest.as_bytes())?;
        Ok(())
    } else {
        Err(Problem::Escape)
    }
}

fn put_byte_and(into: &mut Text, byte: u8, rest: &str) -> Result<(), Problem> {
    into.extend(&[byte])?;
    into.extend(rest.as_bytes())?;
    Ok(())
}

/// The number as a varint of three bytes. Of one above 2,097,151 the lowest 21 bits.
pub fn in_three_bytes(number: u64) -> [u8; 3] {
    [
        low_bits(number) | 128,
        low_bits(number >> 7) | 128,
        low_bits(number >> 14),
    ]
}

fn low_bits(number: u64) -> u8 {
    (number % 128) as u8
}

fn byte_of(digits: &str) -> Result<u8, Problem> {
    if !digits.bytes().all(|digit| digit.is_ascii_hexdigit()) {
        return Err(Problem::Escape);
    }
    u8::from_str_radix(digits, 16).map_err(|_| Problem::Escape)
}

/// Adds a spelling of the bytes. Letters, digits, signs and spaces stand for themselves.
pub fn put_escaped(into: &mut Text, bytes: &[u8]) -> Result<(), Memory> {
    for byte in bytes {
        match *byte {
            b'\n' => into.extend(b"\\n")?,
            b'\t' => into.extend(b"\\t")?,
            b'\\' => into.extend(b"\\\\")?,
            b' '..=b'~' => into.extend(&[*byte])?,
            other => put_hex(into, other)?,
        }
    }
    Ok(())
}

const DIGITS: [u8; 16] = *b"0123456789abcdef";

fn put_hex(into: &mut Text, byte: u8) -> Result<(), Memory> {
    let high = DIGITS[(byte >> 4) as usize % 16];
    let low = DIGITS[byte as usize % 16];
    into.extend(&[b'\\', b'x', high, low])
}
