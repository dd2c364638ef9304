//! A file as words of 64 bits.
ghost use Rattle.std.specs.Prelude.{◌≡◌, ◌+◌, ◌*◌, ◌<◌, ◌≤◌, Some, length, slice_get, slice_range, take, drop, IfOk};
ghost use Rattle.std.specs.Int.{w64, from_le_bytes};
ghost use Rattle.pp_legacy.specs.Steps.{fault_unless};
ghost use Rattle.pp_legacy.specs.Words.{whole_words, word_at, behind_words, truncated};

use crate::{LegacyFault, LegacyKind};

/// The number of whole words.
#[tactic(auto, using(crate::proofs::WordsLemmas::eight_a_word))]
pub fn word_count(bytes: &[u8]) -> u64
    ensures { result ≡ length (whole_words bytes.now) }
{
    bytes.len() as u64 / 8
}

/// The word at a place where there is one.
#[tactic(auto, using(crate::proofs::WordsLemmas::eight_a_word, crate::proofs::WordsLemmas::word_is))]
pub fn word_of(bytes: &[u8], at: u64) -> u64
    requires { at < length (whole_words bytes.now) }
    ensures { slice_get (whole_words bytes.now) at ≡ Some result }
{
    let (_, rest) = bytes.split_at(8 * at as usize);
    front_word(rest)
}

// The first eight bytes as a number.
fn front_word(bytes: &[u8]) -> u64
    requires { 8 ≤ length bytes.now }
    ensures { result ≡ from_le_bytes w64 (take 8 bytes.now) }
{
    u64::from_le_bytes([
        bytes[0], bytes[1], bytes[2], bytes[3], bytes[4], bytes[5], bytes[6], bytes[7],
    ])
}

/// The bytes of the words from one place up to another.
#[tactic(auto, using(crate::proofs::WordsLemmas::eight_a_word, crate::proofs::WordsLemmas::words_between))]
pub fn words_between(bytes: &[u8], from: u64, to: u64) -> &[u8]
    requires forward { from ≤ to }
    requires within { to ≤ length (whole_words bytes.now) }
    ensures part { whole_words result.now ≡ slice_range (whole_words bytes.now) from to }
    ensures len { from + length (whole_words result.now) ≡ to }
{
    let (front, _) = bytes.split_at(8 * to as usize);
    let (_, between) = front.split_at(8 * from as usize);
    between
}

/// The bytes behind the words before a place.
#[tactic(auto, using(crate::proofs::WordsLemmas::eight_a_word))]
pub fn bytes_from(bytes: &[u8], at: u64) -> &[u8]
    requires { at ≤ length (whole_words bytes.now) }
    ensures { result.now ≡ drop (8 * at) bytes.now }
{
    bytes.split_at(8 * at as usize).1
}

/// The word at a place, which has to be there.
pub fn word_at(bytes: &[u8], at: u64) -> Result<u64, LegacyFault>
    ensures read { result ≡ word_at (whole_words bytes.now) at }
    ensures within { IfOk result (λ _. at < length (whole_words bytes.now)) }
{
    if at < word_count(bytes) {
        Ok(word_of(bytes, at))
    } else {
        Err(truncated(bytes))
    }
}

/// The place behind `count` words from `at` on, which have to be there.
pub fn behind_words(bytes: &[u8], at: u64, count: u64) -> Result<u64, LegacyFault>
    ensures { result ≡ behind_words (whole_words bytes.now) at count }
{
    match at.checked_add(count) {
        Some(next) if next <= word_count(bytes) => Ok(next),
        _ => Err(truncated(bytes)),
    }
}

/// Goes on where the test passes.
pub fn fault_unless(passes: bool, kind: LegacyKind, word: u64) -> Result<(), LegacyFault>
    ensures { result ≡ fault_unless passes kind word }
{
    if passes {
        Ok(())
    } else {
        Err(LegacyFault { kind, word })
    }
}

// The fault of a word that isn't there.
fn truncated(bytes: &[u8]) -> LegacyFault
    ensures { result ≡ truncated (whole_words bytes.now) }
{
    LegacyFault {
        kind: LegacyKind::Truncated,
        word: word_count(bytes),
    }
}
