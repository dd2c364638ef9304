//! The header of a CPU profile.
ghost use Rattle.std.specs.Prelude.{◌≡◌, ◌<◌, ◌^◌, IfOk};
ghost use Rattle.pp_legacy.specs.Words.{whole_words};
ghost use Rattle.pp_legacy.specs.Header.{header};

use crate::words::{behind_words, fault_unless, word_at};
use crate::{LegacyFault, LegacyKind};

// The most microseconds whose nanoseconds are a number of 63 bits.
const MOST_PERIOD: u64 = i64::MAX as u64 / 1000;

/// What the header tells.
#[derive(Clone, Copy)]
pub struct Header {
    /// The nanoseconds from one sample to the next, at least 1 and at most 2^63-1.
    pub nanos: u64,
    /// The number of the first word behind the header.
    pub first: u64,
}

/// The header of a file whose word 0 is known to be 0.
#[tactic(auto, unfolding(crate::specs::Header::header))]
pub fn header_of(bytes: &[u8]) -> Result<Header, LegacyFault>
    ensures read { result ≡ header (whole_words bytes.now) }
    ensures period { IfOk result (λ head. (0 < head.nanos) × (head.nanos < 2 ^ 63)) }
{
    let slots = word_at(bytes, 1)?;
    fault_unless(3 <= slots, LegacyKind::BadHeader, 1)?;
    let version = word_at(bytes, 2)?;
    fault_unless(version == 0, LegacyKind::BadHeader, 2)?;
    let period = word_at(bytes, 3)?;
    fault_unless(
        1 <= period && period <= MOST_PERIOD,
        LegacyKind::BadHeader,
        3,
    )?;
    let padding = word_at(bytes, 4)?;
    fault_unless(padding == 0, LegacyKind::BadHeader, 4)?;
    let first = behind_words(bytes, 2, slots)?;
    Ok(Header {
        nanos: period * 1000,
        first,
    })
}
