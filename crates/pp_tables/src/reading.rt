//! The profile that a file's bytes are.
ghost use Rattle.std.specs.Prelude.{◌≡◌, length, IfOk};
ghost use Rattle.pp_tables.specs.Read.{Answers, is_gzip, read, read_message, with_a_text};
ghost use Rattle.pp_model.specs.Words.{HasAtMost};

use crate::ReadRefusal;
use crate::message::{Message, fill};
use pp_base::{Memory, Text};
use pp_model::Profile;
use std::alloc::Global;

/// Reads the message `Profile` of profile.proto, as it stands or its first fault. No text at all counts as the one
/// empty text. Nothing is asked of ids and text indices.
pub fn read_profile(alloc: Global, bytes: &[u8]) -> Result<Profile, ReadRefusal>
    ensures read { Answers result (read bytes.now) }
    ensures few { IfOk result (HasAtMost (length bytes.now)) }
{
    if bytes.is_empty() {
        return Err(ReadRefusal::Empty);
    }
    if is_compressed(bytes) {
        return Err(ReadRefusal::Compressed);
    }
    message_of(alloc, bytes)
}

// A gzip file begins with 1f 8b. 1f would be a tag of kind 7, so no message is lost.
pub(crate) fn is_compressed(bytes: &[u8]) -> bool
    ensures { result ≡ is_gzip bytes.now }
{
    match bytes {
        [0x1f, 0x8b, ..] => true,
        _ => false,
    }
}

fn message_of(alloc: Global, bytes: &[u8]) -> Result<Profile, ReadRefusal>
    ensures { Answers result (read_message bytes.now) }
{
    let mut profile = Profile::none(alloc);
    fill(alloc, &mut profile, bytes, 0)?;
    Ok(with_a_text(alloc, profile)?)
}

/// The profile, with the one empty text where it has none.
pub(crate) fn with_a_text(alloc: Global, mut profile: Profile) -> Result<Profile, Memory>
    ensures { IfOk result (λ p. p ≡ with_a_text profile) }
{
    if profile.text.len() == 0 {
        profile.text.push(Text::new(alloc))?;
    }
    Ok(profile)
}
