//! The profile that a file's bytes are, of which several lanes read the samples.
ghost use Rattle.std.specs.Prelude.{◌≡◌, ◌<◌, ◌^◌, Ok, length, IfOk, IfSome};
ghost use Rattle.pp_model.specs.Words.{HasAtMost};
ghost use Rattle.pp_tables.specs.Read.{Answers, read, read_message};
ghost use Rattle.pp_tables.specs.Skim.{IsSkimmed};
ghost use Rattle.pp_tables.specs.Apart.{AnswersIfAny};

use crate::ReadRefusal;
use crate::decoding::Decoding;
use crate::reading::{is_compressed, read_profile, with_a_text};
use crate::skim::{Skimmed, skim};
use pp_base::Memory;
use pp_model::Profile;
use pp_steal::{Resources, run_piecewise};
use std::thread::Threads;

/// Reads the message `Profile` as `read_profile` does, its samples in pieces of 1,024 on `with.workers` lanes. The answer
/// does not tell how many there were. With one lane, from 4 GiB on, and where the bytes have a fault, it is
/// `read_profile`.
pub fn read_profile_on<R: Threads + Sync>(
    with: &Resources<'_, R>,
    bytes: &[u8],
) -> Result<Profile, ReadRefusal>
    ensures read { Answers result (read bytes.now) }
    ensures few { IfOk result (HasAtMost (length bytes.now)) }
{
    if with.workers == 1 || bytes.len() >= 1 << 32 || bytes.is_empty() || is_compressed(bytes) {
        return read_profile(with.alloc, bytes);
    }
    match message_on(with, bytes) {
        Ok(Some(profile)) => Ok(profile),
        // The first fault is found from the front.
        Ok(None) => read_profile(with.alloc, bytes),
        Err(refusal) => Err(refusal),
    }
}

// The profile, or `None` where the bytes have a fault.
fn message_on<R: Threads + Sync>(
    with: &Resources<'_, R>,
    bytes: &[u8],
) -> Result<Option<Profile>, ReadRefusal>
    requires { length bytes.now < 2 ^ 32 }
    ensures { AnswersIfAny result (read_message bytes.now) }
{
    match skim(with.alloc, bytes) {
        Ok(skimmed) => Ok(finish(with, bytes, skimmed)?),
        Err(ReadRefusal::Memory) => Err(ReadRefusal::Memory),
        // A sample in front of this fault may have one too.
        Err(_) => Ok(None),
    }
}

// Reads the samples, and puts them into the profile. `None` where one has a fault.
fn finish<R: Threads + Sync>(
    with: &Resources<'_, R>,
    bytes: &[u8],
    skimmed: Skimmed,
) -> Result<Option<Profile>, Memory>
    requires short { length bytes.now < 2 ^ 32 }
    requires skimmed { IsSkimmed bytes.now skimmed }
    ensures { IfOk result (λ found. IfSome found (λ p. read_message bytes.now ≡ Ok p)) }
{
    let Skimmed {
        mut profile,
        samples,
    } = skimmed;
    let decoding = Decoding {
        alloc: with.alloc,
        bytes,
    };
    match run_piecewise(with, &decoding, samples.as_slice())? {
        Some(samples) => {
            profile.sample = samples;
            Ok(Some(with_a_text(with.alloc, profile)?))
        }
        None => Ok(None),
    }
}
