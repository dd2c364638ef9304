//! From the bytes of a source to its profile.
ghost use Rattle.std.specs.Prelude.{◌≡◌, ◌<◌, ◌≤◌, ◌^◌, length, IfOk, IsTrue};
ghost use Rattle.pp_check.specs.FirstFault.{IsIndexed};
ghost use Rattle.pp_legacy.specs.Legacy.{is_legacy, legacy};
ghost use Rattle.pp_tables.specs.Read.{read};
ghost use Rattle.pp_load.specs.Steps.{Loads};
ghost use Rattle.pp_load.specs.Decode.{legacy_given, tables_given, checked, tables_of, decoded};
ghost use Rattle.pp_model.specs.Words.{HasAtMost};

use crate::refusal::LoadRefusal;
use pp_check::{CheckRefusal, check_on};
use pp_desk::{Halt, Stop};
use pp_keys::HashKeys;
use pp_legacy::{LegacyRefusal, is_legacy, read_legacy};
use pp_model::Profile;
use pp_share::Hashed;
use pp_steal::Resources;
use pp_tables::{ReadRefusal, read_profile_on};
use std::alloc::Global;
use std::thread::Threads;

/// The profile of the source of this number, by its bytes: a CPU profile of gperftools, or a message of profile.proto
/// in which no table rule fails.
#[tactic(auto, unfolding(crate::specs::Decode::decoded))]
pub fn decode<R: Threads + Sync>(
    with: &Resources<'_, R>,
    source: u32,
    bytes: &[u8],
) -> Result<Hashed, Halt<LoadRefusal>>
    requires { length bytes.now < 2 ^ 32 }
    ensures is { Loads (decoded source bytes.now) result }
    ensures few { IfOk result (HasAtMost (length bytes.now)) }
{
    if is_legacy(bytes) {
        return decode_legacy(with.alloc, with.keys, source, bytes);
    }
    decode_tables(with, source, bytes)
}

#[tactic(auto, unfolding(crate::specs::Steps::Loads))]
fn decode_legacy(
    alloc: Global,
    keys: HashKeys,
    source: u32,
    bytes: &[u8],
) -> Result<Hashed, Halt<LoadRefusal>>
    requires { IsTrue (is_legacy bytes.now) }
    ensures is { Loads (legacy_given source (legacy bytes.now)) result }
    ensures few { IfOk result (HasAtMost (length bytes.now)) }
{
    match read_legacy(alloc, keys, bytes) {
        Ok(valid) => Ok(Hashed::new(alloc, valid)?),
        Err(LegacyRefusal::Fault(fault)) => {
            Err(Halt::Refused(LoadRefusal::Legacy { source, fault }))
        }
        Err(LegacyRefusal::Memory) => Err(Halt::Stopped(Stop::Memory)),
    }
}

#[tactic(auto, using(crate::proofs::Giving::giving), unfolding(crate::specs::Decode::tables_of))]
fn decode_tables<R: Threads + Sync>(
    with: &Resources<'_, R>,
    source: u32,
    bytes: &[u8],
) -> Result<Hashed, Halt<LoadRefusal>>
    requires { length bytes.now < 2 ^ 32 }
    ensures is { Loads (tables_of source bytes.now) result }
    ensures few { IfOk result (HasAtMost (length bytes.now)) }
{
    let profile = read_tables(with, source, bytes)?;
    check_tables(with, source, profile)
}

#[tactic(auto, unfolding(crate::specs::Steps::Loads))]
fn read_tables<R: Threads + Sync>(
    with: &Resources<'_, R>,
    source: u32,
    bytes: &[u8],
) -> Result<Profile, Halt<LoadRefusal>>
    ensures is { Loads (tables_given source (read bytes.now)) result }
    ensures few { IfOk result (HasAtMost (length bytes.now)) }
{
    match read_profile_on(with, bytes) {
        Ok(profile) => Ok(profile),
        Err(ReadRefusal::Empty) => Err(Halt::Refused(LoadRefusal::Empty { source })),
        Err(ReadRefusal::Compressed) => Err(Halt::Refused(LoadRefusal::Compressed { source })),
        Err(ReadRefusal::Wire(fault)) => Err(Halt::Refused(LoadRefusal::Wire { source, fault })),
        Err(ReadRefusal::Memory) => Err(Halt::Stopped(Stop::Memory)),
    }
}

#[tactic(auto, unfolding(crate::specs::Steps::Loads))]
fn check_tables<R: Threads + Sync>(
    with: &Resources<'_, R>,
    source: u32,
    profile: Profile,
) -> Result<Hashed, Halt<LoadRefusal>>
    requires { IsIndexed profile }
    ensures is { Loads (checked source profile) result }
    ensures same { IfOk result (λ hashed. hashed ≡ profile) }
{
    match check_on(with, profile) {
        Ok(hashed) => Ok(hashed),
        Err(CheckRefusal::Fault(fault)) => {
            Err(Halt::Refused(LoadRefusal::Table { source, fault }))
        }
        Err(CheckRefusal::Memory) => Err(Halt::Stopped(Stop::Memory)),
    }
}
