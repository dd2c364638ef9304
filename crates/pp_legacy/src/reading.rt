//! The profile that a file's bytes are.
ghost use Rattle.std.specs.Prelude.{◌≡◌, ◌<◌, ◌^◌, length, map, IsTrue, IfOk};
ghost use Rattle.pp_legacy.specs.Steps.{GivesOrMemory};
ghost use Rattle.pp_legacy.specs.Legacy.{is_legacy, legacy};
ghost use Rattle.pp_model.specs.Words.{HasAtMost};
ghost use Rattle.pp_legacy.specs.Tables.{legacy_profile};
ghost use Rattle.pp_legacy.specs.Seen.{entry_of, regions_of};

use crate::LegacyRefusal;
use crate::header::header_of;
use crate::holders::locations_of;
use crate::line::Region;
use crate::records::{Record, records_of};
use crate::regions::{mappings_of, regions_in, texts_of};
use crate::samples::samples_of;
use crate::words::bytes_from;
use pp_base::{List, Memory};
use pp_keys::HashKeys;
use pp_model::{Profile, Valid, ValueType};
use std::alloc::Global;

// The sample types, by their texts.
const SAMPLES: ValueType = ValueType { kind: 1, unit: 2 };

const CPU: ValueType = ValueType { kind: 3, unit: 4 };

/// Whether a file is a CPU profile as gperftools writes it: it has 16 bytes or more, and the first eight are 0. No
/// message `Profile` of profile.proto begins so, since 0 is no field number.
pub fn is_legacy(bytes: &[u8]) -> bool
    ensures { result ≡ is_legacy bytes.now }
{
    match bytes {
        [0, 0, 0, 0, 0, 0, 0, 0, rest @ ..] => 8 <= rest.len(),
        _ => false,
    }
}

/// The profile of such a file: samples/count and cpu/nanoseconds, each stack of addresses a sample, each address a
/// location in the first mapping that holds it. Or the first fault of the file. `keys` are those of the table of
/// addresses, on which no answer depends.
pub fn read_legacy(alloc: Global, keys: HashKeys, bytes: &[u8]) -> Result<Valid, LegacyRefusal>
    requires { IsTrue (is_legacy bytes.now) }
    ensures read { GivesOrMemory (λ p. p) result (legacy bytes.now) }
    ensures few { IfOk result (HasAtMost (length bytes.now)) }
{
    let head = header_of(bytes)?;
    let found = records_of(alloc, bytes, head.nanos, head.first)?;
    let regions = regions_in(alloc, bytes_from(bytes, found.text))?;
    let profile = profile_of(
        alloc,
        keys,
        head.nanos,
        found.records.as_slice(),
        regions.as_slice(),
    )?;
    Ok(Valid::claim(profile))
}

// The tables, where a period has `nanos` nanoseconds.
#[tactic(auto, unfolding(crate::specs::Tables::legacy_profile))]
fn profile_of(
    alloc: Global,
    keys: HashKeys,
    nanos: u64,
    records: &[Record<'_>],
    regions: &[Region<'_>],
) -> Result<Profile, Memory>
    requires { nanos < 2 ^ 63 }
    ensures { IfOk result (λ p. p ≡ legacy_profile nanos (map entry_of records.now) (regions_of regions.now)) }
{
    let stacks = samples_of(alloc, keys, records)?;
    let mappings = mappings_of(alloc, regions)?;
    let locations = locations_of(alloc, mappings.as_slice(), stacks.addresses.as_slice())?;
    Ok(Profile {
        sample_type: List::from_vec([SAMPLES, CPU].to_vec(alloc)?),
        sample: stacks.samples,
        mapping: mappings,
        location: locations,
        function: List::new(alloc),
        text: texts_of(alloc, regions)?,
        drop_frames: 0,
        keep_frames: 0,
        time_nanos: 0,
        duration_nanos: 0,
        period_type: CPU,
        period: nanos as i64,
        comment: List::new(alloc),
        default_sample_type: 0,
        doc_url: 0,
    })
}
