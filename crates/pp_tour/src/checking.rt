//! A profile without its addresses, and the table rules.
ghost use Rattle.pp_merge.specs.Merge.{difference};
ghost use Rattle.pp_model.specs.Sizes.{HasAtMost, IsCountable};
ghost use Rattle.std.specs.Bool.{OnTrue};
ghost use Rattle.std.specs.Prelude.{◌≡◌, ◌+◌, ◌<◌, ◌^◌, None, length, IfOk};

use anyhow::{Result, ensure};
use pp_aggregate::{Kept, aggregate_compact};
use pp_base::{Memory, Text};
use pp_keys::HashKeys;
use pp_model::{BaseKind, Compact, Profile};
use std::alloc::Global;

// All but the addresses.
const KEPT: Kept = Kept {
    functions: true,
    filenames: true,
    lines: true,
    columns: true,
    addresses: false,
    inline_frames: true,
};

/// Appends how many locations there are, and how many without addresses.
pub fn put_sizes(alloc: Global, server: &Compact, out: &mut Text) -> Result<()> {
    ensure!(pp_edit::is_countable(server.get()), "too large");
    let locations = server.get().location.len();
    let coarse = without_addresses(alloc, pp_edit::copy_compact(alloc, server)?)?;
    let left = coarse.get().location.len();
    let line = format!(in alloc; "\n{locations} locations, {left} without addresses")?;
    Ok(out.extend(line.as_bytes())?)
}

/// Appends how many samples are left of the profile that is taken off itself.
pub fn put_difference(alloc: Global, server: &Compact, out: &mut Text) -> Result<()> {
    let source = pp_edit::copy_compact(alloc, server)?;
    let base = pp_edit::copy_compact(alloc, server)?;
    ensure!(can_subtract(&source, &base), "can't be taken off itself");
    let left = pp_merge::subtract(alloc, HashKeys::fixed(), source, base, BaseKind::Base)?;
    let count = left.get().sample.len();
    let line = format!(in alloc; "\n{count} samples left of a profile that is its own base")?;
    Ok(out.extend(line.as_bytes())?)
}

// Whether the two are countable, agree, and are short enough together.
fn can_subtract(source: &Compact, base: &Compact) -> bool
    ensures source { OnTrue result (IsCountable source.now) }
    ensures base { OnTrue result (IsCountable base.now) }
    ensures agree { OnTrue result (difference source.now base.now ≡ None) }
    ensures few { OnTrue result (length source.now.sample + length base.now.sample < 2 ^ 32) }
{
    pp_edit::is_countable(source.get())
        && pp_edit::is_countable(base.get())
        && pp_merge::agree(source.valid(), base.valid()).is_none()
        && source.get().sample.len() + base.get().sample.len() < 1 << 32
}

// What is equal without addresses becomes one.
fn without_addresses(alloc: Global, server: Compact) -> Result<Compact, Memory>
    requires { IsCountable server }
{
    let coarse = aggregate_compact(server, &KEPT).into_valid();
    pp_merge::merge_alone(alloc, HashKeys::fixed(), coarse)
}

/// Appends the first fault of the profile as it is read back, and as it is once an index is wrong.
pub fn put_faults(alloc: Global, server: &Compact, out: &mut Text) -> Result<()> {
    let mut p = read_back(alloc, server)?;
    put_fault(alloc, &p, out)?;
    p.drop_frames = 1_000;
    put_fault(alloc, &p, out)
}

// No table of a file has more entries than the file has bytes.
fn read_back(alloc: Global, server: &Compact) -> Result<Profile>
    ensures { IfOk result (HasAtMost 16777216) }
{
    let bytes = pp_tables::write_profile(alloc, server.valid())?;
    ensure!(bytes.len() <= 16_777_216, "more than 16 MiB");
    Ok(pp_tables::read_profile(alloc, bytes.as_slice())?)
}

fn put_fault(alloc: Global, p: &Profile, out: &mut Text) -> Result<()>
    requires { HasAtMost 16777216 p.now }
{
    match pp_check::first_fault(alloc, p)? {
        Some(fault) => {
            let line = format!(in alloc; "\n{fault}")?;
            Ok(out.extend(line.as_bytes())?)
        }
        None => Ok(out.extend(b"\nno table rule fails")?),
    }
}
