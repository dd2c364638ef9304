//! The samples of a piece.
ghost use Rattle.std.specs.Prelude.{◌≡◌, ◌++◌, map, IfOk, OnOk};
ghost use Rattle.pp_tables.specs.Skim.{payload_of};
ghost use Rattle.pp_tables.specs.Apart.{ReadsSamples, AreSamples};

use crate::ReadRefusal;
use crate::extent::Extent;
use crate::fields::push_filled;
use crate::packed::with_room;
use pp_base::{List, Memory};
use pp_model::Sample;
use std::alloc::Global;
use std::mem;

/// The samples at `extents` of the bytes, or `None` where one has a fault.
pub(crate) fn decode(
    alloc: Global,
    bytes: &[u8],
    extents: &[Extent],
) -> Result<Option<List<Sample>>, Memory>
    ensures { IfOk result (AreSamples (map (payload_of bytes.now) extents.now)) }
{
    let mut samples = with_room(alloc, extents.len())?;
    warm_glibc(alloc);
    match push_samples(alloc, &mut samples, bytes, extents) {
        Ok(()) => Ok(Some(samples)),
        Err(ReadRefusal::Memory) => Err(Memory),
        Err(_) => Ok(None),
    }
}

// How many blocks glibc is made to keep: together, about what the lists of a full piece take.
const BLOCKS: usize = 4;

// How many numbers of 64 bits a block has. These are 96 KiB. From 128 KiB on, glibc maps a block for itself alone.
const BLOCK: usize = 12_288;

// Takes blocks, and gives them back, for glibc's sake. It keeps memory for each thread, and so gets from the system at
// once what the many small lists of a piece take. Else it gets one page after another, each by a call for which the
// other threads wait. No allocator needs this, so a refusal is passed over.
fn warm_glibc(alloc: Global) {
    mem::drop(take_blocks(alloc));
}

fn take_blocks(alloc: Global) -> Result<Vec<Vec<u64>>, Memory> {
    let mut blocks = Vec::with_capacity(alloc, BLOCKS)?;
    for _ in 0..BLOCKS {
        blocks.push(Vec::with_capacity(alloc, BLOCK)?)?;
    }
    Ok(blocks)
}

// Adds the samples at `extents` of the bytes at the end.
fn push_samples(
    alloc: Global,
    samples: &mut List<Sample>,
    bytes: &[u8],
    extents: &[Extent],
) -> Result<(), ReadRefusal>
    ensures { OnOk result
        (ReadsSamples (map (payload_of bytes.now) extents.now) samples.old samples.new) }
{
    for extent in extents {
        push_filled(alloc, samples, extent.cut(bytes), u64::from(extent.start))?;
    }
    Ok(())
}
