//! The fields of a profile's samples, written in waves of pieces on the lanes.
ghost use Rattle.std.specs.Prelude.{◌≡◌, ◌++◌, OnOk};
ghost use Rattle.std.specs.List.{AllByRecursion};
ghost use Rattle.pp_tables.specs.Encode.{message_fields, sample_bytes};
ghost use Rattle.pp_tables.specs.Fits.{RowFits};

use crate::spelled::put_messages;
use pp_base::{Memory, Text};
use pp_model::Sample;
use pp_steal::{Piecewise, Resources, run_piecewise};
use std::alloc::Global;
use std::thread::Threads;

// How many samples a wave has. So no more than their fields stand in memory twice.
const WAVE: usize = 32_768;

/// Appends a field for each sample of a profile. Samples are written in pieces of 1,024 on `with.workers` lanes. The
/// bytes do not tell how many there were. One lane needs no pieces.
pub(crate) fn put_samples_on<R: Threads + Sync>(
    with: &Resources<'_, R>,
    out: &mut Text,
    samples: &[Sample],
) -> Result<(), Memory>
    ensures written { OnOk result (out.new ≡ out.old ++ message_fields sample_bytes 2 samples.now) }
    ensures numbers { OnOk result (AllByRecursion RowFits samples.now) }
{
    if with.workers == 1 {
        return put_messages(with.alloc, out, 2, samples);
    }
    for wave in 0..samples.len().div_ceil(WAVE) {
        let start = wave * WAVE;
        let len = (samples.len() - start).min(WAVE);
        put_wave(with, out, &samples[start..start + len])?;
    }
    Ok(())
}

// Appends a field for each sample of the wave.
fn put_wave<R: Threads + Sync>(
    with: &Resources<'_, R>,
    out: &mut Text,
    wave: &[Sample],
) -> Result<(), Memory>
    ensures written { OnOk result (out.new ≡ out.old ++ message_fields sample_bytes 2 wave.now) }
    ensures numbers { OnOk result (AllByRecursion RowFits wave.now) }
{
    let alloc = with.alloc;
    let fields = run_piecewise(with, &Encoding { alloc }, wave)?;
    out.append(fields)
}

// Encoding of samples, which can be done for any part of them.
#[derive(Drop)]
struct Encoding {
    // Where the fields are allocated.
    alloc: Global,
}

impl Piecewise<Sample> for Encoding {
    type Out = Text;

    ghost use Rattle.pp_tables.specs.Pieces.{AreFields};

    ghost right = { λ _ samples fields. AreFields samples fields };

    fn begin(&self, _: usize) -> Result<Text, Memory> {
        Ok(Text::new(self.alloc))
    }

    fn run(&self, samples: &[Sample]) -> Result<Text, Memory> {
        let mut fields = Text::new(self.alloc);
        put_messages(self.alloc, &mut fields, 2, samples)?;
        Ok(fields)
    }

    fn append(&self, mut front: Text, back: Text) -> Result<Text, Memory> {
        front.append(back)?;
        Ok(front)
    }
}
