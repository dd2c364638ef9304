// Labels that a builder is given, and labels that are set on all samples of a profile.
ghost use Rattle.std.specs.Prelude.{◌≡◌};
ghost use Rattle.pp_build.specs.Adding.{no_entries};

use pp_base::Memory;
use pp_build::{Builder, LabelValue, SampleLabel};
use pp_edit::{has_label, set_label};
use pp_model::{Profile, Valid};
use std::alloc::Global;
use std::mem;
use std::test::Fail;

#[test]
fn samples_have_the_hour(rt: HostRuntime) -> Result<(), Fail> {
    let alloc = rt.alloc();
    let hour = allocations(alloc)?;
    let hour = set_label(alloc, hour, b"hour", b"2")?;
    let found = [b"2", b"1"].map(|text| samples_of(hour.get(), text));
    mem::drop(hour);
    assert_eq!(rt; found, [2, 0]);
    Ok(())
}

fn allocations(alloc: Global) -> Result<Valid, Memory> {
    let mut b = Builder::new(alloc)?;
    match record(&mut b) {
        Ok(()) => Ok(b.finish()),
        Err(Memory) => {
            mem::drop(b);
            Err(Memory)
        }
    }
}

// Two samples of a stack, one of them with a number label.
fn record(b: &mut Builder) -> Result<(), Memory>
    requires { b.old ≡ no_entries }
{
    b.column(b"alloc_space", b"bytes")?;
    let parse = b.frame(b"json.parse", b"parse.go", 7)?;
    let bytes = b.text(b"bytes")?;
    let block = SampleLabel {
        key: bytes,
        value: LabelValue::Number(4096, bytes),
    };
    b.sample(&[parse], &[4096], &[block])?;
    b.sample(&[parse], &[1024], &[])
}

// How many samples have the label of the hour.
fn samples_of(p: &Profile, hour: &[u8]) -> usize {
    let samples = p.sample.as_slice().iter();
    let own = samples.filter(|sample| has_label(p, sample, b"hour", hour));
    own.count()
}
