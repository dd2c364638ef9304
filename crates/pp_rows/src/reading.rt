// What is read of the bytes of a profile, before any table is checked.

use pp_model::{Profile, Sample};
use pp_tables::{ReadRefusal, read_profile};
use pp_wire::{WireFault, WireKind};
use std::test::Fail;

// Bytes, and their first fault, which is at 0.
static FAULTS: [(&[u8], WireKind); 5] = [
    (b"\x0a\x05\x08\x01", WireKind::Truncated),
    (b"\x00", WireKind::BadTag),
    (b"\x0b", WireKind::BadKind),
    (b"\x0d\x00\x00\x00\x00", WireKind::WrongKind),
    (
        b"\x48\xff\xff\xff\xff\xff\xff\xff\xff\xff\xff\x01",
        WireKind::LongVarint,
    ),
];

#[test]
fn faults_are_answered(rt: HostRuntime) {
    for (bytes, kind) in FAULTS {
        let fault = WireFault { kind, at: 0 };
        let refusal = read_profile(rt.alloc(), bytes).err();
        assert!(rt; refusal == Some(ReadRefusal::Wire(fault)), "{kind:?}");
    }
}

#[test]
fn a_long_varint_is_a_negative_number(rt: HostRuntime) -> Result<(), Fail> {
    let bytes = b"\x48\xff\xff\xff\xff\xff\xff\xff\xff\xff\x7f";
    let time_nanos = read_profile(rt.alloc(), bytes)?.time_nanos;
    assert_eq!(rt; time_nanos, -1);
    Ok(())
}

// One sample with the locations 1 and 2: packed, one by one, and both.
static TWO_LOCATIONS: [&[u8]; 3] = [
    b"\x12\x04\x0a\x02\x01\x02",
    b"\x12\x04\x08\x01\x08\x02",
    b"\x12\x05\x08\x01\x0a\x01\x02",
];

#[test]
fn packed_and_unpacked_are_equal(rt: HostRuntime) -> Result<(), Fail> {
    for bytes in &TWO_LOCATIONS {
        let profile = read_profile(rt.alloc(), bytes)?;
        assert!(rt; is_of_two_locations(&profile), "{bytes:?}");
    }
    Ok(())
}

fn is_of_two_locations(profile: &Profile) -> bool {
    match profile.sample.as_slice() {
        [sample] => is_sample_of_two(sample),
        _ => false,
    }
}

fn is_sample_of_two(sample: &Sample) -> bool {
    sample.location_id.as_slice() == [1, 2].as_slice()
        && sample.value.len() == 0
        && sample.label.len() == 0
}
