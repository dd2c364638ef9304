//! The reports traces and tags, which go over the samples one by one.
use anyhow::Result;
use pp_base::{Memory, OpenGate, Text};
use pp_count::Survey;
use pp_samples::{write_tags, write_traces};
use pp_units::{Head, pick_unit};
use std::alloc::Global;
use std::thread::Threads;

/// Appends each sample with its label and its stack, and then the values of the label.
pub fn put_samples<R: Threads + Sync>(
    rt: &R,
    alloc: Global,
    survey: &Survey<'_>,
    out: &mut Text,
) -> Result<()> {
    let head = head(alloc, survey)?;
    out.extend(b"\n\n")?;
    write_traces(rt, alloc, survey, &head, &OpenGate, out)?;
    out.extend(b"\n")?;
    write_tags(alloc, survey, &head, out)?;
    Ok(())
}

// What stands above the samples: no file, since the profile has no mapping.
fn head(alloc: Global, survey: &Survey<'_>) -> Result<Head, Memory> {
    let total = survey.counted.total;
    Ok(Head {
        file: Text::new(alloc),
        kind: Text::from_slice(alloc, b"samples")?,
        duration: survey.l.profile.get().duration_nanos,
        total,
        unit: pick_unit(alloc, total, b"count")?,
    })
}
