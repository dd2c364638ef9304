//! Copies of profiles.
ghost use Rattle.std.specs.Prelude.{◌≡◌, IfOk};

use pp_base::{List, Memory, Text};
use pp_model::{Compact, Location, Profile, Sample, Valid};
use std::alloc::Global;

/// A copy of the profile: each table, entry by entry, and the header. Nothing is asked of it, and nothing of it is
/// checked. `Err` is want of memory.
pub fn copy_profile(alloc: Global, p: &Profile) -> Result<Profile, Memory>
    ensures { IfOk result (λ copy. copy ≡ p.now) }
{
    Ok(Profile {
        sample_type: same_items(alloc, p.sample_type.as_slice())?,
        sample: same_samples(alloc, p.sample.as_slice())?,
        mapping: same_items(alloc, p.mapping.as_slice())?,
        location: same_locations(alloc, p.location.as_slice())?,
        function: same_items(alloc, p.function.as_slice())?,
        text: same_texts(alloc, p.text.as_slice())?,
        drop_frames: p.drop_frames,
        keep_frames: p.keep_frames,
        time_nanos: p.time_nanos,
        duration_nanos: p.duration_nanos,
        period_type: p.period_type,
        period: p.period,
        comment: same_items(alloc, p.comment.as_slice())?,
        default_sample_type: p.default_sample_type,
        doc_url: p.doc_url,
    })
}

/// A copy of the valid profile. No table rule is tried again. `Err` is want of memory.
pub fn copy_valid(alloc: Global, p: &Valid) -> Result<Valid, Memory>
    ensures { IfOk result (λ copy. copy ≡ p.now) }
{
    let copy = copy_profile(alloc, p.get())?;
    Ok(Valid::claim(copy))
}

/// A copy of the compact profile. `Err` is want of memory.
pub fn copy_compact(alloc: Global, p: &Compact) -> Result<Compact, Memory>
    ensures { IfOk result (λ copy. copy ≡ p.now) }
{
    let copy = copy_valid(alloc, p.valid())?;
    Ok(Compact::claim(copy))
}

fn same_items<T: Copy>(alloc: Global, items: &[T]) -> Result<List<T>, Memory>
    ensures { IfOk result (λ list. list ≡ items.now) }
{
    let mut list = List::new(alloc);
    list.extend(items)?;
    Ok(list)
}

fn same_samples(alloc: Global, samples: &[Sample]) -> Result<List<Sample>, Memory>
    ensures { IfOk result (λ list. list ≡ samples.now) }
{
    let mut list = List::from_vec(Vec::with_capacity(alloc, samples.len())?);
    for sample in samples {
        let copy = same_sample(alloc, sample)?;
        list.push(copy)?;
    }
    Ok(list)
}

fn same_sample(alloc: Global, sample: &Sample) -> Result<Sample, Memory>
    ensures { IfOk result (λ copy. copy ≡ sample.now) }
{
    Ok(Sample {
        location_id: same_items(alloc, sample.location_id.as_slice())?,
        value: same_items(alloc, sample.value.as_slice())?,
        label: same_items(alloc, sample.label.as_slice())?,
    })
}

fn same_locations(alloc: Global, locations: &[Location]) -> Result<List<Location>, Memory>
    ensures { IfOk result (λ list. list ≡ locations.now) }
{
    let mut list = List::from_vec(Vec::with_capacity(alloc, locations.len())?);
    for location in locations {
        let copy = same_location(alloc, location)?;
        list.push(copy)?;
    }
    Ok(list)
}

fn same_location(alloc: Global, location: &Location) -> Result<Location, Memory>
    ensures { IfOk result (λ copy. copy ≡ location.now) }
{
    Ok(Location {
        id: location.id,
        mapping_id: location.mapping_id,
        address: location.address,
        line: same_items(alloc, location.line.as_slice())?,
        folded: location.folded,
    })
}

fn same_texts(alloc: Global, texts: &[Text]) -> Result<List<Text>, Memory>
    ensures { IfOk result (λ list. list ≡ texts.now) }
{
    let mut list = List::from_vec(Vec::with_capacity(alloc, texts.len())?);
    for text in texts {
        let copy = Text::from_slice(alloc, text.as_slice())?;
        list.push(copy)?;
    }
    Ok(list)
}
