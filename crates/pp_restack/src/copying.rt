//! The tables of a profile once more.
ghost use Rattle.std.specs.Prelude.{◌≡◌, ◌<◌, ◌^◌, [], IfOk};
ghost use Rattle.std.specs.List.{AllByRecursion};
ghost use Rattle.pp_restack.specs.Places.{with_cut};

use pp_base::{List, Memory, Text};
use pp_model::{Label, Location, Mapping, Profile, Sample};
use std::alloc::Global;

/// The profile with these samples and locations, and without the patterns of functions that are dropped or that stay.
pub fn with_cut(
    alloc: Global,
    p: &Profile,
    sample: List<Sample>,
    location: List<Location>,
) -> Result<Profile, Memory>
    ensures same { IfOk result (λ q. q ≡ with_cut p.now sample location) }
    ensures starts { IfOk result (λ q. AllByRecursion (λ m. m.start < 2 ^ 64) p.now.mapping) }
{
    Ok(Profile {
        sample_type: same_items(alloc, p.sample_type.as_slice())?,
        sample,
        mapping: same_mappings(alloc, p.mapping.as_slice())?,
        location,
        function: same_items(alloc, p.function.as_slice())?,
        text: same_texts(alloc, p.text.as_slice())?,
        drop_frames: 0,
        keep_frames: 0,
        time_nanos: p.time_nanos,
        duration_nanos: p.duration_nanos,
        period_type: p.period_type,
        period: p.period,
        comment: same_items(alloc, p.comment.as_slice())?,
        default_sample_type: p.default_sample_type,
        doc_url: p.doc_url,
    })
}

/// The sample with these locations and labels.
pub fn sample_with(
    alloc: Global,
    s: &Sample,
    ids: &[u64],
    labels: &[Label],
) -> Result<Sample, Memory>
    ensures { IfOk result (λ sample.
        sample ≡ record s.now { location_id = ids.now; label = labels.now }) }
{
    Ok(Sample {
        location_id: same_items(alloc, ids)?,
        value: same_items(alloc, s.value.as_slice())?,
        label: same_items(alloc, labels)?,
    })
}

/// A copy of the items, in a list of just their size.
pub fn same_items<T: Copy>(alloc: Global, items: &[T]) -> Result<List<T>, Memory>
    ensures { IfOk result (λ list. list ≡ items.now) }
{
    let mut list = no_items(alloc, items.len())?;
    list.extend(items)?;
    Ok(list)
}

/// No items, with room for `room`.
pub fn no_items<T>(alloc: Global, room: usize) -> Result<List<T>, Memory>
    ensures { IfOk result (λ items. items ≡ []) }
{
    Ok(List::from_vec(Vec::with_capacity(alloc, room)?))
}

// One by one, since only a number that is read is known to have 64 bits.
fn same_mappings(alloc: Global, mappings: &[Mapping]) -> Result<List<Mapping>, Memory>
    ensures same { IfOk result (λ list. list ≡ mappings.now) }
    ensures starts { IfOk result (λ list. AllByRecursion (λ m. m.start < 2 ^ 64) mappings.now) }
{
    let mut list = no_items(alloc, mappings.len())?;
    for m in mappings {
        let _start = m.start;
        list.push(*m)?;
    }
    Ok(list)
}

fn same_texts(alloc: Global, texts: &[Text]) -> Result<List<Text>, Memory>
    ensures { IfOk result (λ list. list ≡ texts.now) }
{
    let mut list = no_items(alloc, texts.len())?;
    for text in texts {
        let copy = Text::from_slice(alloc, text.as_slice())?;
        list.push(copy)?;
    }
    Ok(list)
}

/// A copy of the locations.
pub fn same_locations(alloc: Global, locations: &[Location]) -> Result<List<Location>, Memory>
    ensures { IfOk result (λ list. list ≡ locations.now) }
{
    let mut list = no_items(alloc, locations.len())?;
    for location in locations {
        let copy = same_location(alloc, location)?;
        list.push(copy)?;
    }
    Ok(list)
}

fn same_location(alloc: Global, location: &Location) -> Result<Location, Memory>
    ensures { IfOk result (λ copy. copy ≡ location.now) }
{
    Ok(Location {
        id: location.id,
        mapping_id: location.mapping_id,
        address: location.address,
        line: same_items(alloc, location.line.as_slice())?,
        folded: location.folded,
    })
}
