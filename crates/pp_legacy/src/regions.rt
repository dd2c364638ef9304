//! The regions of code that a text tells of, as mappings and their texts.
ghost use Rattle.std.specs.Prelude.{◌≡◌, ◌<◌, ◌^◌, ◌++◌, option_to_list, IfOk, OnOk};
ghost use Rattle.pp_legacy.specs.Steps.{FindsSeen};
ghost use Rattle.pp_legacy.specs.Regions.{code_in, regions};
ghost use Rattle.pp_legacy.specs.Tables.{mapping_of, numbered_mappings, fixed_texts, texts_of};
ghost use Rattle.pp_legacy.specs.Seen.{region_of, regions_of};

use crate::line::{Region, region_in};
use pp_base::{List, Memory, Text};
use pp_model::Mapping;
use std::alloc::Global;

/// The regions of code that the text tells of, one a line. Lines of another kind are passed over.
pub fn regions_in<'a>(alloc: Global, text: &'a [u8]) -> Result<Vec<Region<'a>>, Memory>
    ensures { IfOk result (λ found. regions_of found.items ≡ regions text.now) }
{
    let mut regions = Vec::new(alloc);
    for line in text.split(|b| *b == b'\n') {
        add_code(&mut regions, line)?;
    }
    Ok(regions)
}

// Adds the region of code of a line that tells of one.
fn add_code<'a>(regions: &mut Vec<Region<'a>>, line: &'a [u8]) -> Result<(), Memory>
    ensures { OnOk result (regions_of regions.new.items ≡ regions_of regions.old.items ++ option_to_list (code_in line.now)) }
{
    if let Some(region) = code_in(line) {
        regions.push(region)?;
    }
    Ok(())
}

// The region of code that a line tells of.
fn code_in(line: &[u8]) -> Option<Region<'_>>
    ensures { FindsSeen region_of result (code_in line.now) }
{
    let region = region_in(line)?;
    if region.is_code() { Some(region) } else { None }
}

/// The mappings of the regions, numbered from 1.
pub fn mappings_of(alloc: Global, regions: &[Region<'_>]) -> Result<List<Mapping>, Memory>
    ensures { IfOk result (λ ms. ms ≡ numbered_mappings (regions_of regions.now)) }
{
    let mut mappings = List::from_vec(Vec::with_capacity(alloc, regions.len())?);
    for (place, region) in regions.iter().enumerate() {
        mappings.push(mapping_of(place as u64, region))?;
    }
    Ok(mappings)
}

fn mapping_of(place: u64, region: &Region<'_>) -> Mapping
    requires { place < 2 ^ 62 }
    ensures { result ≡ mapping_of place (region_of region.now) }
{
    Mapping {
        id: place + 1,
        start: region.start,
        limit: region.limit,
        offset: region.offset,
        file: place as i64 + 5,
        build_id: 0,
        has_functions: false,
        has_filenames: false,
        has_line_numbers: false,
        has_inline_frames: false,
    }
}

/// The texts of the profile: those of the sample types, and the path of each region.
pub fn texts_of(alloc: Global, regions: &[Region<'_>]) -> Result<List<Text>, Memory>
    ensures { IfOk result (λ ts. ts ≡ texts_of (regions_of regions.now)) }
{
    let mut texts = fixed_texts(alloc)?;
    for region in regions {
        texts.push(Text::from_slice(alloc, region.path)?)?;
    }
    Ok(texts)
}

// Text 0 is empty. The others name the sample types.
fn fixed_texts(alloc: Global) -> Result<List<Text>, Memory>
    ensures { IfOk result (λ ts. ts ≡ fixed_texts) }
{
    let mut texts = List::new(alloc);
    texts.push(Text::new(alloc))?;
    texts.push(Text::from_slice(alloc, b"samples")?)?;
    texts.push(Text::from_slice(alloc, b"count")?)?;
    texts.push(Text::from_slice(alloc, b"cpu")?)?;
    texts.push(Text::from_slice(alloc, b"nanoseconds")?)?;
    Ok(texts)
}
