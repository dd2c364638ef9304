//! A large profile that is made, so that the program can be tried without a file.
ghost use Rattle.std.specs.Prelude.{◌≡◌, ◌<◌, ◌≤◌, map, IfOk};
ghost use Rattle.std.specs.List.{range_with_len};
ghost use Rattle.pp_load.specs.Generator.{made, made_sample, made_function, made_location, made_texts, generator_texts, ids_down, generated};

use pp_base::{List, Memory, Text};
use pp_keys::HashKeys;
use pp_merge::merge_alone;
use pp_model::{Function, Label, Line, Location, Profile, Sample, Valid, ValueType};
use pp_tables::write_profile;
use std::alloc::Global;

/// The bytes of a profile with `samples` samples, from 1 to 1,000,000, of the types samples/count and cpu/nanoseconds.
/// Sample i goes from main through fn0, fn1 and so on to fnd, where d is i modulo 8. Its values are 1 and (d + 1) *
/// 1000, and a number label `id` has the value i.
pub fn gen_profile(alloc: Global, samples: u32) -> Result<Text, Memory>
    requires some { 1 ≤ samples }
    requires few { samples ≤ 1000000 }
    ensures { IfOk result (λ bytes. bytes ≡ generated samples) }
{
    let profile = made(alloc, samples)?;
    let merged = merge_alone(alloc, HashKeys::fixed(), Valid::claim(profile))?;
    write_profile(alloc, merged.valid())
}

// The profile with `samples` samples, as it is before it is merged alone.
fn made(alloc: Global, samples: u32) -> Result<Profile, Memory>
    ensures { IfOk result (λ p. p ≡ made samples) }
{
    let count = ValueType { kind: 1, unit: 2 };
    let time = ValueType { kind: 3, unit: 4 };
    Ok(Profile {
        sample_type: List::from_vec([count, time].to_vec(alloc)?),
        sample: made_samples(alloc, samples)?,
        mapping: List::new(alloc),
        location: made_locations(alloc)?,
        function: made_functions(alloc)?,
        text: made_texts(alloc)?,
        drop_frames: 0,
        keep_frames: 0,
        time_nanos: 0,
        duration_nanos: 0,
        period_type: ValueType { kind: 0, unit: 0 },
        period: 0,
        comment: List::new(alloc),
        default_sample_type: 0,
        doc_url: 0,
    })
}

// The texts. Text 5 is the name of the label, text 6 the file of the functions, and those from 7 on are their names.
fn made_texts(alloc: Global) -> Result<List<Text>, Memory>
    ensures { IfOk result (λ texts. texts ≡ made_texts) }
{
    let mut texts = fixed_texts(alloc)?;
    for number in 0..8u8 {
        texts.push(Text::from_slice(alloc, &[b'f', b'n', number + b'0'])?)?;
    }
    Ok(texts)
}

fn fixed_texts(alloc: Global) -> Result<List<Text>, Memory>
    ensures { IfOk result (λ texts. texts ≡ generator_texts) }
{
    let mut texts = List::new(alloc);
    texts.push(Text::new(alloc))?;
    texts.push(Text::from_slice(alloc, b"samples")?)?;
    texts.push(Text::from_slice(alloc, b"count")?)?;
    texts.push(Text::from_slice(alloc, b"cpu")?)?;
    texts.push(Text::from_slice(alloc, b"nanoseconds")?)?;
    texts.push(Text::from_slice(alloc, b"id")?)?;
    texts.push(Text::from_slice(alloc, b"gen.c")?)?;
    texts.push(Text::from_slice(alloc, b"main")?)?;
    Ok(texts)
}

fn made_functions(alloc: Global) -> Result<List<Function>, Memory>
    ensures { IfOk result (λ functions. functions ≡ map made_function (range_with_len 0 9)) }
{
    let mut functions = List::new(alloc);
    for place in 0..9u64 {
        functions.push(made_function(place))?;
    }
    Ok(functions)
}

fn made_function(place: u64) -> Function
    requires { place < 9 }
    ensures { result ≡ made_function place }
{
    Function {
        id: place + 1,
        name: place as i64 + 7,
        system_name: 0,
        filename: 6,
        start_line: 0,
    }
}

fn made_locations(alloc: Global) -> Result<List<Location>, Memory>
    ensures { IfOk result (λ locations. locations ≡ map made_location (range_with_len 0 9)) }
{
    let mut locations = List::new(alloc);
    for place in 0..9u64 {
        locations.push(made_location(alloc, place)?)?;
    }
    Ok(locations)
}

fn made_location(alloc: Global, place: u64) -> Result<Location, Memory>
    requires { place < 9 }
    ensures { IfOk result (λ location. location ≡ made_location place) }
{
    let line = Line {
        function_id: place + 1,
        line: place as i64 + 1,
        column: 0,
    };
    Ok(Location {
        id: place + 1,
        mapping_id: 0,
        address: 0,
        line: List::from_vec([line].to_vec(alloc)?),
        folded: false,
    })
}

fn made_samples(alloc: Global, samples: u32) -> Result<List<Sample>, Memory>
    ensures { IfOk result (λ list. list ≡ map made_sample (range_with_len 0 samples)) }
{
    let mut list = List::from_vec(Vec::with_capacity(alloc, samples as usize)?);
    for number in 0..samples {
        list.push(made_sample(alloc, number)?)?;
    }
    Ok(list)
}

fn made_sample(alloc: Global, number: u32) -> Result<Sample, Memory>
    ensures { IfOk result (λ sample. sample ≡ made_sample number) }
{
    let depth = number % 8;
    let label = Label {
        key: 5,
        text: 0,
        num: i64::from(number),
        num_unit: 0,
    };
    Ok(Sample {
        location_id: ids_down(alloc, u64::from(depth) + 2)?,
        value: List::from_vec([1, (i64::from(depth) + 1) * 1000].to_vec(alloc)?),
        label: List::from_vec([label].to_vec(alloc)?),
    })
}

// The ids from this one down to 1.
fn ids_down(alloc: Global, first: u64) -> Result<List<u64>, Memory>
    requires { first < 16 }
    ensures { IfOk result (λ ids. ids ≡ ids_down first) }
{
    let mut ids = List::from_vec(Vec::with_capacity(alloc, first as usize)?);
    let mut id = first;
    while id > 0 {
        ids.push(id)?;
        id -= 1;
    }
    Ok(ids)
}
