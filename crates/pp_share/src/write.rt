//! A profile's tables in the order in which a walk over its samples meets their entries.
ghost use Rattle.std.specs.Prelude.{◌≡◌, ◌<◌, ◌≤◌, ◌^◌, [], length, IfOk, OnOk};
ghost use Rattle.pp_model.specs.declared.profile.Profile.{Profile};
ghost use Rattle.std.specs.List.{AllByRecursion};
ghost use Rattle.pp_share.specs.Walked.{first_id, mappings_met, with_mappings, functions_met, with_functions, with_texts, IsWalked, IsNamed};
ghost use Rattle.pp_share.specs.Hashes.{with_new_samples};
ghost use Rattle.pp_share.specs.Share.{NamesLocations};
ghost use Rattle.pp_share.specs.Renumbered.{new_ids};
ghost use Rattle.pp_share.specs.Walk.{met_after, first_text_ids, table_text_ids, header_text_ids};

use crate::gather::gather;
use crate::ids::Ids;
use crate::lanes::{Locator, place_samples};
use crate::met::Met;
use crate::renumbering::{Renumbering, renumber_tables};
use crate::walk::{Functions, Mappings, Refers, Texts, meet_each};
use pp_base::{List, Memory};
use pp_keys::HashKeys;
use pp_model::{Function, Location, Mapping, Profile, ValueType};
use std::alloc::Global;
use std::mem;

/// The profile, whose samples still get new ids, with what these name, in the order in which a walk over them meets it:
/// mappings after the first one, locations, functions, and texts after text 0. Ids are places plus 1, and all else is
/// left out. The samples name locations of the table, and `locator` writes most of them.
pub fn write<L: Locator>(
    alloc: Global,
    hash_keys: HashKeys,
    locator: &L,
    mut p: Profile,
    samples: &Renumbering,
) -> Result<Profile, Memory>
    requires can { L.can locator.now }
    requires named { AllByRecursion (NamesLocations (length p.location)) (with_new_samples (new_ids samples.now) p).sample }
    ensures { IfOk result (IsWalked (with_new_samples (new_ids samples.now) p)) }
{
    let mut texts = first_texts(alloc, hash_keys, &p)?;
    let locations = keep_locations(alloc, hash_keys, locator, &mut p, samples, &mut texts)?;
    write_named(alloc, hash_keys, p, texts, locations)
}

// The profile, of which the samples and the locations are written, and name these texts and locations.
fn write_named(
    alloc: Global,
    hash_keys: HashKeys,
    mut p: Profile,
    mut texts: Met,
    locations: Met,
) -> Result<Profile, Memory>
    ensures { (whole : Profile) → IsNamed whole p texts locations → IfOk result (IsWalked whole) }
{
    let (mappings, functions) = keep_entries(alloc, hash_keys, &mut p, &mut texts)?;
    let by = Renumbering {
        text: Ids::Listed(texts),
        mapping: Ids::Listed(mappings),
        function: Ids::Listed(functions),
        location: Ids::Listed(locations),
    };
    renumber_tables(&mut p, &by);
    mem::drop(by);
    Ok(p)
}

// Keeps the mappings and functions of the locations, and the texts of all, and gives the ids of the former in order.
fn keep_entries(
    alloc: Global,
    hash_keys: HashKeys,
    p: &mut Profile,
    texts: &mut Met,
) -> Result<(Met, Met), Memory>
    ensures mappings { IfOk result (λ met. met.0 ≡ mappings_met p.old) }
    ensures functions { IfOk result (λ met. met.1 ≡ functions_met (with_mappings p.old)) }
    ensures met { OnOk result (texts.new
        ≡ met_after texts.old (table_text_ids (with_functions (with_mappings p.old)))) }
    ensures few { OnOk result (length texts.new < 2 ^ 62) }
    ensures kept { OnOk result (p.new ≡ with_texts texts.new (with_functions (with_mappings p.old))) }
{
    let mappings = keep_mappings(alloc, hash_keys, p)?;
    let functions = keep_functions(alloc, hash_keys, p)?;
    keep_texts(alloc, p, texts)?;
    Ok((mappings, functions))
}

// Meets the texts that are numbered before those of samples.
fn first_texts(alloc: Global, hash_keys: HashKeys, p: &Profile) -> Result<Met, Memory>
    ensures { IfOk result (λ met. met ≡ met_after [] (first_text_ids p.now)) }
{
    let mut met = Met::new(alloc, hash_keys, p.text.len().saturating_add(1))?;
    met.meet(1)?;
    meet_each::<Texts, ValueType>(p.sample_type.as_slice(), &mut met)?;
    Ok(met)
}

// Keeps the locations of the samples, which get their new ids, and gives the ids of what is kept in order.
fn keep_locations<L: Locator>(
    alloc: Global,
    hash_keys: HashKeys,
    locator: &L,
    p: &mut Profile,
    by: &Renumbering,
    texts: &mut Met,
) -> Result<Met, Memory>
    requires can { L.can locator.now }
    requires named { AllByRecursion (NamesLocations (length p.old.location)) (with_new_samples (new_ids by.now) p.old).sample }
    requires first { texts.old ≡ met_after [] (first_text_ids p.old) }
    ensures { IfOk result (IsNamed (with_new_samples (new_ids by.now) p.old) p.new texts.new) }
{
    let mut met = Met::new(alloc, hash_keys, p.location.len().saturating_add(1))?;
    place_samples(locator, p, by, &mut met, texts)?;
    let locations = mem::replace(&mut p.location, List::new(alloc));
    p.location = gather(alloc, locations, met.as_slice())?;
    Ok(met)
}

// Keeps the first mapping and those of the locations, and gives their ids in order.
fn keep_mappings(alloc: Global, hash_keys: HashKeys, p: &mut Profile) -> Result<Met, Memory>
    ensures met { IfOk result (λ met. met ≡ mappings_met p.old) }
    ensures kept { OnOk result (p.new ≡ with_mappings p.old) }
{
    let mut met = Met::new(alloc, hash_keys, p.mapping.len().saturating_add(1))?;
    met.meet(first_id(p))?;
    meet_each::<Mappings, Location>(p.location.as_slice(), &mut met)?;
    let mappings = mem::replace(&mut p.mapping, List::new(alloc));
    p.mapping = gather(alloc, mappings, met.as_slice())?;
    Ok(met)
}

// The id of the first mapping, and 0 where there is none.
fn first_id(p: &Profile) -> u64
    ensures { result ≡ first_id p.now }
{
    if p.mapping.len() == 0 { 0 } else { 1 }
}

// Keeps the functions of the locations, and gives their ids in order.
fn keep_functions(alloc: Global, hash_keys: HashKeys, p: &mut Profile) -> Result<Met, Memory>
    ensures met { IfOk result (λ met. met ≡ functions_met p.old) }
    ensures kept { OnOk result (p.new ≡ with_functions p.old) }
{
    let mut met = Met::new(alloc, hash_keys, p.function.len().saturating_add(1))?;
    meet_each::<Functions, Location>(p.location.as_slice(), &mut met)?;
    let functions = mem::replace(&mut p.function, List::new(alloc));
    p.function = gather(alloc, functions, met.as_slice())?;
    Ok(met)
}

// Meets the texts of the tables too, and keeps those that were met.
fn keep_texts(alloc: Global, p: &mut Profile, met: &mut Met) -> Result<(), Memory>
    ensures met { OnOk result (met.new ≡ met_after met.old (table_text_ids p.old)) }
    ensures few { OnOk result (length met.new < 2 ^ 62) }
    ensures kept { OnOk result (p.new ≡ with_texts met.new p.old) }
{
    meet_tables(p, met)?;
    let texts = mem::replace(&mut p.text, List::new(alloc));
    p.text = gather(alloc, texts, met.as_slice())?;
    Ok(())
}

// Meets the texts that are numbered behind those of samples.
fn meet_tables(p: &Profile, met: &mut Met) -> Result<(), Memory>
    ensures { OnOk result (met.new ≡ met_after met.old (table_text_ids p.now)) }
{
    meet_each::<Texts, Mapping>(p.mapping.as_slice(), met)?;
    meet_each::<Texts, Function>(p.function.as_slice(), met)?;
    meet_header(p, met)
}

// Meets the texts that the header names after its types.
fn meet_header(p: &Profile, met: &mut Met) -> Result<(), Memory>
    ensures { OnOk result (met.new ≡ met_after met.old (header_text_ids p.now)) }
{
    <i64 as Refers<Texts>>::meet(&p.drop_frames, met)?;
    <i64 as Refers<Texts>>::meet(&p.keep_frames, met)?;
    <ValueType as Refers<Texts>>::meet(&p.period_type, met)?;
    meet_each::<Texts, i64>(p.comment.as_slice(), met)?;
    <i64 as Refers<Texts>>::meet(&p.default_sample_type, met)?;
    <i64 as Refers<Texts>>::meet(&p.doc_url, met)
}
