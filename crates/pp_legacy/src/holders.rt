//! Which mapping holds an address.
//!
//! Mappings may overlap, and the first one that holds an address counts. So each mapping, in order, takes out the
//! addresses that it holds of a sorted table of those that no mapping has taken yet: each address is taken out once.
ghost use Rattle.std.specs.Prelude.{◌≡◌, ◌≢◌, ◌+◌, ◌<◌, ◌^◌, length, map, AllPairs, IfOk, OnSome};
ghost use Rattle.std.specs.BTreeMap.{btree_map_len};
ghost use Rattle.pp_legacy.specs.Free.{HasPlaces, IsLeastFrom, TakesAddress};
ghost use Rattle.pp_legacy.specs.Tables.{holder_of, numbered_location, numbered_locations};

use pp_base::{List, Memory};
use pp_model::{Location, Mapping};
use std::alloc::Global;
use std::collections::BTreeMap;

/// The locations of the addresses, each in the first mapping that holds it.
pub fn locations_of(
    alloc: Global,
    mappings: &[Mapping],
    addresses: &[u64],
) -> Result<List<Location>, Memory>
    requires { AllPairs (λ a b. a ≢ b) addresses.now }
    ensures { IfOk result (λ ls. ls ≡ numbered_locations mappings.now addresses.now) }
{
    let holders = holders_of(alloc, mappings, addresses)?;
    let mut locations = List::from_vec(Vec::with_capacity(alloc, addresses.len())?);
    for (place, address) in addresses.iter().enumerate() {
        locations.push(location_at(alloc, place as u64, holders[place], *address))?;
    }
    Ok(locations)
}

// The location of that place, whose id is the place plus 1.
fn location_at(alloc: Global, place: u64, mapping_id: u64, address: u64) -> Location
    requires { place < 2 ^ 63 }
    ensures { result ≡ numbered_location place mapping_id address }
{
    Location {
        id: place + 1,
        mapping_id,
        address,
        line: List::new(alloc),
        folded: false,
    }
}

// For each address the id of the first mapping that holds it, and 0 where none does.
fn holders_of(alloc: Global, mappings: &[Mapping], addresses: &[u64]) -> Result<Vec<u64>, Memory>
    requires { AllPairs (λ a b. a ≢ b) addresses.now }
    ensures { IfOk result (λ ids. ids.items ≡ map (holder_of mappings.now) addresses.now) }
{
    let mut free = places_of(alloc, addresses)?;
    let mut holders = vec![in alloc; 0; addresses.len()]?;
    for mapping in mappings {
        while let Some(place) = take_held(&mut free, mapping) {
            holders[place] = mapping.id;
        }
    }
    Ok(holders)
}

// The place of each address.
fn places_of(alloc: Global, addresses: &[u64]) -> Result<BTreeMap<u64, usize>, Memory>
    requires { AllPairs (λ a b. a ≢ b) addresses.now }
    ensures { IfOk result (λ free. HasPlaces free addresses.now (length addresses.now)) }
{
    let mut free = BTreeMap::new(alloc);
    for (place, address) in addresses.iter().enumerate() {
        free.insert(*address, place)?;
    }
    Ok(free)
}

// Takes out the least free address that the mapping holds, and answers its place.
fn take_held(free: &mut BTreeMap<u64, usize>, mapping: &Mapping) -> Option<usize>
    ensures taken { TakesAddress mapping.now free.old free.new result }
    ensures fewer { OnSome result (btree_map_len free.new + 1 ≡ btree_map_len free.old) }
{
    let address = least_from(free, mapping.start)?;
    if address < mapping.limit {
        free.remove(&address)
    } else {
        None
    }
}

// The least free address from a number on.
fn least_from(free: &BTreeMap<u64, usize>, from: u64) -> Option<u64>
    ensures { IsLeastFrom free.now from result }
{
    let (address, _) = free.range(from..).next()?;
    Some(*address)
}
