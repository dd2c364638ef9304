// Rules 10 to 12: what locations and samples refer to, and the samples' values.
ghost use Rattle.std.specs.Prelude.{◌≡◌, ◌<◌, ◌==◌, ◌||◌, length, IfSome};
ghost use Rattle.std.specs.List.{list_all};
ghost use Rattle.pp_model.specs.Rules as rules;
ghost use Rattle.pp_check.specs.Known.{Knows};
ghost use Rattle.pp_check.specs.Whole.{is_whole};

use crate::known::IdSet;
use pp_model::{Line, Location, Profile, Sample};

// Whether the mapping is 0, for none, or there.
fn mapping_refers(p: &Profile, mappings: &IdSet, id: u64) -> bool
    requires { Knows mappings.now (rules.mapping_ids p.now) }
    ensures { result ≡ rules.is_zero_or_in (rules.mapping_ids p.now) id }
{
    id == 0 || mappings.contains(id)
}

// Whether the line's function is 0, for none, or there.
fn line_refers(p: &Profile, functions: &IdSet, line: &Line) -> bool
    requires { Knows functions.now (rules.function_ids p.now) }
    ensures { result ≡ rules.is_zero_or_in (rules.function_ids p.now) line.now.function_id }
{
    line.function_id == 0 || functions.contains(line.function_id)
}

// Whether the functions of the location's lines are 0 or there.
fn lines_refer(p: &Profile, functions: &IdSet, location: &Location) -> bool
    requires { Knows functions.now (rules.function_ids p.now) }
    ensures { result ≡ list_all
        (λ line. rules.is_zero_or_in (rules.function_ids p.now) line.function_id)
        location.now.line }
{
    location
        .line
        .as_slice()
        .iter()
        .all(|line| line_refers(p, functions, line))
}

// Whether the location's mapping and its lines' functions are 0 or there.
fn location_refers(p: &Profile, mappings: &IdSet, functions: &IdSet, location: &Location) -> bool
    requires mappings { Knows mappings.now (rules.mapping_ids p.now) }
    requires functions { Knows functions.now (rules.function_ids p.now) }
    ensures { result ≡ rules.location_refers p.now location.now }
{
    mapping_refers(p, mappings, location.mapping_id) && lines_refer(p, functions, location)
}

/// Rule 10: the least index of a location whose mapping or functions are neither 0 nor there.
pub fn location_fault(p: &Profile, mappings: &IdSet, functions: &IdSet) -> Option<usize>
    requires mappings { Knows mappings.now (rules.mapping_ids p.now) }
    requires functions { Knows functions.now (rules.function_ids p.now) }
    ensures fault { result ≡ rules.location_fault p.now }
    ensures within { IfSome result (λ index. index < length p.now.location) }
{
    p.location.as_slice().iter().position(|location| !location_refers(
        p, mappings, functions, location,
    ))
}

// Whether the location is there.
fn is_location(p: &Profile, locations: &IdSet, id: u64) -> bool
    requires { Knows locations.now (rules.location_ids p.now) }
    ensures { result ≡ rules.stands_in (rules.location_ids p.now) id }
{
    locations.contains(id)
}

// Whether the sample's locations are there.
fn sample_refers(p: &Profile, locations: &IdSet, sample: &Sample) -> bool
    requires { Knows locations.now (rules.location_ids p.now) }
    ensures { result ≡ list_all
        (rules.stands_in (rules.location_ids p.now)) sample.now.location_id }
{
    sample
        .location_id
        .as_slice()
        .iter()
        .all(|id| is_location(p, locations, *id))
}

/// Whether the sample's locations are there, and it has one value per sample type.
pub fn is_whole(p: &Profile, locations: &IdSet, sample: &Sample) -> bool
    requires { Knows locations.now (rules.location_ids p.now) }
    ensures { result ≡ is_whole p.now sample.now }
{
    sample_refers(p, locations, sample) && sample.value.len() == p.sample_type.len()
}

/// Rule 11: the least index of a sample with a location that isn't there.
pub fn sample_fault(p: &Profile, locations: &IdSet) -> Option<usize>
    requires { Knows locations.now (rules.location_ids p.now) }
    ensures fault { result ≡ rules.sample_fault p.now }
    ensures within { IfSome result (λ index. index < length p.now.sample) }
{
    p.sample
        .as_slice()
        .iter()
        .position(|sample| !sample_refers(p, locations, sample))
}

/// Rule 12: the least index of a sample that has not one value per sample type.
pub fn value_fault(p: &Profile) -> Option<usize>
    ensures fault { result ≡ rules.value_fault p.now }
    ensures within { IfSome result (λ index. index < length p.now.sample) }
{
    p.sample
        .as_slice()
        .iter()
        .position(|sample| sample.value.len() != p.sample_type.len())
}
