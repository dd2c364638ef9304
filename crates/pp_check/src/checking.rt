// The table rules, in the order in which they decide.
ghost use Rattle.std.specs.Prelude.{◌≡◌, ◌++◌, IfOk};
ghost use Rattle.pp_check.specs.FirstFault.{first_fault, text_faults, mapping_faults, function_faults, location_faults, reference_faults, IsIndexed};
ghost use Rattle.pp_check.specs.Finds.{first_fault_of, AnswersFault, FindsFault};
ghost use Rattle.pp_check.specs.Checks.{Checks};
ghost use Rattle.pp_check.specs.Known.{Knows};
ghost use Rattle.pp_check.specs.Sound.{HasSoundSamples};
ghost use Rattle.pp_model.specs.Rules.{mapping_ids, function_ids, location_ids};

use crate::fault::{CheckRefusal, Table, TableFault, refuse};
use crate::ids::known_ids;
use crate::known::IdSet;
use crate::references::{location_fault, sample_fault, value_fault};
use crate::samples::Soundness;
use crate::texts::{
    comment_text_fault, function_text_fault, header_text_fault, mapping_text_fault,
    sample_text_fault, text_zero_fault, type_text_fault, untyped_fault,
};
use pp_base::Memory;
use pp_keys::HashKeys;
use pp_model::{Profile, Valid};
use std::alloc::Global;

/// The first table rule that fails, with its table and the least index there. The least rule decides; rule 2 tries its
/// tables in the order header, comments, sample types, samples, mappings, functions. `Err` is want of memory.
pub fn first_fault(alloc: Global, p: &Profile) -> Result<Option<TableFault>, Memory>
    requires { IsIndexed p.now }
    ensures { IfOk result (λ fault. fault ≡ first_fault p.now) }
{
    match try_rules(alloc, HashKeys::fixed(), p, Soundness::Unasked) {
        Ok(()) => Ok(None),
        Err(CheckRefusal::Fault(fault)) => Ok(Some(fault)),
        Err(CheckRefusal::Memory) => Err(Memory),
    }
}

/// The profile `p`, if no table rule fails. Else the fault that `first_fault` tells, or want of memory, and `p` is spent.
pub fn check(alloc: Global, p: Profile) -> Result<Valid, CheckRefusal>
    requires { IsIndexed p }
    ensures { Checks p result }
{
    try_rules(alloc, HashKeys::fixed(), &p, Soundness::Unasked)?;
    Ok(Valid::claim(p))
}

/// Tries all rules, in their order. Sound samples and the ids of their locations are left out.
pub(crate) fn try_rules(
    alloc: Global,
    keys: HashKeys,
    p: &Profile,
    samples: Soundness,
) -> Result<(), CheckRefusal>
    requires indexed { IsIndexed p.now }
    requires sound { samples ≡ Soundness.Sound → HasSoundSamples p.now }
    ensures { AnswersFault (first_fault p.now) result }
{
    try_texts(p, samples)?;
    let mappings = known_mappings(alloc, keys, p)?;
    let functions = known_functions(alloc, keys, p)?;
    try_locations(alloc, keys, p, &mappings, &functions, samples)
}

// Tries rules 1 to 3. Sound samples are left out.
fn try_texts(p: &Profile, samples: Soundness) -> Result<(), TableFault>
    requires indexed { IsIndexed p.now }
    requires sound { samples ≡ Soundness.Sound → HasSoundSamples p.now }
    ensures { FindsFault (first_fault_of (text_faults p.now)) result }
{
    refuse(1, Table::Texts, text_zero_fault(p))?;
    refuse(2, Table::Header, header_text_fault(p))?;
    refuse(2, Table::Comments, comment_text_fault(p))?;
    refuse(2, Table::SampleTypes, type_text_fault(p))?;
    refuse(2, Table::Samples, sample_text_fault(p, samples))?;
    refuse(2, Table::Mappings, mapping_text_fault(p))?;
    refuse(2, Table::Functions, function_text_fault(p))?;
    refuse(3, Table::SampleTypes, untyped_fault(p))
}

// Tries rules 4 and 5. Gives the ids of the mappings.
fn known_mappings(alloc: Global, keys: HashKeys, p: &Profile) -> Result<IdSet, CheckRefusal>
    requires { IsIndexed p.now }
    ensures faults { AnswersFault (first_fault_of (mapping_faults p.now)) result }
    ensures known { IfOk result (λ known. Knows known (mapping_ids p.now)) }
{
    known_ids(alloc, keys, 4, Table::Mappings, p.mapping.as_slice())
}

// Tries rules 6 and 7. Gives the ids of the functions.
fn known_functions(alloc: Global, keys: HashKeys, p: &Profile) -> Result<IdSet, CheckRefusal>
    requires { IsIndexed p.now }
    ensures faults { AnswersFault (first_fault_of (function_faults p.now)) result }
    ensures known { IfOk result (λ known. Knows known (function_ids p.now)) }
{
    known_ids(alloc, keys, 6, Table::Functions, p.function.as_slice())
}

// Tries rules 8 to 12. Where the samples are sound, only rule 10 is left.
fn try_locations(
    alloc: Global,
    keys: HashKeys,
    p: &Profile,
    mappings: &IdSet,
    functions: &IdSet,
    samples: Soundness,
) -> Result<(), CheckRefusal>
    requires indexed { IsIndexed p.now }
    requires mappings { Knows mappings.now (mapping_ids p.now) }
    requires functions { Knows functions.now (function_ids p.now) }
    requires sound { samples ≡ Soundness.Sound → HasSoundSamples p.now }
    ensures { AnswersFault (first_fault_of (location_faults p.now ++ reference_faults p.now)) result }
{
    if let Soundness::Sound = samples {
        refuse(10, Table::Locations, location_fault(p, mappings, functions))?;
        return Ok(());
    }
    let locations = known_locations(alloc, keys, p)?;
    try_references(p, mappings, functions, &locations)?;
    Ok(())
}

/// Tries rules 8 and 9. Gives the ids of the locations.
pub(crate) fn known_locations(
    alloc: Global,
    keys: HashKeys,
    p: &Profile,
) -> Result<IdSet, CheckRefusal>
    requires { IsIndexed p.now }
    ensures faults { AnswersFault (first_fault_of (location_faults p.now)) result }
    ensures known { IfOk result (λ known. Knows known (location_ids p.now)) }
{
    known_ids(alloc, keys, 8, Table::Locations, p.location.as_slice())
}

// Tries rules 10 to 12.
fn try_references(
    p: &Profile,
    mappings: &IdSet,
    functions: &IdSet,
    locations: &IdSet,
) -> Result<(), TableFault>
    requires indexed { IsIndexed p.now }
    requires mappings { Knows mappings.now (mapping_ids p.now) }
    requires functions { Knows functions.now (function_ids p.now) }
    requires locations { Knows locations.now (location_ids p.now) }
    ensures { FindsFault (first_fault_of (reference_faults p.now)) result }
{
    refuse(10, Table::Locations, location_fault(p, mappings, functions))?;
    refuse(11, Table::Samples, sample_fault(p, locations))?;
    refuse(12, Table::Samples, value_fault(p))
}
