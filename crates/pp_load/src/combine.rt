//! Sources and bases that were read become one profile.
ghost use Rattle.std.specs.Prelude.{◌≡◌, ◌+◌, ◌<◌, ◌≤◌, ◌^◌, [], ◌∷◌, Ok, take, drop, length, IfOk, IfSome, is_some, nat_lt};
ghost use Rattle.pp_merge.specs.Scale.{negated};
ghost use Rattle.pp_load.specs.Steps.{Loads};
ghost use Rattle.pp_load.specs.Joining.{AreCountableProfiles, AreMergeable, IsOneOf, CanTakeOff, CanTakeOffOne, IsReady, halt_of};
ghost use Rattle.pp_load.specs.Combine.{agreeing, agreeing_with, merging, scaling_if, subtracting, less_bases, joining, combined};

use crate::refusal::LoadRefusal;
use pp_base::{List, Memory};
use pp_desk::{Halt, Stop};
use pp_merge::{MergeRefusal, NothingToScale, agree, merge_on, normalize, subtract_on};
use pp_model::{BaseKind, Compact};
use pp_share::Hashed;
use pp_steal::Resources;
use std::thread::Threads;

/// The profiles as one: the first `sources` are sources, and the others bases. All are compared with the first source,
/// then the sources are merged, then the bases, which are taken off the sources at last.
#[tactic(auto, using(crate::proofs::Giving::giving), unfolding(crate::specs::Combine::combined))]
pub fn combine<R: Threads + Sync>(
    with: &Resources<'_, R>,
    sources: usize,
    kind: Option<BaseKind>,
    normalize: bool,
    profiles: List<Hashed>,
) -> Result<Compact, Halt<LoadRefusal>>
    requires few { AreCountableProfiles profiles }
    requires some { 0 < sources }
    requires all { sources ≤ length profiles }
    requires bases { is_some kind ≡ nat_lt sources (length profiles) }
    ensures is { Loads (combined sources kind normalize profiles) result }
    ensures ready { IfOk result IsReady }
{
    compare(profiles.as_slice())?;
    join(with, sources, kind, normalize, profiles)
}

// All profiles agree with the first.
#[tactic(auto, using(crate::proofs::Giving::giving), unfolding(crate::specs::Combine::agreeing))]
fn compare(profiles: &[Hashed]) -> Result<(), Halt<LoadRefusal>>
    requires { length profiles.now < 2 ^ 32 }
    ensures { Loads (agreeing profiles.now) result }
{
    match profiles {
        [] => Ok(()),
        [first, others @ ..] => compare_with(first, others),
    }
}

// All the others agree with the first.
#[tactic(auto, unfolding(crate::specs::Steps::Loads))]
fn compare_with(first: &Hashed, others: &[Hashed]) -> Result<(), Halt<LoadRefusal>>
    requires { length others.now + 1 < 2 ^ 32 }
    ensures { Loads (agreeing_with first.now others.now) result }
{
    for (place, p) in others.iter().enumerate() {
        if let Some(what) = agree(first.valid(), p.valid()) {
            let source = place as u32 + 1;
            return Err(Halt::Refused(LoadRefusal::Incompatible { source, what }));
        }
    }
    Ok(())
}

// Profiles that agree become one.
#[tactic(auto, using(crate::proofs::Giving::giving), unfolding(crate::specs::Combine::joining))]
fn join<R: Threads + Sync>(
    with: &Resources<'_, R>,
    sources: usize,
    kind: Option<BaseKind>,
    normalize: bool,
    profiles: List<Hashed>,
) -> Result<Compact, Halt<LoadRefusal>>
    requires few { AreCountableProfiles profiles }
    requires agree { agreeing profiles ≡ Ok tt }
    requires some { 0 < sources }
    requires all { sources ≤ length profiles }
    requires bases { is_some kind ≡ nat_lt sources (length profiles) }
    ensures is { Loads (joining sources kind normalize profiles) result }
    ensures ready { IfOk result IsReady }
{
    let (sources, bases) = split(profiles, sources)?;
    let source = merge_all(with, sources)?;
    less_bases(with, kind, normalize, source, bases)
}

// The profiles before the place, and those from it on.
fn split(profiles: List<Hashed>, place: usize) -> Result<(List<Hashed>, List<Hashed>), Memory>
    requires { place ≤ length profiles }
    ensures front { IfOk result (λ parts. parts.0 ≡ take place profiles) }
    ensures rest { IfOk result (λ parts. parts.1 ≡ drop place profiles) }
{
    let mut before = profiles.into_vec();
    let behind = before.split_off(place)?;
    Ok((List::from_vec(before), List::from_vec(behind)))
}

// The profiles as one.
#[tactic(auto, using(crate::proofs::JoiningLemmas::joins))]
fn merge_all<R: Threads + Sync>(
    with: &Resources<'_, R>,
    profiles: List<Hashed>,
) -> Result<Compact, Halt<LoadRefusal>>
    requires { AreMergeable profiles }
    ensures is { Loads (merging profiles) result }
    ensures one { IfOk result (IsOneOf profiles) }
{
    match merge_on(with, profiles) {
        Ok(merged) => Ok(merged),
        Err(refusal) => Err(halt_of(refusal)),
    }
}

// How a refusal of merging ends the loading.
fn halt_of(refusal: MergeRefusal) -> Halt<LoadRefusal>
    ensures { result ≡ halt_of refusal }
{
    match refusal {
        MergeRefusal::Incompatible { source, what } => {
            Halt::Refused(LoadRefusal::Incompatible { source, what })
        }
        MergeRefusal::TotalTooLarge { column } => {
            Halt::Refused(LoadRefusal::TotalTooLarge { column })
        }
        MergeRefusal::Memory => Halt::Stopped(Stop::Memory),
    }
}

// The source without the bases, where there are any.
#[tactic(auto, using(crate::proofs::Giving::giving), unfolding(crate::specs::Combine::less_bases))]
fn less_bases<R: Threads + Sync>(
    with: &Resources<'_, R>,
    kind: Option<BaseKind>,
    normalize: bool,
    source: Compact,
    bases: List<Hashed>,
) -> Result<Compact, Halt<LoadRefusal>>
    requires ready { IsReady source }
    requires bases { IfSome kind (λ _. CanTakeOff source bases) }
    ensures is { Loads (less_bases kind normalize source bases) result }
    ensures ready { IfOk result IsReady }
{
    match kind {
        None => Ok(source),
        Some(kind) => take_off(with, kind, normalize, source, bases),
    }
}

// The bases become one, which is taken off the source.
#[tactic(auto, using(crate::proofs::Giving::giving), unfolding(crate::specs::Combine::subtracting))]
fn take_off<R: Threads + Sync>(
    with: &Resources<'_, R>,
    kind: BaseKind,
    normalize: bool,
    source: Compact,
    bases: List<Hashed>,
) -> Result<Compact, Halt<LoadRefusal>>
    requires { CanTakeOff source bases }
    ensures is { Loads (subtracting kind normalize source bases) result }
    ensures ready { IfOk result IsReady }
{
    let base = merge_all(with, bases)?;
    let source = scale_if(normalize, source, &base)?;
    subtract_base(with, source, base, kind)
}

// The source scaled to the base, where that is asked for.
#[tactic(auto, using(crate::proofs::JoiningLemmas::pairs), unfolding(crate::specs::Steps::Loads, crate::specs::Combine::scaling_if, crate::specs::Combine::scaling))]
fn scale_if(wanted: bool, mut source: Compact, base: &Compact) -> Result<Compact, Halt<LoadRefusal>>
    requires { CanTakeOffOne source base.now }
    ensures is { Loads (scaling_if wanted source base.now) result }
    ensures pair { IfOk result (λ scaled. CanTakeOffOne scaled base.now) }
{
    if !wanted {
        return Ok(source);
    }
    match normalize(&mut source, base) {
        Ok(()) => Ok(source),
        Err(NothingToScale { column }) => {
            Err(Halt::Refused(LoadRefusal::NothingToScale { column }))
        }
    }
}

// The source without the base.
fn subtract_base<R: Threads + Sync>(
    with: &Resources<'_, R>,
    source: Compact,
    base: Compact,
    kind: BaseKind,
) -> Result<Compact, Halt<LoadRefusal>>
    requires { CanTakeOffOne source base }
    ensures is { Loads (merging (source ∷ negated kind base ∷ [])) result }
    ensures ready { IfOk result IsReady }
{
    let (_source, _base) = (source.get(), base.get());
    match subtract_on(with, source, base, kind) {
        Ok(merged) => Ok(merged),
        Err(refusal) => Err(halt_of(refusal)),
    }
}
