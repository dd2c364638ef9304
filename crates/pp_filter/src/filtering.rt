//! The whole call.
ghost use Rattle.std.specs.Prelude.{◌≡◌, IfOk, None, Some};
ghost use Rattle.pp_desk.specs.Asked.{Asked};
ghost use Rattle.pp_desk.specs.Asking.{settled};
ghost use Rattle.pp_desk.specs.Went.{Went};
ghost use Rattle.pp_filter.specs.Asked.{filter, filter_loaded, filter_outcome, refused_by};
ghost use Rattle.pp_filter.specs.Filtered.{saved_of, SavesFiltered};
ghost use Rattle.pp_model.specs.Finders.{Finders};
ghost use Rattle.pp_model.specs.Sizes.{IsCountable};
ghost use Rattle.pp_count.specs.Counted.{CanCount};
ghost use Rattle.pp_count.specs.Seeing.{HoldsFilters};
ghost use Rattle.pp_dump.specs.Saved.{saved};

use crate::FilterRefusal;
use crate::judging::{ask_option_patterns, ask_profile_patterns};
use crate::refusal::Refused;
use pp_base::{Matcher, Memory, OpenGate};
use pp_count::count;
use pp_desk::{Desk, Halt, MatcherDesk};
use pp_dump::saved_profile;
use pp_keys::HashKeys;
use pp_model::{Compact, Config, Loaded, Verdicts};
use pp_pattern::{FramesRefused, PatternRefused};
use pp_pseudo::{basis, framed_for};
use pp_steal::Resources;
use std::alloc::Global;
use std::thread::Threads;

/// What the filters of the configuration leave of the profile: just the profile that the command's proto report saves.
///
/// The profile's own two patterns are asked first, and then those of the configuration that aren't empty; the first that
/// the matcher refuses is told, and none is asked after it. Where tagroot or tagleaf names a key, the profile first gets
/// the frames from labels. As many threads may work as the configuration has workers. The profile is spent, also on a
/// refusal.
pub fn filtered<R: Threads + Sync, M: Matcher>(
    rt: &R,
    alloc: Global,
    profile: Compact,
    config: &Config,
    matcher: &mut M,
) -> Result<Compact, FilterRefusal>
    requires { IsCountable profile }
    ensures went { Asked (M.answers matcher.old) (M.answers matcher.new)
        (filter M.finds profile config.now) (filter_outcome result) }
    ensures saved { IfOk result (SavesFiltered M.finds profile config.now) }
{
    let mut desk = MatcherDesk {
        matcher: &mut *matcher,
    };
    filter_at(rt, alloc, profile, config, &mut desk)
}

// `filtered` at the desk of the matcher.
fn filter_at<R: Threads + Sync, M: Matcher>(
    rt: &R,
    alloc: Global,
    profile: Compact,
    config: &Config,
    desk: &mut MatcherDesk<'_, M>,
) -> Result<Compact, FilterRefusal>
    requires { IsCountable profile }
    ensures went { Asked (M.answers desk.old.matcher.now) (M.answers desk.new.matcher.now)
        (filter M.finds profile config.now) (filter_outcome result) }
    ensures saved { IfOk result (SavesFiltered M.finds profile config.now) }
    ensures same { desk.new.matcher.ghost_name ≡ desk.old.matcher.ghost_name }
{
    match filter(rt, alloc, profile, config, desk) {
        Ok(saved) => Ok(saved),
        Err(Halt::Refused(refused)) => Err(refusal_of(refused)),
        // Nothing but memory can be wanting where only patterns are asked.
        Err(Halt::Stopped(_)) => Err(FilterRefusal::Memory),
    }
}

// The refusal that tells which pattern was refused.
fn refusal_of(refused: Refused) -> FilterRefusal
    ensures { refused_by result ≡ Some refused }
{
    match refused {
        Refused::OfProfile(FramesRefused::DropFrames) => FilterRefusal::DropFrames,
        Refused::OfProfile(FramesRefused::KeepFrames) => FilterRefusal::KeepFrames,
        Refused::OfOption(PatternRefused { option }) => FilterRefusal::Pattern { option },
    }
}

// The patterns of the profile, and then the filters.
#[tactic(auto, using(pp_desk::proofs::AskingLemmas::asking), unfolding(crate::specs::Asked::filter))]
fn filter<R: Threads + Sync, D: Desk>(
    rt: &R,
    alloc: Global,
    profile: Compact,
    config: &Config,
    desk: &mut D,
) -> Result<Compact, Halt<Refused>>
    requires { IsCountable profile }
    ensures went { Went (D.world desk.old) (D.world desk.new) (filter D.finds profile config.now)
        (settled result) }
    ensures saved { IfOk result (SavesFiltered D.finds profile config.now) }
{
    let l = ask_profile_patterns(alloc, profile, desk)?;
    let framed = framed_for(alloc, HashKeys::fixed(), &l, &config.presentation)?;
    filter_loaded(rt, alloc, basis(&framed, &l), config, desk)
}

// What is saved of the profile that is filtered.
#[tactic(auto, using(pp_desk::proofs::AskingLemmas::asking), unfolding(crate::specs::Asked::filter_loaded))]
fn filter_loaded<R: Threads + Sync, D: Desk>(
    rt: &R,
    alloc: Global,
    l: &Loaded,
    config: &Config,
    desk: &mut D,
) -> Result<Compact, Halt<Refused>>
    requires { IsCountable l.now.profile }
    ensures went { Went (D.world desk.old) (D.world desk.new)
        (filter_loaded D.finds l.now config.now.filtering)
        (settled result) }
    ensures saved { IfOk result (λ q. q ≡ saved_of D.finds l.now config.now.filtering) }
{
    // A profile's texts are distinct, so that verdicts on them tell what is found.
    let _profile = l.profile.get();
    let v = ask_option_patterns(alloc, l, &config.filtering, desk)?;
    let saved = save(rt, alloc, l, &v, config)?;
    Ok(saved)
}

// What is saved of it by these verdicts.
fn save<R: Threads + Sync>(
    rt: &R,
    alloc: Global,
    l: &Loaded,
    v: &Verdicts,
    config: &Config,
) -> Result<Compact, Memory>
    requires { CanCount l.now.profile v.now config.now.filtering None }
    ensures { (f : Finders) → HoldsFilters l.now v.now config.now.filtering f →
        IfOk result (λ q. q ≡ saved l.now.profile f config.now.filtering) }
{
    let counted = count(rt, alloc, HashKeys::fixed(), l, v, config, None, &OpenGate)?;
    let with = Resources {
        rt,
        alloc,
        workers: config.environment.workers,
        keys: HashKeys::fixed(),
    };
    saved_profile(&with, l, v, &counted)
}
