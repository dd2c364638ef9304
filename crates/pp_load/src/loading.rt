//! From the sources and bases of a plan to the profile that reports are made of.
ghost use Rattle.std.specs.Prelude.{◌≡◌, ◌+◌, [], length, IfOk};
ghost use Rattle.pp_desk.specs.Went.{Went};
ghost use Rattle.pp_desk.specs.Asking.{settled};
ghost use Rattle.pp_model.specs.Sizes.{IsCountable};
ghost use Rattle.pp_pattern.specs.Load.{load_verdicts};
ghost use Rattle.pp_merge.specs.Merge.{merged};
ghost use Rattle.pp_load.specs.Steps.{Loads};
ghost use Rattle.pp_load.specs.Joining.{IsReady};
ghost use Rattle.pp_load.specs.Combine.{combined};
ghost use Rattle.pp_load.specs.Sources.{IsCountableRead};
ghost use Rattle.pp_load.specs.Reads.{with_verdicts, loaded_or};
ghost use Rattle.pp_load.specs.Load.{load};

use crate::combine::combine;
use crate::reading::{Read, read_plan};
use crate::refusal::LoadRefusal;
use pp_base::List;
use pp_desk::{Desk, Halt, Stop, settle};
use pp_keys::HashKeys;
use pp_model::{Compact, Loaded};
use pp_options::Plan;
use pp_pattern::{FramesRefused, judge_load};
use pp_steal::Resources;
use std::alloc::Global;
use std::thread::Threads;

/// Loads the profile of a plan: its sources and bases are read in the order of their words, combined to one profile,
/// and that profile's own patterns are asked. The first refusal ends all. Files are decoded on as many lanes as the
/// configuration has workers. A file's bytes are given up once they are decoded, and the decoded profiles once they are
/// merged. The hash tables have the keys `keys`, on which no answer depends.
pub fn load<R: Threads + Sync, D: Desk>(
    rt: &R,
    alloc: Global,
    keys: HashKeys,
    plan: &Plan,
    desk: &mut D,
) -> Result<Result<Loaded, LoadRefusal>, Stop>
    ensures went { Went (D.world desk.old) (D.world desk.new) (load D.finds plan.now) result }
    ensures countable { IfOk result (λ loading. IfOk loading (λ l. IsCountable l.profile)) }

    // Merged alone, the profile stays as it is.
    ensures alone { IfOk result (λ loading.
        IfOk loading (λ l. merged l.profile [] ≡ l.profile)) }

    // Its verdicts are what its own patterns find.
    ensures found { IfOk result (λ loading.
        IfOk loading (λ l. (l.drop, l.keep) ≡ load_verdicts D.finds l.profile)) }
{
    settle(load_plan(rt, alloc, keys, plan, desk))
}

#[tactic(auto, using(pp_desk::proofs::AskingLemmas::asking, crate::proofs::Giving::given), unfolding(crate::specs::Load::load))]
fn load_plan<R: Threads + Sync, D: Desk>(
    rt: &R,
    alloc: Global,
    keys: HashKeys,
    plan: &Plan,
    desk: &mut D,
) -> Result<Loaded, Halt<LoadRefusal>>
    ensures went { Went (D.world desk.old) (D.world desk.new) (load D.finds plan.now)
        (settled result) }
    ensures ready { IfOk result (λ l. IsReady l.profile) }
    ensures found { IfOk result (λ l. (l.drop, l.keep) ≡ load_verdicts D.finds l.profile) }
{
    let with = Resources {
        rt,
        alloc,
        workers: plan.config.environment.workers,
        keys,
    };
    let read = read_plan(&with, plan, desk)?;
    let profile = combine_read(&with, plan, read)?;
    judge(alloc, profile, desk)
}

// The profiles of a plan as one.
fn combine_read<R: Threads + Sync>(
    with: &Resources<'_, R>,
    plan: &Plan,
    read: Read,
) -> Result<Compact, Halt<LoadRefusal>>
    requires few { IsCountableRead read }
    requires all { length read.profiles ≡ length plan.now.origins + length plan.now.bases }
    ensures is { Loads (combined (length plan.now.origins) plan.now.base_kind
        plan.now.normalize read.profiles) result }
    ensures ready { IfOk result IsReady }
{
    let sources = plan.origins.len();
    combine(with, sources, plan.base_kind, plan.normalize, read.profiles)
}

// The profile with what its own patterns find.
#[tactic(auto, using(pp_desk::proofs::Going::going, crate::proofs::Giving::given), unfolding(crate::specs::Reads::with_verdicts))]
fn judge<D: Desk>(
    alloc: Global,
    profile: Compact,
    desk: &mut D,
) -> Result<Loaded, Halt<LoadRefusal>>
    ensures went { Went (D.world desk.old) (D.world desk.new) (with_verdicts D.finds profile)
        (settled result) }
    ensures same { IfOk result (λ l. l.profile ≡ profile) }
    ensures found { IfOk result (λ l. (l.drop, l.keep) ≡ load_verdicts D.finds l.profile) }
{
    let answer = judge_load(alloc, desk, &profile)?;
    loaded::<D>(profile, answer)
}

// The profile with the verdicts of its patterns, where none of them was refused.
#[tactic(auto, unfolding(crate::specs::Steps::Loads))]
fn loaded<D: Desk>(
    profile: Compact,
    answer: Result<(Option<List<bool>>, Option<List<bool>>), FramesRefused>,
) -> Result<Loaded, Halt<LoadRefusal>>
    requires { IfOk answer (λ v. v ≡ load_verdicts D.finds profile) }
    ensures is { Loads (loaded_or D.finds profile answer) result }
    ensures same { IfOk result (λ l. l.profile ≡ profile) }
    ensures found { IfOk result (λ l. (l.drop, l.keep) ≡ load_verdicts D.finds l.profile) }
{
    match answer {
        Ok((drop, keep)) => Ok(Loaded {
            profile,
            drop,
            keep,
        }),
        Err(FramesRefused::DropFrames) => Err(Halt::Refused(LoadRefusal::DropFrames)),
        Err(FramesRefused::KeepFrames) => Err(Halt::Refused(LoadRefusal::KeepFrames)),
    }
}
