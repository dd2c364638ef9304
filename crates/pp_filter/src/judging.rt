//! What the patterns find, of the profile and of the configuration.
ghost use Rattle.std.specs.Prelude.{◌≡◌, IfOk, None, Ok};
ghost use Rattle.pp_desk.specs.Asking.{settled};
ghost use Rattle.pp_desk.specs.Went.{Went};
ghost use Rattle.pp_filter.specs.Asked.{ask_profile_patterns, loaded_or_refused, ask_option_patterns, verdicts_or};
ghost use Rattle.pp_pattern.specs.Load.{load_verdicts};
ghost use Rattle.pp_pattern.specs.Report.{AreVerdictsOf};

use crate::refusal::Refused;
use pp_base::List;
use pp_desk::{Desk, Halt};
use pp_model::{Compact, Filtering, Loaded, Verdicts};
use pp_pattern::{FramesRefused, judge, judge_load};
use std::alloc::Global;

/// The profile with what its own patterns find.
#[tactic(auto, using(pp_desk::proofs::Going::going, crate::proofs::GivingLemmas::given), unfolding(crate::specs::Asked::ask_profile_patterns))]
pub fn ask_profile_patterns<D: Desk>(
    alloc: Global,
    profile: Compact,
    desk: &mut D,
) -> Result<Loaded, Halt<Refused>>
    ensures went { Went (D.world desk.old) (D.world desk.new)
        (ask_profile_patterns D.finds profile)
        (settled result) }
    ensures same { IfOk result (λ l. l.profile ≡ profile) }
    ensures found { IfOk result (λ l. (l.drop, l.keep) ≡ load_verdicts D.finds l.profile) }
{
    let answer = judge_load(alloc, desk, &profile)?;
    loaded::<D>(profile, answer)
}

// The profile with the verdicts of its patterns, where none of them was refused.
fn loaded<D: Desk>(
    profile: Compact,
    answer: Result<(Option<List<bool>>, Option<List<bool>>), FramesRefused>,
) -> Result<Loaded, Halt<Refused>>
    requires { IfOk answer (λ v. v ≡ load_verdicts D.finds profile) }
    ensures is { settled result ≡ Ok (loaded_or_refused D.finds profile answer) }
    ensures same { IfOk result (λ l. l.profile ≡ profile) }
    ensures found { IfOk result (λ l. (l.drop, l.keep) ≡ load_verdicts D.finds l.profile) }
{
    match answer {
        Ok((drop, keep)) => Ok(Loaded {
            profile,
            drop,
            keep,
        }),
        Err(refused) => Err(Halt::Refused(Refused::OfProfile(refused))),
    }
}

/// What the patterns of the configuration find.
#[tactic(auto, using(pp_desk::proofs::Going::going, crate::proofs::GivingLemmas::given), unfolding(crate::specs::Asked::ask_option_patterns))]
pub fn ask_option_patterns<D: Desk>(
    alloc: Global,
    l: &Loaded,
    filtering: &Filtering,
    desk: &mut D,
) -> Result<Verdicts, Halt<Refused>>
    ensures went { Went (D.world desk.old) (D.world desk.new)
        (ask_option_patterns D.finds l.now filtering.now)
        (settled result) }
    ensures found { IfOk result (AreVerdictsOf D.finds filtering.now None l.now) }
{
    match judge(alloc, desk, filtering, None, l)? {
        Ok(verdicts) => Ok(verdicts),
        Err(refused) => Err(Halt::Refused(Refused::OfOption(refused))),
    }
}
