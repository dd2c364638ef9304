//! The table rules, of which lanes ask those of samples.
ghost use Rattle.std.specs.Prelude.{IfOk};
ghost use Rattle.pp_model.specs.Rules.{location_ids};
ghost use Rattle.pp_check.specs.Checks.{Checks};
ghost use Rattle.pp_check.specs.FirstFault.{IsIndexed};
ghost use Rattle.pp_check.specs.Known.{Knows};
ghost use Rattle.pp_check.specs.Sound.{IsAsked, IsAskedAhead};

use crate::asking::{Asked, Asking};
use crate::checking::{known_locations, try_rules};
use crate::fault::CheckRefusal;
use crate::known::IdSet;
use crate::samples::Soundness;
use pp_base::Memory;
use pp_model::{Profile, Valid};
use pp_share::Hashed;
use pp_steal::{Resources, run_piecewise};
use std::thread::Threads;

/// Tries the table rules as `check` does, and hashes each sample by the ids that it has. Samples are asked for all their
/// rules in one walk, in pieces of 1,024 on `with.workers` lanes. The answer does not tell how many there were. Where a
/// rule of samples or of the locations' ids fails, all rules are tried on one thread.
pub fn check_on<R: Threads + Sync>(
    with: &Resources<'_, R>,
    p: Profile,
) -> Result<Hashed, CheckRefusal>
    requires { IsIndexed p }
    ensures { Checks p result }
{
    let asked = ask_on(with, &p)?;
    try_rules(with.alloc, with.keys, &p, Soundness::known(asked.sound))?;
    Ok(Hashed::claim(Valid::claim(p), asked.hashes))
}

// What is told of all samples. Where a rule of the locations' ids fails, they are not asked and count as unsound.
fn ask_on<R: Threads + Sync>(with: &Resources<'_, R>, p: &Profile) -> Result<Asked, Memory>
    requires { IsIndexed p.now }
    ensures { IfOk result (IsAskedAhead p.now) }
{
    match known_locations(with.alloc, with.keys, p) {
        Ok(locations) => ask_samples(with, p, &locations),
        Err(CheckRefusal::Fault(_)) => Asked::unsound(with.alloc),
        Err(CheckRefusal::Memory) => Err(Memory),
    }
}

// What is told of all samples, where these are the ids of the locations.
fn ask_samples<R: Threads + Sync>(
    with: &Resources<'_, R>,
    p: &Profile,
    locations: &IdSet,
) -> Result<Asked, Memory>
    requires { Knows locations.now (location_ids p.now) }
    ensures { IfOk result (IsAsked p.now p.now.sample) }
{
    let asking = Asking {
        alloc: with.alloc,
        p,
        locations,
    };
    run_piecewise(with, &asking, p.sample.as_slice())
}
