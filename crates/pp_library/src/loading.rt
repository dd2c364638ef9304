//! The bytes of a file loaded.
ghost use Rattle.std.specs.Prelude.{◌≡◌, ◌∷◌, [], ℕ, List as Seq, Some, IfOk, IfErr};
ghost use Rattle.pp_load.specs.Alone.{HasOneFile};
ghost use Rattle.pp_merge.specs.Merge.{merged};
ghost use Rattle.pp_model.specs.Words.{IsCountable};
ghost use Rattle.pp_pattern.specs.Load.{load_verdicts};
ghost use Rattle.pp_desk.specs.Words.{Asked, value_of};
ghost use Rattle.pp_library.specs.Loads.{load_bytes, outcome_of, held_files, IsOfOne};

use crate::countable::Countable;
use crate::load_error::{LoadError, error_of};
use pp_base::{CalmFiles, CalmSink, CalmSource, List, Matcher, Memory, Text};
use pp_desk::{Desk, Objects, Stop};
use pp_keys::HashKeys;
use pp_load::LoadRefusal;
use pp_model::{Config, Loaded};
use pp_options::{Origin, Plan};
use std::alloc::Global;
use std::random::RandomSource;
use std::thread::Threads;

/// Loads the bytes of a file as the command does: a message of profile.proto or a CPU profile of gperftools. It is
/// decoded with the default number of workers, checked against the table rules and merged alone. Its own two patterns
/// are asked where they aren't empty. The bytes are spent, also on an error.
pub fn load<R: Threads + Sync + RandomSource, M: Matcher>(
    rt: &R,
    alloc: Global,
    bytes: Text,
    matcher: &mut M,
) -> Result<Countable, LoadError>
    ensures went { Asked (M.answers matcher.old) (M.answers matcher.new) (load_bytes M.finds bytes)
        (outcome_of result) }

    // Merged alone, the profile stays as it is.
    ensures alone { IfOk result (λ l. merged l.loaded.profile [] ≡ l.loaded.profile) }

    // Its verdicts are what its own patterns find.
    ensures found { IfOk result (λ l.
        (l.loaded.drop, l.loaded.keep) ≡ load_verdicts M.finds l.loaded.profile) }
{
    let plan = one_file(alloc)?;
    let entries = one_entry(alloc, bytes)?;

    // No step of loading but the reads and the matcher's touches the others.
    let mut files = CalmFiles::new(alloc, entries, List::new(alloc));
    let mut input = CalmSource::new(Text::new(alloc), 1);
    let mut out = CalmSink::new(alloc, 1);
    let mut err = CalmSink::new(alloc, 1);
    let mut desk = Objects {
        alloc,
        files: &mut files,
        input: &mut input,
        out: &mut out,
        err: &mut err,
        matcher: &mut *matcher,
        reader: &mut None,
    };
    load_at(rt, alloc, &plan, &mut desk)
}

// The plan whose one source is the file at the empty path.
fn one_file(alloc: Global) -> Result<Plan, Memory>
    ensures { IfOk result (λ plan. HasOneFile plan []) }
{
    let mut origins = List::new(alloc);
    origins.push(Origin::Path(Text::new(alloc)))?;
    let config = Config::standard(alloc)?;
    Ok(Plan {
        origins,
        bases: List::new(alloc),
        base_kind: None,
        normalize: false,
        report: None,
        config,
    })
}

// The one file, at the empty path.
fn one_entry(alloc: Global, bytes: Text) -> Result<List<(Text, Text)>, Memory>
    ensures { IfOk result (λ entries. entries ≡ ([], bytes) ∷ []) }
{
    let mut entries = List::new(alloc);
    entries.push((Text::new(alloc), bytes))?;
    Ok(entries)
}

// Loads the one file of a desk.
fn load_at<R: Threads + Sync + RandomSource, D: Desk>(
    rt: &R,
    alloc: Global,
    plan: &Plan,
    desk: &mut D,
) -> Result<Countable, LoadError>
    requires one { HasOneFile plan.now [] }
    requires held { (bytes : Seq ℕ) × ((D.world desk.old).told.files ≡ Some (held_files bytes)) }
    ensures went { (bytes : Seq ℕ) → (D.world desk.old).told.files ≡ Some (held_files bytes) →
        Asked (D.world desk.old).told.answers (D.world desk.new).told.answers
        (load_bytes D.finds bytes) (outcome_of result) }
    ensures alone { IfOk result (λ l. merged l.loaded.profile [] ≡ l.loaded.profile) }
    ensures found { IfOk result (λ l.
        (l.loaded.drop, l.loaded.keep) ≡ load_verdicts D.finds l.loaded.profile) }
    ensures same { (D.world desk.new).names ≡ (D.world desk.old).names }
{
    let loading = pp_load::load(rt, alloc, HashKeys::random(rt), plan, desk);
    answer_of(loading)
}

// What was loaded of one file, or why it was not.
fn answer_of(loading: Result<Result<Loaded, LoadRefusal>, Stop>) -> Result<Countable, LoadError>
    requires countable { IfOk loading (λ answer. IfOk answer (λ l. IsCountable l.profile)) }
    requires one { IfOk loading (λ answer. IfErr answer IsOfOne) }
    ensures { outcome_of result ≡ value_of loading }
{
    match loading {
        Ok(Ok(loaded)) => Ok(Countable { loaded, base: None }),
        Ok(Err(refusal)) => Err(error_of(refusal)),
        // Nothing but memory can be wanting: the one file is there.
        Err(_) => Err(LoadError::Memory),
    }
}
