//! The profile that is saved.
ghost use Rattle.std.specs.Prelude.{◌≡◌, ◌<◌, ◌^◌, [], length, IfOk};
ghost use Rattle.std.specs.List.{AllByRecursion};
ghost use Rattle.pp_model.specs.declared.config.Config.{Config};
ghost use Rattle.pp_model.specs.declared.filtering.Filtering.{Filtering};
ghost use Rattle.pp_model.specs.Conditions.{HasVerdicts};
ghost use Rattle.pp_model.specs.Finders.{Finders};
ghost use Rattle.pp_model.specs.Rules.{NoRuleFails};
ghost use Rattle.pp_model.specs.Sizes.{IsCountable};
ghost use Rattle.pp_merge.specs.Merge.{merged};
ghost use Rattle.pp_stack.specs.Tables.{AreTables};
ghost use Rattle.pp_count.specs.Counts.{samples_at};
ghost use Rattle.pp_count.specs.Rising.{AreRisingBetween};
ghost use Rattle.pp_count.specs.Seeing.{HoldsFilters, filtered_from};
ghost use Rattle.pp_dump.specs.Saved.{saved};
ghost use Rattle.pp_dump.specs.Stacks.{KeepsStacks};
ghost use Rattle.pp_dump.specs.Unfiltered.{KeepsSums, KeepsKeys, KeepsHeader};
ghost use Rattle.pp_dump.specs.Places.{IsCutOf, StaysWhole};

use crate::cutting::{cut_samples, none_cut};
use crate::whole::copy_samples_on;
use pp_base::Memory;
use pp_count::Counted;
use pp_keys::HashKeys;
use pp_merge::merge_alone_on;
use pp_model::{Compact, Loaded, Profile, Valid, Verdicts};
use pp_restack::{places_of, with_cut};
use pp_stack::{VerdictTables, keeps_all};
use pp_steal::Resources;
use std::alloc::Global;
use std::mem;
use std::thread::Threads;

/// What the filters leave of the profile, merged alone: the samples with the frames and labels that they leave and with
/// all their values, and the locations with the lines that are left. It has no patterns of its own, and the rest of the
/// header stays. Saved again without filters it stays as it is. Of a profile that was merged it keeps the stacks that
/// the filters leave, as they are written out: equal samples are one, and those whose values add up to 0 went. So
/// without filters, and where values are divided by 1, a report adds up the same for each key. `Err` is want of memory.
///
/// The profile can be counted, and so can what is left of it, each sample of which is kept once.
///
/// Samples whose stacks stay whole are copied in pieces of 1,024 on `with.workers` lanes. Lanes also hash, sort and place
/// what is left. The answer does not tell how many there were.
pub fn saved_profile<R: Threads + Sync>(
    with: &Resources<'_, R>,
    l: &Loaded,
    v: &Verdicts,
    c: &Counted,
) -> Result<Compact, Memory>
    requires verdicts { HasVerdicts l.now.profile v.now }
    requires countable { IsCountable l.now.profile }
    requires kept { AreRisingBetween 0 (length l.now.profile.sample) c.now.kept }
    ensures saved { (f : Finders) → (filtering : Filtering) → HoldsFilters l.now v.now filtering f →
        c.now.kept ≡ filtered_from l.now.profile f filtering 0 l.now.profile.sample →
        IfOk result (λ q. q ≡ saved l.now.profile f filtering) }
    ensures stacks { (f : Finders) → (filtering : Filtering) →
        HoldsFilters l.now v.now filtering f →
        c.now.kept ≡ filtered_from l.now.profile f filtering 0 l.now.profile.sample →
        merged l.now.profile [] ≡ l.now.profile →
        IfOk result (KeepsStacks l.now.profile f filtering) }
    ensures sums { (f : Finders) → (config : Config) → HoldsFilters l.now v.now config.filtering f →
        c.now.kept ≡ filtered_from l.now.profile f config.filtering 0 l.now.profile.sample →
        merged l.now.profile [] ≡ l.now.profile →
        IfOk result (KeepsSums l.now.profile f config) }
    ensures keys { (f : Finders) → (config : Config) → HoldsFilters l.now v.now config.filtering f →
        c.now.kept ≡ filtered_from l.now.profile f config.filtering 0 l.now.profile.sample →
        merged l.now.profile [] ≡ l.now.profile →
        IfOk result (KeepsKeys l.now.profile f config) }
    ensures header { IfOk result (KeepsHeader l.now.profile) }
    ensures valid { IfOk result (λ q. NoRuleFails q) }
    ensures again { IfOk result (λ q. merged q [] ≡ q) }

    // The mappings were read, and no number that was read has more than 64 bits.
    ensures starts { IfOk result (λ _. AllByRecursion (λ m. m.start < 2 ^ 64) l.now.profile.mapping) }
{
    let cut = cut_profile(with, l, v, c.kept.as_slice())?;
    let q = merge_alone_on(with, cut)?;
    Ok(q)
}

// The profile that is merged alone.
fn cut_profile<R: Threads + Sync>(
    with: &Resources<'_, R>,
    l: &Loaded,
    v: &Verdicts,
    kept: &[u32],
) -> Result<Valid, Memory>
    requires { HasVerdicts l.now.profile v.now }
    ensures { IfOk result (λ q. IsCutOf l.now v.now kept.now q) }
{
    let q = left_profile(with, l, v, kept)?;
    Ok(Valid::claim(q))
}

// The profile that is merged alone, as tables.
fn left_profile<R: Threads + Sync>(
    with: &Resources<'_, R>,
    l: &Loaded,
    v: &Verdicts,
    kept: &[u32],
) -> Result<Profile, Memory>
    requires { HasVerdicts l.now.profile v.now }
    ensures { IfOk result (λ q. IsCutOf l.now v.now kept.now q) }
{
    if keeps_all(l, v) {
        return whole_profile(with, l, v, kept);
    }
    let tables = VerdictTables::new(with.alloc, l, v)?;
    let cut = cut_by_tables(with.alloc, with.keys, l, v, &tables, kept);
    mem::drop(tables);
    cut
}

// Does what `left_profile` does, where stacks stay whole.
fn whole_profile<R: Threads + Sync>(
    with: &Resources<'_, R>,
    l: &Loaded,
    v: &Verdicts,
    kept: &[u32],
) -> Result<Profile, Memory>
    requires verdicts { HasVerdicts l.now.profile v.now }
    requires whole { StaysWhole l.now v.now }
    ensures { IfOk result (λ q. IsCutOf l.now v.now kept.now q) }
{
    let alloc = with.alloc;
    let samples = copy_samples_on(with, l, v, kept)?;
    let p = l.profile.get();
    let places = places_of(alloc, with.keys, p)?;
    with_cut(alloc, p, samples, places.locations)
}

// Does what `left_profile` does, by the tables of these verdicts.
fn cut_by_tables(
    alloc: Global,
    hash_keys: HashKeys,
    l: &Loaded,
    v: &Verdicts,
    tables: &VerdictTables,
    kept: &[u32],
) -> Result<Profile, Memory>
    requires verdicts { HasVerdicts l.now.profile v.now }
    requires tables { AreTables l.now.profile v.now tables.now }
    ensures { IfOk result (λ q. IsCutOf l.now v.now kept.now q) }
{
    let p = l.profile.get();
    let mut cut = none_cut(alloc, hash_keys, p, kept.len())?;
    cut_samples(alloc, l, v, tables, kept, &mut cut)?;
    let places = cut.places;
    with_cut(alloc, p, cut.samples, places.locations)
}
