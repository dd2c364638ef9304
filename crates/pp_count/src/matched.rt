//! Which options of a report match something.
ghost use Rattle.std.specs.Prelude.{◌≡◌, ◌+◌, ◌<◌, ◌≤◌, ◌^◌, length, take, drop, slice_index_or, All, IfOk, Option, List as Seq, false};
ghost use Rattle.std.specs.List.{list_any};
ghost use Rattle.std.specs.Option.{ForSome, option_map_or};
ghost use Rattle.pp_model.specs.Conditions.{HasOnePerText, IsSampleOf, RefersTo};
ghost use Rattle.pp_model.specs.Finders.{Finder, Finders, TagFinders};
ghost use Rattle.pp_model.specs.Judged.{judged};
ghost use Rattle.pp_stack.specs.Filters.{AreVerdicts};
ghost use Rattle.pp_stack.specs.Tables.{FitsPattern, IsVerdictTable};
ghost use Rattle.pp_tags.specs.TagFilters.{AreTagVerdicts, HasItsTags, selects_or};
ghost use Rattle.pp_count.specs.Filters.{IsReach};
ghost use Rattle.pp_count.specs.Seeing.{HoldsFilters};
ghost use Rattle.pp_count.specs.Matches.{stack_has, label_has, frame_match, key_match, matches_among, no_matches, either};
ghost use Rattle.pp_count.specs.Scope.{IsSoundScope, HasMatches, samples_in_scope};

use crate::finding::finds_key;
use crate::scope::Scope;
use pp_base::{List, Memory};
use pp_model::{Loaded, Sample, Stack, Tag, frames_into};
use pp_stack::{VerdictTable, finds_sample, finds_some, load_prune};
use pp_tags::{TagFilter, selects};
use std::alloc::Global;

/// For each option that may be noted as without a match, whether it has one.
#[derive(Debug, Drop)]
pub struct Matched {
    /// focus, ignore, hide, show, show_from, tagfocus, tagignore, prune_from, tagshow, taghide. An option that isn't in
    /// force has none, but prune_from always has one.
    pub slots: List<bool>,
}

impl Matched {
    /// The matches of no samples.
    pub(crate) fn none(alloc: Global) -> Result<Matched, Memory>
        ensures { IfOk result (λ none. none.slots ≡ no_matches) }
    {
        Matched::of(
            alloc,
            &[
                false, false, false, false, false, false, false, true, false, false,
            ],
        )
    }

    // The matches in these slots.
    fn of(alloc: Global, slots: &[bool]) -> Result<Matched, Memory>
        ensures { IfOk result (λ m. m.slots ≡ slots.now) }
    {
        let mut list = List::new(alloc);
        list.extend(slots)?;
        Ok(Matched { slots: list })
    }

    /// The matches of two ranges of samples.
    pub(crate) fn or(&self, alloc: Global, others: &Matched) -> Result<Matched, Memory>
        ensures { IfOk result (λ both. both.slots ≡ either self.now.slots others.now.slots) }
    {
        let mut slots = List::new(alloc);
        for (place, slot) in self.slots.as_slice().iter().enumerate() {
            slots.push(*slot || has_slot(others, place))?;
        }
        Ok(Matched { slots })
    }
}

// Whether the slot at the place has a match.
fn has_slot(matched: &Matched, place: usize) -> bool
    ensures { result ≡ slice_index_or matched.now.slots place false }
{
    match matched.slots.as_slice().get(place) {
        None => false,
        Some(slot) => *slot,
    }
}

/// The matches of `count` samples from the number `first` on. Chosen samples are not searched.
pub(crate) fn range_matches(
    alloc: Global,
    scope: &Scope,
    first: u32,
    count: u32,
) -> Result<Matched, Memory>
    requires sound { IsSoundScope scope.now }
    requires few { length (samples_in_scope scope.now) < 2 ^ 32 }
    requires within { first + count ≤ length (samples_in_scope scope.now) }
    ensures { IfOk result (λ m.
        HasMatches scope.now (take count (drop first (samples_in_scope scope.now))) m.slots) }
{
    match scope.chosen {
        Some(_) => Ok(Matched {
            slots: List::new(alloc),
        }),
        None => {
            let samples = scope.l.profile.get().sample.as_slice();
            let range = &samples[first as usize..first as usize + count as usize];
            let found = matches(alloc, scope, range)?;
            Ok(found)
        }
    }
}

// The matches of these samples. What other filters drop counts too.
fn matches(alloc: Global, scope: &Scope, samples: &[Sample]) -> Result<Matched, Memory>
    requires sound { IsSoundScope scope.now }
    requires members { All (IsSampleOf scope.now.l.now.profile) samples.now }
    requires refers { All (RefersTo scope.now.l.now.profile) samples.now }
    ensures { (f : Finders) →
        HoldsFilters scope.now.l.now scope.now.v.now scope.now.config.now.filtering f →
        IfOk result (λ m. m.slots
        ≡ matches_among scope.now.l.now.profile f scope.now.config.now.filtering samples.now) }
{
    let (l, v) = (scope.l, scope.v);
    let filters = scope.filters;
    let (tables, reach) = (&filters.tables, &filters.reach);
    let focus = some_frame(alloc, l, &v.focus, &tables.focus, reach.focus, samples)?;
    let ignore = some_frame(alloc, l, &v.ignore, &tables.ignore, reach.ignore, samples)?;
    let hide = some_frame(alloc, l, &v.hide, &tables.hide, reach.hide, samples)?;
    let show = some_frame(alloc, l, &v.show, &tables.show, reach.show, samples)?;
    let show_from = some_frame(
        alloc,
        l,
        &v.show_from,
        &tables.show_from,
        reach.show_from,
        samples,
    )?;
    let tagfocus = some_selected(l, &filters.tagfocus, &v.tag, &v.tagfocus, samples);
    let tagignore = some_selected(l, &filters.tagignore, &v.tag, &v.tagignore, samples);
    let tagshow = some_key(l, &v.tagshow, samples);
    let taghide = some_key(l, &v.taghide, samples);
    Matched::of(
        alloc,
        &[
            focus, ignore, hide, show, show_from, tagfocus, tagignore, true, tagshow, taghide,
        ],
    )
}

// Whether the pattern, where it is in force, finds a frame that load pruning left of some sample.
fn some_frame(
    alloc: Global,
    l: &Loaded,
    found: &Option<List<bool>>,
    table: &Option<VerdictTable>,
    reaches: bool,
    samples: &[Sample],
) -> Result<bool, Memory>
    requires refers { All (RefersTo l.now.profile) samples.now }
    requires fits { HasOnePerText l.now.profile found.now }
    requires table { FitsPattern l.now.profile found.now table.now }
    requires reach { IsReach l.now.profile found.now reaches }
    ensures { (f : Finders) → l.now.drop ≡ judged l.now.profile f.drop →
        l.now.keep ≡ judged l.now.profile f.keep →
        (pattern : Option Finder) → found.now ≡ judged l.now.profile pattern →
        IfOk result (λ some. some ≡ frame_match l.now.profile f pattern samples.now) }
{
    let Some(found) = found else {
        return Ok(false);
    };
    if !reaches {
        // The stacks have frames of the profile alone.
        let _compact = l.profile.get();
        return Ok(false);
    }
    some_stack(alloc, l, found, table, samples)
}

fn some_stack(
    alloc: Global,
    l: &Loaded,
    found: &List<bool>,
    table: &Option<VerdictTable>,
    samples: &[Sample],
) -> Result<bool, Memory>
    requires refers { All (RefersTo l.now.profile) samples.now }
    requires fits { length found.now ≡ length l.now.profile.text }
    requires table { ForSome table.now (IsVerdictTable l.now.profile found.now) }
    ensures { (f : Finders) → l.now.drop ≡ judged l.now.profile f.drop →
        l.now.keep ≡ judged l.now.profile f.keep →
        (find : Finder) → AreVerdicts l.now.profile found.now find →
        IfOk result (λ some. some ≡ list_any (stack_has l.now.profile f find) samples.now) }
{
    let mut stack = List::new(alloc);
    for s in samples {
        if has_frame(l, found, table, s, &mut stack)? {
            return Ok(true);
        }
    }
    Ok(false)
}

// Whether it finds a frame of the sample that load pruning leaves. Most samples have none, and no stack is made of them.
// The stack is room for the frames of the others.
fn has_frame(
    l: &Loaded,
    found: &List<bool>,
    table: &Option<VerdictTable>,
    s: &Sample,
    stack: &mut Stack,
) -> Result<bool, Memory>
    requires refers { RefersTo l.now.profile s.now }
    requires fits { length found.now ≡ length l.now.profile.text }
    requires table { ForSome table.now (IsVerdictTable l.now.profile found.now) }
    ensures { (f : Finders) → l.now.drop ≡ judged l.now.profile f.drop →
        l.now.keep ≡ judged l.now.profile f.keep →
        (find : Finder) → AreVerdicts l.now.profile found.now find →
        IfOk result (λ some. some ≡ stack_has l.now.profile f find s.now) }
{
    if !finds_sample(l, found, table, s) {
        return Ok(false);
    }
    frames_into(l, s, stack)?;
    load_prune(l, stack);
    Ok(finds_some(l, found, table, stack.as_slice()))
}

// Whether the tag filter, where it is in force, selects some sample.
fn some_selected(
    l: &Loaded,
    filter: &Option<TagFilter>,
    tag: &List<Tag>,
    parts: &List<List<bool>>,
    samples: &[Sample],
) -> bool
    requires members { All (IsSampleOf l.now.profile) samples.now }
    requires tags { HasItsTags l.now.profile tag.now filter.now }
    ensures { (finders : TagFinders) →
        AreTagVerdicts l.now.profile tag.now filter.now finders parts.now →
        result ≡ list_any (selects_or false l.now.profile filter.now finders) samples.now }
{
    for s in samples {
        if selects_or(l, filter, tag, parts, s) {
            return true;
        }
    }
    false
}

fn selects_or(
    l: &Loaded,
    filter: &Option<TagFilter>,
    tag: &List<Tag>,
    parts: &List<List<bool>>,
    s: &Sample,
) -> bool
    requires member { IsSampleOf l.now.profile s.now }
    requires tags { HasItsTags l.now.profile tag.now filter.now }
    ensures { (finders : TagFinders) →
        AreTagVerdicts l.now.profile tag.now filter.now finders parts.now →
        result ≡ selects_or false l.now.profile filter.now finders s.now }
{
    match filter {
        None => false,
        Some(filter) => selects(l, filter, tag, parts, s),
    }
}

// Whether the pattern, where it is in force, finds the key of some label.
fn some_key(l: &Loaded, found: &Option<List<bool>>, samples: &[Sample]) -> bool
    requires { All (IsSampleOf l.now.profile) samples.now }
    ensures { (pattern : Option Finder) → found.now ≡ judged l.now.profile pattern →
        result ≡ key_match l.now.profile pattern samples.now }
{
    let Some(found) = found else {
        return false;
    };
    some_label(l, found, samples)
}

fn some_label(l: &Loaded, found: &List<bool>, samples: &[Sample]) -> bool
    requires { All (IsSampleOf l.now.profile) samples.now }
    ensures { (find : Finder) → AreVerdicts l.now.profile found.now find →
        result ≡ list_any (label_has l.now.profile find) samples.now }
{
    for s in samples {
        if has_key(l, found, s) {
            return true;
        }
    }
    false
}

fn has_key(l: &Loaded, found: &List<bool>, s: &Sample) -> bool
    requires { IsSampleOf l.now.profile s.now }
    ensures { (find : Finder) → AreVerdicts l.now.profile found.now find →
        result ≡ label_has l.now.profile find s.now }
{
    // Each label of a valid profile's sample names texts of it.
    let _valid = l.profile.get();
    finds_key(found, s.label.as_slice())
}
