//! The filter that is the first to drop a sample.
ghost use Rattle.std.specs.Prelude.{◌≡◌, false, length, List as Seq, Option, IfOk};
ghost use Rattle.std.specs.List.{list_all};
ghost use Rattle.std.specs.Option.{ForSome};
ghost use Rattle.pp_model.specs.Conditions.{HasOnePerText, HasVerdicts, IsSampleOf, IsStackOf, RefersTo};
ghost use Rattle.pp_model.specs.Finders.{Finder, Finders, HoldsFinders, TagFinders};
ghost use Rattle.pp_model.specs.FrameTexts.{written};
ghost use Rattle.pp_model.specs.Judged.{judged};
ghost use Rattle.pp_stack.specs.Filters.{AreVerdicts, finds_frame, is_emptied, not_hidden};
ghost use Rattle.pp_stack.specs.Tables.{AreTables, FitsPattern, IsVerdictTable};
ghost use Rattle.pp_tags.specs.TagFilters.{AreTagVerdicts, HasItsTags, selects_or};
ghost use Rattle.pp_count.specs.Scope.{IsSoundScope};
ghost use Rattle.pp_count.specs.Seeing.{HoldsFilters};
ghost use Rattle.pp_account.specs.First.{finds_or, first_of_shown, first_of_stack, first_of_tags, first_filter, slot_else};

use pp_base::{List, Memory};
use pp_count::Scope;
use pp_model::{Frame, Loaded, Sample, Slot, Stack, Tag, Verdicts, frames_into};
use pp_stack::{VerdictTable, VerdictTables, cut, finds_some, load_prune, show_from};
use pp_tags::{TagFilter, selects};

/// The filter that is the first to drop the sample, None where all of them let it pass. `stack` is room for its frames,
/// to be used again for the next sample.
pub fn first_filter(scope: &Scope, s: &Sample, stack: &mut Stack) -> Result<Option<Slot>, Memory>
    requires sound { IsSoundScope scope.now }
    requires member { IsSampleOf scope.now.l.now.profile s.now }
    requires refers { RefersTo scope.now.l.now.profile s.now }
    ensures { let w = scope.now in (f : Finders) →
        HoldsFilters w.l.now w.v.now w.config.now.filtering f →
        IfOk result (λ slot. slot ≡ first_filter w.l.now.profile f w.config.now.filtering s.now) }
{
    frames_into(scope.l, s, stack)?;
    load_prune(scope.l, stack);
    let of_stack = first_of_stack(scope.l, scope.v, &scope.filters.tables, stack);
    Ok(slot_else(of_stack, first_of_tags(scope, s)))
}

// The first, and where there is none the second.
fn slot_else(slot: Option<Slot>, other: Option<Slot>) -> Option<Slot>
    ensures { result ≡ slot_else slot other }
{
    match slot {
        Some(slot) => Some(slot),
        None => other,
    }
}

// The stack filter that is the first to drop the stack, of which load pruning left this.
fn first_of_stack(
    l: &Loaded,
    v: &Verdicts,
    tables: &VerdictTables,
    stack: &mut Stack,
) -> Option<Slot>
    requires frames { IsStackOf l.now.profile stack.old }
    requires verdicts { HasVerdicts l.now.profile v.now }
    requires tables { AreTables l.now.profile v.now tables.now }
    ensures { (f : Finders) → HoldsFinders l.now v.now f →
        result ≡ first_of_stack (written l.now.profile) f stack.old }
{
    if finds_or(l, &v.ignore, &tables.ignore, stack.as_slice(), false) {
        return Some(Slot::Ignore);
    }
    if !finds_or(l, &v.focus, &tables.focus, stack.as_slice(), true) {
        return Some(Slot::Focus);
    }
    if hides_all(l, v, tables, stack.as_slice()) {
        return Some(Slot::Hide);
    }
    first_of_cut(l, v, stack)
}

// Whether the pattern finds a frame of the stack; the other answer where it isn't in force.
fn finds_or(
    l: &Loaded,
    found: &Option<List<bool>>,
    table: &Option<VerdictTable>,
    stack: &[Frame],
    otherwise: bool,
) -> bool
    requires frames { IsStackOf l.now.profile stack.now }
    requires fits { HasOnePerText l.now.profile found.now }
    requires table { FitsPattern l.now.profile found.now table.now }
    ensures { (pattern : Option Finder) → found.now ≡ judged l.now.profile pattern →
        result ≡ finds_or (written l.now.profile) pattern stack.now otherwise }
{
    match found {
        None => otherwise,
        Some(found) => finds_some(l, found, table, stack),
    }
}

// Whether hide is in force and finds each frame of a stack that has some.
fn hides_all(l: &Loaded, v: &Verdicts, tables: &VerdictTables, stack: &[Frame]) -> bool
    requires frames { IsStackOf l.now.profile stack.now }
    requires verdicts { HasVerdicts l.now.profile v.now }
    requires tables { AreTables l.now.profile v.now tables.now }
    ensures { (f : Finders) → HoldsFinders l.now v.now f →
        result ≡ is_emptied stack.now (not_hidden (written l.now.profile) f stack.now) }
{
    match &v.hide {
        None => false,
        Some(found) => !stack.is_empty() && finds_each(l, found, &tables.hide, stack),
    }
}

// Whether the pattern finds each frame of the stack.
fn finds_each(l: &Loaded, found: &List<bool>, table: &Option<VerdictTable>, stack: &[Frame]) -> bool
    requires frames { IsStackOf l.now.profile stack.now }
    requires fits { length found.now ≡ length l.now.profile.text }
    requires table { ForSome table.now (IsVerdictTable l.now.profile found.now) }
    ensures { (find : Finder) → AreVerdicts l.now.profile found.now find →
        result ≡ list_all (λ x. finds_frame find (written l.now.profile x)) stack.now }
{
    for place in 0..stack.len() {
        if !finds_some(l, found, table, &stack[place..place + 1]) {
            return false;
        }
    }
    true
}

// The filter after hide, which left a frame of a stack that had some.
fn first_of_cut(l: &Loaded, v: &Verdicts, stack: &mut Stack) -> Option<Slot>
    requires frames { IsStackOf l.now.profile stack.old }
    requires verdicts { HasVerdicts l.now.profile v.now }
    ensures { (f : Finders) → HoldsFinders l.now v.now f →
        is_emptied stack.old (not_hidden (written l.now.profile) f stack.old) ≡ false →
        result ≡ first_of_shown (written l.now.profile) f (not_hidden (written l.now.profile) f stack.old) }
{
    let was_empty = stack.len() == 0;
    cut(l, v, stack);
    if !was_empty && stack.len() == 0 {
        return Some(Slot::Show);
    }
    if !show_from(l, v, stack) {
        return Some(Slot::ShowFrom);
    }
    None
}

// The tag filter that is the first to drop the sample.
fn first_of_tags(scope: &Scope, s: &Sample) -> Option<Slot>
    requires sound { IsSoundScope scope.now }
    requires member { IsSampleOf scope.now.l.now.profile s.now }
    ensures { let w = scope.now in (f : Finders) →
        HoldsFilters w.l.now w.v.now w.config.now.filtering f →
        result ≡ first_of_tags w.l.now.profile f w.config.now.filtering s.now }
{
    let (l, v, filters) = (scope.l, scope.v, scope.filters);
    if !selects_or(l, &filters.tagfocus, &v.tag, &v.tagfocus, s, true) {
        return Some(Slot::TagFocus);
    }
    if selects_or(l, &filters.tagignore, &v.tag, &v.tagignore, s, false) {
        return Some(Slot::TagIgnore);
    }
    None
}

// Whether the filter selects the sample; the other answer where there is none.
fn selects_or(
    l: &Loaded,
    f: &Option<TagFilter>,
    tag: &List<Tag>,
    parts: &List<List<bool>>,
    s: &Sample,
    otherwise: bool,
) -> bool
    requires sample { IsSampleOf l.now.profile s.now }
    requires tags { HasItsTags l.now.profile tag.now f.now }
    ensures { (finders : TagFinders) → AreTagVerdicts l.now.profile tag.now f.now finders parts.now →
        result ≡ selects_or otherwise l.now.profile f.now finders s.now }
{
    match f {
        None => otherwise,
        Some(f) => selects(l, f, tag, parts, s),
    }
}
