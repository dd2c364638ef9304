//! The patterns of a report.

ghost use Rattle.std.specs.Prelude.{◌≡◌, [], IfOk, unwrap_or};
ghost use Rattle.std.specs.Option.{option_copied};
ghost use Rattle.pp_model.specs.declared.verdicts.Slot.TheVariants.{Own};
ghost use Rattle.pp_desk.specs.Went.{Went};
ghost use Rattle.pp_desk.specs.Asking.{settled};
ghost use Rattle.pp_pattern.specs.Patterns.{judge_option};
ghost use Rattle.pp_pattern.specs.Report.{AreVerdictsOf, slot_refused, found_in, all_verdicts, judge, judge_with, verdicts_with, judge_frames, judge_tags, judge_filter, judge_names, verdicts_of, frames_found, tags_found, parts_found, names_found, tags_for};

use crate::asking::judge_option;
use crate::parts::judge_parts;
use crate::subjects::tag_texts;
use pp_base::{List, Memory, Text};
use pp_desk::{Desk, Halt, Stop, settle};
use pp_model::{Filtering, Loaded, Profile, Slot, Tag, Verdicts};
use pp_tags::{TagFilter, tags_of};
use std::alloc::Global;

/// The matcher refused the pattern of this option.
#[derive(Clone, Copy, Debug, PartialEq, Eq)]
pub struct PatternRefused {
    /// The option whose pattern it is, or `Own` for the pattern of a peek or list report.
    pub option: Slot,
}

/// What the patterns of frames find: for each, a verdict on each text of the profile, in their order, and `None` where
/// the pattern isn't in force.
#[derive(Debug, Drop)]
pub struct FrameVerdicts {
    /// A stack must have a frame that is found.
    pub focus: Option<List<bool>>,
    /// A stack may have no frame that is found.
    pub ignore: Option<List<bool>>,
    /// Frames that are found are left out.
    pub hide: Option<List<bool>>,
    /// Frames that are not found are left out.
    pub show: Option<List<bool>>,
    /// What lies above the frame nearest to the root that is found is left out.
    pub show_from: Option<List<bool>>,
}

/// What the parts of the tag filters find, in the order of the parts: of each text of the profile where the filter has
/// a name, else of each tag. A filter that isn't in force has no part.
#[derive(Debug, Drop)]
pub struct TagVerdicts {
    /// The tags of the profile, by rising key index, then rising text index; none where no filter is in force.
    pub tag: List<Tag>,
    /// A sample must have a label that is selected.
    pub tagfocus: List<List<bool>>,
    /// A sample may have no label that is selected.
    pub tagignore: List<List<bool>>,
}

/// What the other patterns find: for each, a verdict on each text of the profile, in their order, and `None` where the
/// pattern isn't in force.
#[derive(Debug, Drop)]
pub struct NameVerdicts {
    /// What lies below a frame that is found is left out.
    pub prune_from: Option<List<bool>>,
    /// Labels whose name is not found are left out.
    pub tagshow: Option<List<bool>>,
    /// Labels whose name is found are left out.
    pub taghide: Option<List<bool>>,
    /// What the pattern of a peek or list report finds.
    pub own: Option<List<bool>>,
}

// The tag filters of a report that are in force.
#[derive(Drop)]
struct TagFilters {
    focus: Option<TagFilter>,
    ignore: Option<TagFilter>,
}

/// Asks for the patterns of a report that aren't empty: focus, ignore, hide, show, show_from, the parts of tagfocus,
/// those of tagignore, prune_from, tagshow, taghide, and `own`, the pattern of a peek or list report. No pattern is
/// asked after one that is refused.
pub fn judge<D: Desk>(
    alloc: Global,
    desk: &mut D,
    filtering: &Filtering,
    own: Option<&Text>,
    l: &Loaded,
) -> Result<Result<Verdicts, PatternRefused>, Stop>
    ensures went { Went (D.world desk.old) (D.world desk.new)
        (judge D.finds filtering.now (option_copied own.entry) l.now.profile) result }
    ensures found { IfOk result (λ judged. IfOk judged
        (λ v. v ≡ verdicts_of D.finds filtering.now (option_copied own.entry) l.now.profile)) }
    ensures law { AreVerdictsOf D.finds filtering.now (option_copied own.entry) l.now
        (verdicts_of D.finds filtering.now (option_copied own.entry) l.now.profile) }
{
    settle(judge_all(alloc, desk, filtering, own, l))
}

// Asks for all patterns.
#[tactic(auto, using(pp_desk::proofs::AskingLemmas::asking))]
fn judge_all<D: Desk>(
    alloc: Global,
    desk: &mut D,
    filtering: &Filtering,
    own: Option<&Text>,
    l: &Loaded,
) -> Result<Verdicts, Halt<PatternRefused>>
    ensures went { Went (D.world desk.old) (D.world desk.new)
        (judge D.finds filtering.now (option_copied own.entry) l.now.profile) (settled result) }
    ensures found { IfOk result
        (λ v. v ≡ verdicts_of D.finds filtering.now (option_copied own.entry) l.now.profile) }
{
    let focus = TagFilter::in_force(alloc, filtering.tagfocus.as_slice())?;
    let ignore = TagFilter::in_force(alloc, filtering.tagignore.as_slice())?;
    let filters = TagFilters { focus, ignore };
    judge_with(alloc, desk, filtering, own, l, &filters)
}

// Asks for all patterns, with these tag filters.
#[tactic(auto, using(pp_desk::proofs::AskingLemmas::asking), unfolding(crate::specs::Report::judge_with))]
fn judge_with<D: Desk>(
    alloc: Global,
    desk: &mut D,
    filtering: &Filtering,
    own: Option<&Text>,
    l: &Loaded,
    filters: &TagFilters,
) -> Result<Verdicts, Halt<PatternRefused>>
    ensures went { Went (D.world desk.old) (D.world desk.new)
        (judge_with D.finds filtering.now (option_copied own.entry) l.now.profile filters.now.focus
        filters.now.ignore) (settled result) }
    ensures found { IfOk result
        (λ v. v ≡ verdicts_with D.finds filtering.now (option_copied own.entry)
        l.now.profile filters.now.focus filters.now.ignore) }
{
    let texts = &l.profile.get().text;
    let frames = judge_frames(desk, filtering, texts)?;
    let tags = judge_tags(alloc, desk, l, filters)?;
    let names = judge_names(desk, filtering, own, texts)?;
    Ok(all_verdicts(frames, tags, names))
}

// The verdicts of the patterns of frames.
#[tactic(auto, using(pp_desk::proofs::AskingLemmas::asking), unfolding(crate::specs::Report::judge_frames))]
fn judge_frames<D: Desk>(
    desk: &mut D,
    filtering: &Filtering,
    texts: &List<Text>,
) -> Result<FrameVerdicts, Halt<PatternRefused>>
    ensures went { Went (D.world desk.old) (D.world desk.new)
        (judge_frames D.finds filtering.now texts.now) (settled result) }
    ensures found { IfOk result (λ v. v ≡ frames_found D.finds filtering.now texts.now) }
{
    let focus = judge_option(desk, at(Slot::Focus), &filtering.focus, texts)?;
    let ignore = judge_option(desk, at(Slot::Ignore), &filtering.ignore, texts)?;
    let hide = judge_option(desk, at(Slot::Hide), &filtering.hide, texts)?;
    let show = judge_option(desk, at(Slot::Show), &filtering.show, texts)?;
    let show_from = judge_option(desk, at(Slot::ShowFrom), &filtering.show_from, texts)?;
    Ok(FrameVerdicts {
        focus,
        ignore,
        hide,
        show,
        show_from,
    })
}

// The refusal of an option's pattern.
fn at(option: Slot) -> PatternRefused
    ensures { result ≡ slot_refused option }
{
    PatternRefused { option }
}

// The tags where a filter is in force, and the verdicts of the filters' parts.
#[tactic(auto, using(pp_desk::proofs::AskingLemmas::asking), unfolding(crate::specs::Report::judge_tags))]
fn judge_tags<D: Desk>(
    alloc: Global,
    desk: &mut D,
    l: &Loaded,
    filters: &TagFilters,
) -> Result<TagVerdicts, Halt<PatternRefused>>
    ensures went { Went (D.world desk.old) (D.world desk.new)
        (judge_tags D.finds l.now.profile filters.now.focus filters.now.ignore) (settled result) }
    ensures found { IfOk result
        (λ v. v ≡ tags_found D.finds l.now.profile filters.now.focus filters.now.ignore) }
{
    let p = l.profile.get();
    let tag = tags_for(alloc, l, filters)?;
    let tagfocus = judge_filter(alloc, desk, Slot::TagFocus, p, &tag, &filters.focus)?;
    let tagignore = judge_filter(alloc, desk, Slot::TagIgnore, p, &tag, &filters.ignore)?;
    Ok(TagVerdicts {
        tag,
        tagfocus,
        tagignore,
    })
}

// The profile's tags, where a filter is in force.
fn tags_for(alloc: Global, l: &Loaded, filters: &TagFilters) -> Result<List<Tag>, Memory>
    ensures { IfOk result
        (λ tags. tags ≡ tags_for l.now.profile filters.now.focus filters.now.ignore) }
{
    match (&filters.focus, &filters.ignore) {
        (None, None) => Ok(List::new(alloc)),
        _ => tags_of(alloc, l),
    }
}

// The verdicts of a filter's parts, where it is in force.
#[tactic(auto, using(pp_desk::proofs::AskingLemmas::asking), unfolding(crate::specs::Report::judge_filter))]
fn judge_filter<D: Desk>(
    alloc: Global,
    desk: &mut D,
    slot: Slot,
    p: &Profile,
    tags: &List<Tag>,
    filter: &Option<TagFilter>,
) -> Result<List<List<bool>>, Halt<PatternRefused>>
    ensures went { Went (D.world desk.old) (D.world desk.new)
        (judge_filter D.finds slot p.now tags.now filter.now) (settled result) }
    ensures found { IfOk result (λ found. found ≡ parts_found D.finds p.now tags.now filter.now) }
{
    let Some(filter) = filter else {
        return Ok(List::new(alloc));
    };
    if filter.name.len() > 0 {
        return judge_parts(alloc, desk, at(slot), &filter.parts, &p.text);
    }
    let texts = tag_texts(alloc, p, tags.as_slice())?;
    judge_parts(alloc, desk, at(slot), &filter.parts, &texts)
}

// The verdicts of the other patterns.
#[tactic(auto, using(pp_desk::proofs::AskingLemmas::asking), unfolding(crate::specs::Report::judge_names))]
fn judge_names<D: Desk>(
    desk: &mut D,
    filtering: &Filtering,
    own: Option<&Text>,
    texts: &List<Text>,
) -> Result<NameVerdicts, Halt<PatternRefused>>
    ensures went { Went (D.world desk.old) (D.world desk.new)
        (judge_names D.finds filtering.now (option_copied own.entry) texts.now) (settled result) }
    ensures found { IfOk result
        (λ v. v ≡ names_found D.finds filtering.now (option_copied own.entry) texts.now) }
{
    let prune_from = judge_option(desk, at(Slot::PruneFrom), &filtering.prune_from, texts)?;
    let tagshow = judge_option(desk, at(Slot::TagShow), &filtering.tagshow, texts)?;
    let taghide = judge_option(desk, at(Slot::TagHide), &filtering.taghide, texts)?;
    let own = judge_own(desk, own, texts)?;
    Ok(NameVerdicts {
        prune_from,
        tagshow,
        taghide,
        own,
    })
}

// The verdicts of the report's own pattern, if it has one.
#[tactic(auto, using(pp_desk::proofs::AskingLemmas::asking), unfolding(crate::specs::Patterns::judge_option))]
fn judge_own<D: Desk>(
    desk: &mut D,
    own: Option<&Text>,
    texts: &List<Text>,
) -> Result<Option<List<bool>>, Halt<PatternRefused>>
    ensures went { Went (D.world desk.old) (D.world desk.new)
        (judge_option D.finds (slot_refused Own) texts.now (unwrap_or (option_copied own.entry) []))
        (settled result) }
    ensures found { IfOk result (λ found. found
        ≡ found_in D.finds texts.now (unwrap_or (option_copied own.entry) [])) }
{
    match own {
        None => Ok(None),
        Some(pattern) => judge_option(desk, at(Slot::Own), pattern, texts),
    }
}

fn all_verdicts(frames: FrameVerdicts, tags: TagVerdicts, names: NameVerdicts) -> Verdicts
    ensures { result ≡ all_verdicts frames tags names }
{
    Verdicts {
        focus: frames.focus,
        ignore: frames.ignore,
        hide: frames.hide,
        show: frames.show,
        show_from: frames.show_from,
        prune_from: names.prune_from,
        tagshow: names.tagshow,
        taghide: names.taghide,
        own: names.own,
        tag: tags.tag,
        tagfocus: tags.tagfocus,
        tagignore: tags.tagignore,
    }
}
