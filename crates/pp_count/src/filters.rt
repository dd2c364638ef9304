//! The filters of a report, made ready for its samples.
ghost use Rattle.std.specs.Prelude.{◌≡◌, IfOk, Option, List as Seq, Bool};
ghost use Rattle.std.specs.List.{list_any};
ghost use Rattle.pp_model.specs.Conditions.{HasVerdicts};
ghost use Rattle.pp_tags.specs.TagFilters.{HasItsTags, filter_in_force};
ghost use Rattle.pp_model.specs.declared.profile.Profile.{Profile};
ghost use Rattle.pp_model.specs.declared.verdicts.Verdicts.{Verdicts};
ghost use Rattle.pp_stack.specs.Tables.{AreTables, FitsPattern};
ghost use Rattle.pp_count.specs.Filters.{AreFilters, AreReached, IsReach};

use pp_base::Memory;
use pp_model::{Filtering, Loaded, Verdicts};
use pp_stack::{VerdictTable, VerdictTables};
use pp_tags::TagFilter;
use std::alloc::Global;

/// What is read once of the options and the verdicts, and asked of each sample.
#[derive(Drop)]
pub struct Filters {
    /// The filter of `tagfocus`, where it is in force.
    pub tagfocus: Option<TagFilter>,
    /// The filter of `tagignore`, where it is in force.
    pub tagignore: Option<TagFilter>,
    /// What the patterns on frames find of each line.
    pub tables: VerdictTables,
    /// Which of those patterns may find a line.
    pub reach: PatternReach,
}

/// For each pattern on frames, whether it may find a line of the profile. One that finds none has no match, and isn't
/// searched for.
#[derive(Clone, Copy)]
pub struct PatternReach {
    /// Whether `focus` may; true where it isn't in force or has no table.
    pub focus: bool,
    /// Whether `ignore` may; true where it isn't in force or has no table.
    pub ignore: bool,
    /// Whether `hide` may; true where it isn't in force or has no table.
    pub hide: bool,
    /// Whether `show` may; true where it isn't in force or has no table.
    pub show: bool,
    /// Whether `show_from` may; true where it isn't in force or has no table.
    pub show_from: bool,
}

impl Filters {
    /// The filters with a table for each pattern in force, for all samples of the profile. `Err` is want of memory.
    pub fn new(
        alloc: Global,
        l: &Loaded,
        v: &Verdicts,
        filtering: &Filtering,
    ) -> Result<Filters, Memory>
        requires verdicts { HasVerdicts l.now.profile v.now }
        requires focus { HasItsTags l.now.profile v.now.tag
            (filter_in_force filtering.now.tagfocus) }
        requires ignore { HasItsTags l.now.profile v.now.tag
            (filter_in_force filtering.now.tagignore) }
        ensures { IfOk result (AreFilters l.now.profile v.now filtering.now) }
    {
        let tags = tag_filters(alloc, filtering)?;
        let tables = VerdictTables::new(alloc, l, v)?;
        Ok(with_tables(tags, tables))
    }

    /// The filters without tables, which are not worth their making for a few samples. `Err` is want of memory.
    pub fn without_tables(
        alloc: Global,
        l: &Loaded,
        v: &Verdicts,
        filtering: &Filtering,
    ) -> Result<Filters, Memory>
        requires focus { HasItsTags l.now.profile v.now.tag
            (filter_in_force filtering.now.tagfocus) }
        requires ignore { HasItsTags l.now.profile v.now.tag
            (filter_in_force filtering.now.tagignore) }
        ensures { IfOk result (AreFilters l.now.profile v.now filtering.now) }
    {
        let tags = tag_filters(alloc, filtering)?;
        Ok(with_tables(tags, VerdictTables::none()))
    }
}

// The filters of `tagfocus` and of `tagignore`.
type TagFilterPair = (Option<TagFilter>, Option<TagFilter>);

// The tag filters, each where it is in force.
fn tag_filters(alloc: Global, filtering: &Filtering) -> Result<TagFilterPair, Memory>
    ensures focus { IfOk result (λ tags. tags.0 ≡ filter_in_force filtering.now.tagfocus) }
    ensures ignore { IfOk result (λ tags. tags.1 ≡ filter_in_force filtering.now.tagignore) }
{
    let tagfocus = TagFilter::in_force(alloc, filtering.tagfocus.as_slice())?;
    let tagignore = TagFilter::in_force(alloc, filtering.tagignore.as_slice())?;
    Ok((tagfocus, tagignore))
}

// The tag filters with these tables.
fn with_tables(tags: TagFilterPair, tables: VerdictTables) -> Filters
    ensures focus { result.tagfocus ≡ tags.0 }
    ensures ignore { result.tagignore ≡ tags.1 }
    ensures tables { result.tables ≡ tables }
    ensures reach { (p : Profile) → (v : Verdicts) → AreTables p v tables →
        AreReached p v result.reach }
{
    let reach = reach_of(&tables);
    Filters {
        tagfocus: tags.0,
        tagignore: tags.1,
        tables,
        reach,
    }
}

// Which of the patterns may find a line, by these tables.
fn reach_of(tables: &VerdictTables) -> PatternReach
    ensures { (p : Profile) → (v : Verdicts) → AreTables p v tables.now → AreReached p v result }
{
    PatternReach {
        focus: reaches(&tables.focus),
        ignore: reaches(&tables.ignore),
        hide: reaches(&tables.hide),
        show: reaches(&tables.show),
        show_from: reaches(&tables.show_from),
    }
}

// Whether a pattern may find a line. Without a table that isn't known.
fn reaches(table: &Option<VerdictTable>) -> bool
    ensures { (p : Profile) → (texts : Option (Seq Bool)) → FitsPattern p texts table.now →
        IsReach p texts result }
{
    match table {
        None => true,
        Some(table) => finds_line(table),
    }
}

// Whether the table's pattern finds a line.
fn finds_line(table: &VerdictTable) -> bool
    ensures { result ≡ list_any (λ found. found) table.now.found }
{
    table.found.as_slice().iter().any(|found| *found)
}
