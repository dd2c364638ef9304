//! Which names the own pattern of a report finds, asked frame by frame.
ghost use Rattle.std.specs.Prelude.{◌≡◌, ◌||◌, ◌<◌, length, map, slice_index_or, slice_get, All, Some, IfOk, true, false};
ghost use Rattle.std.specs.List.{list_any};
ghost use Rattle.std.specs.Option.{option_map_or};
ghost use Rattle.pp_model.specs.Conditions.{IsFrameOf, IsStackOf};
ghost use Rattle.pp_model.specs.Finders.{Finder, Finders, HoldsFinders};
ghost use Rattle.pp_model.specs.FrameTexts.{Written, written};
ghost use Rattle.pp_grain.specs.Keys.{key_written, IsKeyOf};
ghost use Rattle.pp_grain.specs.Sight.{same_key};
ghost use Rattle.pp_stack.specs.Filters.{AreVerdicts};
ghost use Rattle.pp_stack.specs.Tables.{AreTables};
ghost use Rattle.pp_count.specs.Seeing.{HoldsFilters};
ghost use Rattle.pp_tree.specs.Peek.{is_found_key};
ghost use Rattle.pp_tree.specs.Found.{holds_key, has_own_frame, has_own_number, is_own_at, no_frame, CanAsk};

use indexmap::IndexSet;
use pp_base::{List, Memory};
use pp_count::{Survey, selected};
use pp_grain::{Key, Names, counted, key_of};
use pp_keys::HashKeys;
use pp_model::{Config, Frame, Loaded, Stack, Verdicts, function_of};
use pp_stack::{VerdictTables, filter_into};
use std::alloc::Global;

/// How samples are seen, with the verdicts of the own pattern of a report.
#[derive(Clone, Copy)]
pub struct PeekScope<'a> {
    /// The profile.
    pub l: &'a Loaded,
    /// What the patterns of the report find of its texts.
    pub v: &'a Verdicts,
    /// The own pattern's verdicts on texts.
    pub own: &'a List<bool>,
    /// The variables of the report, by which the samples were counted.
    pub config: &'a Config,
    /// The column of values that is counted.
    pub column: Option<u32>,
}

/// For each name whether the own pattern finds the function of a frame that counts and has the name's key. `own` has
/// the pattern's verdicts. Goes over all samples that the filters leave.
pub fn found_by_frames(
    alloc: Global,
    survey: &Survey<'_>,
    own: &List<bool>,
) -> Result<List<bool>, Memory>
    requires { survey.now.v.now.own ≡ Some own.now }
    ensures { (f : Finders) →
        HoldsFilters survey.now.l.now survey.now.v.now survey.now.config.now.filtering f →
        IfOk result (λ found. found ≡ map (λ key. is_found_key survey.now.l.now.profile f
        survey.now.config.now survey.now.column (key_written survey.now.l.now.profile key))
        survey.now.counted.now.sums.names) }
{
    let (l, v, counted) = (survey.l, survey.v, survey.counted);
    let _compact = l.profile.get();
    let asked = PeekScope {
        l,
        v,
        own,
        config: survey.config,
        column: survey.column,
    };
    let tables = &survey.filters().tables;
    let keys = own_keys(
        alloc,
        survey.hash_keys(),
        &asked,
        tables,
        counted.kept.as_slice(),
    )?;
    marks(alloc, &counted.sums.names, &keys)
}

// The keys of the frames that count and that the pattern finds, over the samples of these numbers whose value isn't 0.
fn own_keys(
    alloc: Global,
    hash_keys: HashKeys,
    asked: &PeekScope<'_>,
    tables: &VerdictTables,
    kept: &[u32],
) -> Result<IndexSet<Key, HashKeys>, Memory>
    requires can { CanAsk asked.now }
    requires tables { AreTables asked.now.l.now.profile asked.now.v.now tables.now }
    ensures of_profile { IfOk result (λ keys. All (IsKeyOf asked.now.l.now.profile) keys.keys) }
    ensures found { (f : Finders) (find : Finder) → HoldsFinders asked.now.l.now asked.now.v.now f →
        AreVerdicts asked.now.l.now.profile asked.now.own.now find →
        IfOk result (λ keys. (k : Written) → holds_key asked.now.l.now.profile keys.keys k
        ≡ list_any (has_own_number asked.now.l.now.profile f asked.now.config.now asked.now.column find k)
        kept.now) }
{
    let mut stack = List::new(alloc);
    let mut keys = IndexSet::with_hasher(alloc, hash_keys);
    for number in kept {
        add_sample(asked, tables, *number, &mut stack, &mut keys)?;
    }
    Ok(keys)
}

// Adds the keys of the sample with the number, if it is there. The stack is room for its frames.
fn add_sample(
    asked: &PeekScope<'_>,
    tables: &VerdictTables,
    number: u32,
    stack: &mut Stack,
    keys: &mut IndexSet<Key, HashKeys>,
) -> Result<(), Memory>
    requires can { CanAsk asked.now }
    requires tables { AreTables asked.now.l.now.profile asked.now.v.now tables.now }
    ensures of_profile { All (IsKeyOf asked.now.l.now.profile) keys.old.keys →
        IfOk result (λ _. All (IsKeyOf asked.now.l.now.profile) keys.new.keys) }
    ensures found { (f : Finders) (find : Finder) → HoldsFinders asked.now.l.now asked.now.v.now f →
        AreVerdicts asked.now.l.now.profile asked.now.own.now find →
        IfOk result (λ _. (k : Written) → holds_key asked.now.l.now.profile keys.new.keys k
        ≡ (holds_key asked.now.l.now.profile keys.old.keys k
        || has_own_number asked.now.l.now.profile f asked.now.config.now asked.now.column find k number)) }
{
    let samples = asked.l.profile.get().sample.as_slice();
    let Some(sample) = samples.get(number as usize) else {
        return Ok(());
    };
    if selected(
        asked.l,
        sample,
        asked.column,
        asked.config.presentation.divide_by,
    ) == 0
    {
        return Ok(());
    }
    if !filter_into(asked.l, asked.v, tables, sample, stack)? {
        return Ok(());
    }
    add_stack(asked, stack, keys)
}

fn add_stack(
    asked: &PeekScope<'_>,
    stack: &Stack,
    keys: &mut IndexSet<Key, HashKeys>,
) -> Result<(), Memory>
    requires can { CanAsk asked.now }
    requires frames { IsStackOf asked.now.l.now.profile stack.now }
    ensures of_profile { All (IsKeyOf asked.now.l.now.profile) keys.old.keys →
        IfOk result (λ _. All (IsKeyOf asked.now.l.now.profile) keys.new.keys) }
    ensures found { (find : Finder) → AreVerdicts asked.now.l.now.profile asked.now.own.now find →
        IfOk result (λ _. (k : Written) → holds_key asked.now.l.now.profile keys.new.keys k
        ≡ (holds_key asked.now.l.now.profile keys.old.keys k
        || has_own_frame asked.now.l.now.profile asked.now.config.now.grouping find k stack.now)) }
{
    for place in 0..stack.len() {
        add_frame(asked, stack, place, keys)?;
    }
    Ok(())
}

// Adds the key of the frame at the place, if it counts and the pattern finds it.
fn add_frame(
    asked: &PeekScope<'_>,
    stack: &Stack,
    place: usize,
    keys: &mut IndexSet<Key, HashKeys>,
) -> Result<(), Memory>
    requires can { CanAsk asked.now }
    requires place { place < length stack.now }
    requires frames { IsStackOf asked.now.l.now.profile stack.now }
    ensures of_profile { All (IsKeyOf asked.now.l.now.profile) keys.old.keys →
        IfOk result (λ _. All (IsKeyOf asked.now.l.now.profile) keys.new.keys) }
    ensures found { (find : Finder) → AreVerdicts asked.now.l.now.profile asked.now.own.now find →
        IfOk result (λ _. (k : Written) → holds_key asked.now.l.now.profile keys.new.keys k
        ≡ (holds_key asked.now.l.now.profile keys.old.keys k
        || is_own_at asked.now.l.now.profile asked.now.config.now.grouping find k stack.now
        place)) }
{
    let config = asked.config;
    let frame = &stack.as_slice()[place];
    if !counted(stack, place, config.grouping.noinlines) {
        return Ok(());
    }
    if !is_own(asked, frame) {
        return Ok(());
    }
    let key = key_of(
        asked.l,
        frame,
        config.grouping.grain,
        config.grouping.showcolumns,
    );
    keys.insert(key)?;
    Ok(())
}

// Whether the pattern finds the frame's function.
fn is_own(asked: &PeekScope<'_>, frame: &Frame) -> bool
    requires can { CanAsk asked.now }
    requires frame { IsFrameOf asked.now.l.now.profile frame.now }
    ensures { (find : Finder) → AreVerdicts asked.now.l.now.profile asked.now.own.now find →
        result ≡ find (written asked.now.l.now.profile frame.now).function }
{
    asked.own.as_slice()[function_of(asked.l, frame) as usize]
}

// For each name whether it is one of these keys.
fn marks(alloc: Global, names: &Names, keys: &IndexSet<Key, HashKeys>) -> Result<List<bool>, Memory>
    ensures { IfOk result (λ marks.
        marks ≡ map (λ key. list_any (same_key key) keys.now.keys) names.now) }
{
    let mut marks = List::new(alloc);
    for number in 0..names.len() {
        let key = names.key(number);
        marks.push(keys.contains(&key))?;
    }
    Ok(marks)
}
