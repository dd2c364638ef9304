//! Which names the own pattern of a report finds.
ghost use Rattle.std.specs.Prelude.{◌≡◌, map, slice_index_or, Some, IfOk, IfErr, true, false};
ghost use Rattle.std.specs.List.{list_any};
ghost use Rattle.pp_model.specs.Finders.{Finders};
ghost use Rattle.pp_grain.specs.Keys.{key_written};
ghost use Rattle.pp_count.specs.Counted.{has_own_match};
ghost use Rattle.pp_count.specs.Seeing.{HoldsFilters};
ghost use Rattle.pp_tree.specs.Found.{keeps_function};
ghost use Rattle.pp_tree.specs.Peek.{is_found_key};

use crate::own::found_by_frames;
use pp_base::{List, MatchRefusal, Memory};
use pp_count::Survey;
use pp_grain::Names;
use pp_model::Grain;
use std::alloc::Global;

/// For each name whether the own pattern finds the function of a frame that counts and has the name's key. `NoMatch`
/// says that it finds none of any frame.
pub fn found_names(alloc: Global, survey: &Survey<'_>) -> Result<List<bool>, MatchRefusal>
    ensures found { (f : Finders) →
        HoldsFilters survey.now.l.now survey.now.v.now survey.now.config.now.filtering f →
        IfOk result (λ found. found ≡ map (λ key. is_found_key survey.now.l.now.profile f
        survey.now.config.now survey.now.column (key_written survey.now.l.now.profile key))
        survey.now.counted.now.sums.names) }
    ensures some { (f : Finders) →
        HoldsFilters survey.now.l.now survey.now.v.now survey.now.config.now.filtering f →
        IfOk result (λ _. has_own_match survey.now.l.now.profile f survey.now.config.now
        survey.now.column ≡ true) }
    ensures none { (f : Finders) →
        HoldsFilters survey.now.l.now survey.now.v.now survey.now.config.now.filtering f →
        IfErr result (λ e. e ≡ MatchRefusal.NoMatch →
        has_own_match survey.now.l.now.profile f survey.now.config.now
        survey.now.column ≡ false) }
{
    let Some(own) = &survey.v.own else {
        return Err(MatchRefusal::NoMatch);
    };
    let found = marked_names(alloc, survey, own)?;
    if !has_mark(found.as_slice()) {
        return Err(MatchRefusal::NoMatch);
    }
    Ok(found)
}

// Whether one of the marks is set.
fn has_mark(marks: &[bool]) -> bool
    ensures { result ≡ list_any (λ mark. mark) marks.now }
{
    marks.iter().any(|mark| *mark)
}

// For each name whether the pattern finds it: by its function where it has one.
fn marked_names(alloc: Global, survey: &Survey<'_>, own: &List<bool>) -> Result<List<bool>, Memory>
    requires { survey.now.v.now.own ≡ Some own.now }
    ensures { (f : Finders) →
        HoldsFilters survey.now.l.now survey.now.v.now survey.now.config.now.filtering f →
        IfOk result (λ found. found ≡ map (λ key. is_found_key survey.now.l.now.profile f
        survey.now.config.now survey.now.column (key_written survey.now.l.now.profile key))
        survey.now.counted.now.sums.names) }
{
    if keeps_function(survey.config.grouping.grain) {
        found_by_functions(alloc, own.as_slice(), &survey.counted.sums.names)
    } else {
        found_by_frames(alloc, survey, own)
    }
}

// Whether a key of the grain has its frames' function.
fn keeps_function(grain: Grain) -> bool
    ensures { result ≡ keeps_function grain }
{
    match grain {
        Grain::Functions | Grain::FileFunctions | Grain::Lines | Grain::Addresses => true,
        Grain::Files => false,
    }
}

// For each name the verdict on its function.
fn found_by_functions(alloc: Global, own: &[bool], names: &Names) -> Result<List<bool>, Memory>
    ensures { IfOk result (λ found.
        found ≡ map (λ key. slice_index_or own.now key.function false) names.now) }
{
    let mut found = List::new(alloc);
    for number in 0..names.len() {
        found.push(verdict_on(own, names.key(number).function))?;
    }
    Ok(found)
}

fn verdict_on(own: &[bool], text: u64) -> bool
    ensures { result ≡ slice_index_or own.now text false }
{
    match own.get(text as usize) {
        Some(found) => *found,
        None => false,
    }
}
