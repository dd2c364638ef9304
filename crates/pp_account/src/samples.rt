//! One pass over the samples of a report.
ghost use Rattle.std.specs.Prelude.{◌≡◌, None, pos, not, ◌&&◌, is_some, IfOk};
ghost use Rattle.std.specs.Ordering.{int_eq};
ghost use Rattle.pp_model.specs.Conditions.{IsSampleOf, RefersTo};
ghost use Rattle.pp_model.specs.Finders.{Finders};
ghost use Rattle.pp_stack.specs.Filters.{has_no_items};
ghost use Rattle.pp_count.specs.Column.{selected};
ghost use Rattle.pp_count.specs.Scope.{AreCountable, IsSoundScope, config_of};
ghost use Rattle.pp_count.specs.Seeing.{HoldsFilters, filtered_stack};
ghost use Rattle.pp_account.specs.Adding.{with_sample_value};
ghost use Rattle.pp_account.specs.First.{first_filter};
ghost use Rattle.pp_account.specs.Portions.{is_bare, portions_of};

use crate::first::first_filter;
use crate::portions::Portions;
use pp_base::{List, Memory};
use pp_count::{Scope, Survey, sample_at, see, selected};
use pp_model::{Sample, Slot, Stack};
use std::alloc::Global;

// What is seen of one sample, in room that is used again.
#[derive(Drop)]
struct SampleRoom {
    // Its frames, as far as they are needed.
    stack: Stack,
    // The key numbers of its frames that count.
    keys: Vec<u64>,
}

/// Where the samples of the report end. `Err` is want of memory.
pub fn portions_of(alloc: Global, survey: &Survey<'_>) -> Result<Portions, Memory>
    ensures { (f : Finders) →
        HoldsFilters survey.now.l.now survey.now.v.now survey.now.config.now.filtering f →
        IfOk result (λ d. d ≡ portions_of survey.now.l.now.profile f survey.now.config.now
        survey.now.column survey.now.l.now.profile.sample) }
{
    let scope = Scope {
        l: survey.l,
        v: survey.v,
        config: survey.config,
        grouping: survey.config.grouping,
        filters: survey.filters(),
        column: survey.column,
        table: survey.table(),
        over: None,
        chosen: None,
    };
    add_samples(alloc, &scope)
}

// Where all samples of the scope end.
fn add_samples(alloc: Global, scope: &Scope) -> Result<Portions, Memory>
    requires sound { IsSoundScope scope.now }
    requires countable { AreCountable scope.now scope.now.l.now.profile.sample }
    requires whole { scope.now.chosen ≡ None }
    ensures { let w = scope.now in (f : Finders) →
        HoldsFilters w.l.now w.v.now w.config.now.filtering f →
        IfOk result (λ d. d
        ≡ portions_of w.l.now.profile f (config_of w) w.column w.l.now.profile.sample) }
{
    let mut room = SampleRoom {
        stack: List::new(alloc),
        keys: Vec::new(alloc),
    };
    let mut portions = Portions::none();
    for place in 0..scope.l.profile.get().sample.len() {
        let s = sample_at(scope, place);
        add_sample(scope, s, &mut room, &mut portions)?;
    }
    Ok(portions)
}

fn add_sample(
    scope: &Scope,
    s: &Sample,
    room: &mut SampleRoom,
    portions: &mut Portions,
) -> Result<(), Memory>
    requires sound { IsSoundScope scope.now }
    requires member { IsSampleOf scope.now.l.now.profile s.now }
    requires refers { RefersTo scope.now.l.now.profile s.now }
    ensures { let w = scope.now in (f : Finders) →
        HoldsFilters w.l.now w.v.now w.config.now.filtering f →
        IfOk result (λ _. portions.new
        ≡ with_sample_value (first_filter w.l.now.profile f w.config.now.filtering s.now)
        (is_bare w.l.now.profile f (config_of w) w.column s.now)
        (selected w.column w.config.now.presentation.divide_by s.now) portions.old) }
{
    let value = selected(
        scope.l,
        s,
        scope.column,
        scope.config.presentation.divide_by,
    );
    let is_kept = see(scope, s, &mut room.stack, &mut room.keys)?;
    let filter = filter_unless(scope, s, is_kept, &mut room.stack)?;
    portions.add(filter, is_bare(is_kept, value, &room.keys), value);
    Ok(())
}

// Whether a sample of this value, of which these keys were seen, is left without a frame.
fn is_bare(is_kept: bool, value: i64, keys: &Vec<u64>) -> bool
    ensures { result
        ≡ (is_kept && (not (int_eq value (pos 0)) && has_no_items keys.now.items)) }
{
    is_kept && (value != 0 && keys.len() == 0)
}

// The filter that is the first to drop the sample, None where it is known that all let it pass.
fn filter_unless(
    scope: &Scope,
    s: &Sample,
    is_kept: bool,
    stack: &mut Stack,
) -> Result<Option<Slot>, Memory>
    requires sound { IsSoundScope scope.now }
    requires member { IsSampleOf scope.now.l.now.profile s.now }
    requires refers { RefersTo scope.now.l.now.profile s.now }
    ensures { let w = scope.now in (f : Finders) →
        HoldsFilters w.l.now w.v.now w.config.now.filtering f →
        is_kept ≡ is_some (filtered_stack w.l.now.profile f w.config.now.filtering s.now) →
        IfOk result (λ slot. slot ≡ first_filter w.l.now.profile f w.config.now.filtering s.now) }
{
    if is_kept {
        return Ok(None);
    }
    first_filter(scope, s, stack)
}
