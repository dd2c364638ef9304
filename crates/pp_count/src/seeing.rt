//! A sample as a report sees it, by key numbers.
ghost use Rattle.std.specs.Prelude.{◌≡◌, ◌++◌, ◌<◌, [], false, length, map, slice_index_or, All, IfOk, option_map};
ghost use Rattle.pp_model.specs.Conditions.{IsFrameOf, IsStackOf, IsSampleOf, RefersTo};
ghost use Rattle.pp_model.specs.Finders.{Finders};
ghost use Rattle.pp_model.specs.Frames.{stack_of};
ghost use Rattle.pp_stack.specs.Runs.{kept_if};
ghost use Rattle.pp_count.specs.Table.{written_key, IsKeyTable};
ghost use Rattle.pp_count.specs.Seeing.{HoldsFilters, key_of_frame, keys_of_stack, filtered_stack};
ghost use Rattle.pp_count.specs.Scope.{IsSoundScope};

use crate::scope::Scope;
use pp_base::Memory;
use pp_grain::counted;
use pp_model::{Frame, Sample, Stack};
use pp_stack::{cuts_nothing, filter_into, keeps_sample};
use pp_tags::tag_kept;

/// The key numbers of the sample's counted frames, leaf first, in the place of what `keys` held. False says that the
/// filters drop the sample. `stack` is room for its frames, to be used again for the next sample.
pub fn see(
    scope: &Scope,
    s: &Sample,
    stack: &mut Stack,
    keys: &mut Vec<u64>,
) -> Result<bool, Memory>
    requires sound { IsSoundScope scope.now }
    requires member { IsSampleOf scope.now.l.now.profile s.now }
    requires refers { RefersTo scope.now.l.now.profile s.now }
    ensures below { IfOk result (λ _.
        All (λ k. k < length scope.now.table.now.names) keys.new.items) }
    ensures seen { (f : Finders) →
        HoldsFilters scope.now.l.now scope.now.v.now scope.now.config.now.filtering f →
        IfOk result (λ kept. option_map (keys_of_stack scope.now.l.now.profile scope.now.grouping)
        (filtered_stack scope.now.l.now.profile f scope.now.config.now.filtering s.now)
        ≡ kept_if kept (map (written_key scope.now.l.now.profile scope.now.table.now.names)
        keys.new.items)) }
{
    keys.clear();
    let filters = scope.filters;
    if !tag_kept(scope.l, scope.v, &filters.tagfocus, &filters.tagignore, s) {
        return Ok(false);
    }
    if !scope.grouping.noinlines && cuts_nothing(scope.l, scope.v) {
        if !keeps_sample(scope.l, scope.v, &filters.tables, s) {
            return Ok(false);
        }
        number_all(scope, s, keys)?;
        return Ok(true);
    }
    if !filter_into(scope.l, scope.v, &filters.tables, s, stack)? {
        return Ok(false);
    }
    number_stack(scope, stack, keys)?;
    Ok(true)
}

// Adds the key numbers of all frames of the sample, leaf first. No stack is made for it.
fn number_all(scope: &Scope, s: &Sample, keys: &mut Vec<u64>) -> Result<(), Memory>
    requires refers { RefersTo scope.now.l.now.profile s.now }
    requires table { IsKeyTable scope.now.l.now.profile scope.now.grouping scope.now.table.now }
    requires all { scope.now.grouping.noinlines ≡ false }
    requires none { keys.old.items ≡ [] }
    ensures below { IfOk result (λ _.
        All (λ k. k < length scope.now.table.now.names) keys.new.items) }
    ensures named { IfOk result (λ _.
        map (written_key scope.now.l.now.profile scope.now.table.now.names) keys.new.items
        ≡ keys_of_stack scope.now.l.now.profile scope.now.grouping
        (stack_of scope.now.l.now.profile s.now)) }
{
    // Each id is a place plus 1.
    let _compact = scope.l.profile.get();
    for id in s.location_id.as_slice() {
        scope.table.location.add_to((*id - 1) as usize, keys)?;
    }
    Ok(())
}

// Adds the key numbers of the frames that count, leaf first.
fn number_stack(scope: &Scope, stack: &Stack, keys: &mut Vec<u64>) -> Result<(), Memory>
    requires frames { IsStackOf scope.now.l.now.profile stack.now }
    requires table { IsKeyTable scope.now.l.now.profile scope.now.grouping scope.now.table.now }
    requires none { keys.old.items ≡ [] }
    ensures below { IfOk result (λ _.
        All (λ k. k < length scope.now.table.now.names) keys.new.items) }
    ensures named { IfOk result (λ _.
        map (written_key scope.now.l.now.profile scope.now.table.now.names) keys.new.items
        ≡ keys_of_stack scope.now.l.now.profile scope.now.grouping stack.now) }
{
    let frames = stack.as_slice();
    for (place, frame) in frames.iter().enumerate() {
        if counted(stack, place, scope.grouping.noinlines) {
            let number = number_of(scope, frame);
            keys.push(number)?;
        }
    }
    Ok(())
}

// The number of the frame's key.
fn number_of(scope: &Scope, frame: &Frame) -> u64
    requires frame { IsFrameOf scope.now.l.now.profile frame.now }
    requires table { IsKeyTable scope.now.l.now.profile scope.now.grouping scope.now.table.now }
    ensures below { result < length scope.now.table.now.names }
    ensures named { written_key scope.now.l.now.profile scope.now.table.now.names result
        ≡ key_of_frame scope.now.l.now.profile scope.now.grouping frame.now }
{
    let row = scope.table.location.row(frame.location as usize);
    item(row, frame.row.unwrap_or(0))
}

fn item(row: &[u32], place: u64) -> u64
    requires { place < length row.now }
    ensures { result ≡ slice_index_or row.now place 0 }
{
    u64::from(row[place as usize])
}
