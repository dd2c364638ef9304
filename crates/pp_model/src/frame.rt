//! The frames of a sample's stack.
ghost use Rattle.std.specs.Prelude.{◌≡◌, ◌++◌, ◌+◌, ◌<◌, [], length, map, IfOk};
ghost use Rattle.pp_model.specs.Rules.{IsCompact};
ghost use Rattle.pp_model.specs.Conditions.{RefersTo, IsStackOf};
ghost use Rattle.pp_model.specs.Frames.{stack_of, rows, lines_at};
ghost use Rattle.pp_model.specs.FrameTexts.{StandsFor, written, written_at};

use crate::loaded::Loaded;
use crate::profile::{Profile, Sample};
use pp_base::{List, Memory};
use std::alloc::Global;

/// One frame: a line of a location, or a location without lines.
#[derive(Clone, Copy, Debug, PartialEq, Eq)]
pub struct Frame {
    /// The place in the sample's list of locations, 0 for the leaf.
    pub place: u64,
    /// The location's index.
    pub location: u64,
    /// Which of the location's lines, and None where it has none.
    pub row: Option<u64>,
}

/// Frames, leaf first.
pub type Stack = List<Frame>;

/// The stack of a sample, leaf first: for each location its lines in order, or one frame without a row. `Err` is want
/// of memory.
pub fn frames(alloc: Global, l: &Loaded, s: &Sample) -> Result<Stack, Memory>
    requires { RefersTo l.now.profile s.now }
    ensures places { IfOk result (λ stack. stack ≡ stack_of l.now.profile s.now) }
    ensures texts { IfOk result (λ stack. StandsFor l.now.profile stack s.now) }
    ensures of_profile { IfOk result (λ stack. IsStackOf l.now.profile stack) }
{
    // Most locations have one line.
    let mut stack = List::from_vec(Vec::with_capacity(alloc, s.location_id.len())?);
    frames_into(l, s, &mut stack)?;
    Ok(stack)
}

/// Puts the frames of a sample, leaf first, in the place of what the stack held. `Err` is want of memory.
pub fn frames_into(l: &Loaded, s: &Sample, stack: &mut Stack) -> Result<(), Memory>
    requires { RefersTo l.now.profile s.now }
    ensures places { IfOk result (λ _. stack.new ≡ stack_of l.now.profile s.now) }
    ensures texts { IfOk result (λ _. StandsFor l.now.profile stack.new s.now) }
    ensures of_profile { IfOk result (λ _. IsStackOf l.now.profile stack.new) }
{
    stack.truncate(0);
    push_frames(l.profile.get(), s, stack)
}

/// The frames of one location, as a sample has them whose leaf is the location. `Err` is want of memory.
pub fn frames_at(alloc: Global, l: &Loaded, location: u64) -> Result<Stack, Memory>
    requires { location < length l.now.profile.location }
    ensures places { IfOk result
        (λ stack. stack ≡ rows 0 location (lines_at l.now.profile location)) }
    ensures texts { IfOk result (λ stack.
        map (written l.now.profile) stack ≡ written_at l.now.profile (location + 1)) }
    ensures of_profile { IfOk result (λ stack. IsStackOf l.now.profile stack) }
{
    rows_at(alloc, l.profile.get(), location)
}

// The frames of the location, by the profile's tables.
fn rows_at(alloc: Global, p: &Profile, location: u64) -> Result<Stack, Memory>
    requires compact { IsCompact p.now }
    requires within { location < length p.now.location }
    ensures places { IfOk result (λ stack. stack ≡ rows 0 location (lines_at p.now location)) }
    ensures texts { IfOk result (λ stack. map (written p.now) stack ≡ written_at p.now (location + 1)) }
    ensures of_profile { IfOk result (λ stack. IsStackOf p.now stack) }
{
    let mut stack = List::new(alloc);
    push_rows(p, 0, location, &mut stack)?;
    Ok(stack)
}

// Adds the frames of the sample, by the profile's tables.
fn push_frames(p: &Profile, s: &Sample, stack: &mut Stack) -> Result<(), Memory>
    requires compact { IsCompact p.now }
    requires refers { RefersTo p.now s.now }
    requires none { stack.old ≡ [] }
    ensures places { IfOk result (λ _. stack.new ≡ stack_of p.now s.now) }
    ensures texts { IfOk result (λ _. StandsFor p.now stack.new s.now) }
    ensures of_profile { IfOk result (λ _. IsStackOf p.now stack.new) }
{
    for (place, id) in s.location_id.as_slice().iter().enumerate() {
        push_rows(p, place as u64, *id - 1, stack)?;
    }
    Ok(())
}

// Adds the frames of the location that stands at this place of the sample.
fn push_rows(p: &Profile, place: u64, location: u64, stack: &mut Stack) -> Result<(), Memory>
    requires { location < length p.now.location }
    ensures { IfOk result
        (λ _. stack.new ≡ stack.old ++ rows place location (lines_at p.now location)) }
{
    let lines = p.location.as_slice()[location as usize].line.len();
    if lines == 0 {
        return stack.push(Frame {
            place,
            location,
            row: None,
        });
    }
    for row in 0..lines as u64 {
        stack.push(Frame {
            place,
            location,
            row: Some(row),
        })?;
    }
    Ok(())
}
