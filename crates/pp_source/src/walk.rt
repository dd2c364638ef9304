//! Adding up samples in the lines and the routines that the own pattern finds.
ghost use Rattle.std.specs.Prelude.{◌≡◌, ◌<◌, [], length, map, All, IfOk, Some};
ghost use Rattle.pp_count.specs.Column.{selected};
ghost use Rattle.pp_count.specs.Scope.{chosen_of, samples_in_scope};
ghost use Rattle.pp_source.specs.Ledgers.{IsSoundWalk, HasWalkedTo};
ghost use Rattle.pp_source.specs.Tally.{AddsKeys, IsReadyFor, new_number};

use crate::found::FoundKeys;
use pp_base::{List, Memory};
use pp_count::{Scope, Tallies, add_sample, sample_at, see, selected};
use pp_model::Sample;
use std::alloc::Global;
use std::mem;

/// What a walk over samples looks at.
#[derive(Clone, Copy)]
pub struct Walk<'a> {
    /// How samples are seen, and which of them are walked over.
    pub scope: Scope<'a>,
    /// The lines that are found.
    pub lines: &'a FoundKeys,
    /// The routines that are found.
    pub routines: &'a FoundKeys,
}

/// What samples come to, by the numbers of what was found. One number more than those has all else.
#[derive(Drop)]
pub struct WalkSums {
    /// What each line that was found has, and last all else.
    pub lines: Tallies,
    /// What each routine that was found has, and last all else.
    pub routines: Tallies,
}

/// The sums over the samples with these numbers, which are those that the scope chooses. `Err` is want of memory.
pub fn add_samples(alloc: Global, walk: &Walk<'_>, kept: &[u32]) -> Result<WalkSums, Memory>
    requires sound { IsSoundWalk walk.now }
    requires chosen { chosen_of walk.now.scope ≡ Some kept.now }
    ensures { IfOk result (HasWalkedTo walk.now (length kept.now) (samples_in_scope walk.now.scope)) }
{
    let mut sums = no_sums(alloc, walk)?;
    match add_kept(alloc, walk, kept, &mut sums) {
        Ok(()) => Ok(sums),
        Err(Memory) => {
            mem::drop(sums);
            Err(Memory)
        }
    }
}

// Adds the samples to sums that have none yet.
fn add_kept(alloc: Global, walk: &Walk<'_>, kept: &[u32], sums: &mut WalkSums) -> Result<(), Memory>
    requires sound { IsSoundWalk walk.now }
    requires chosen { chosen_of walk.now.scope ≡ Some kept.now }
    requires none { HasWalkedTo walk.now 0 [] sums.old }
    ensures { IfOk result (λ _.
        HasWalkedTo walk.now (length kept.now) (samples_in_scope walk.now.scope) sums.new) }
{
    let mut stack = List::new(alloc);
    let mut keys = Vec::new(alloc);
    let mut room = Vec::new(alloc);
    for place in 0..kept.len() {
        let sample = sample_at(&walk.scope, place);
        if see(&walk.scope, sample, &mut stack, &mut keys)? {
            add_seen(walk, sample, &keys, place as u64 + 1, &mut room, sums)?;
        }
    }
    Ok(())
}

fn no_sums(alloc: Global, walk: &Walk<'_>) -> Result<WalkSums, Memory>
    ensures { IfOk result (HasWalkedTo walk.now 0 []) }
{
    let hash_keys = walk.scope.hash_keys();
    // They are made once, so there may be a slot for each number.
    let (lines, routines) = (walk.lines.names.len() + 1, walk.routines.names.len() + 1);
    let lines = Tallies::new(alloc, hash_keys, lines, lines)?;
    let routines = Tallies::new(alloc, hash_keys, routines, routines)?;
    Ok(WalkSums { lines, routines })
}

// Adds a sample whose frames have these keys, leaf first. `room` is for the numbers of what was found of them.
fn add_seen(
    walk: &Walk<'_>,
    sample: &Sample,
    keys: &[u64],
    turn: u64,
    room: &mut Vec<u64>,
    sums: &mut WalkSums,
) -> Result<(), Memory>
    requires sound { IsSoundWalk walk.now }
    requires keys { All (λ k. k < length walk.now.scope.table.now.names) keys.now }
    requires lines_ready { IsReadyFor
        (selected walk.now.scope.column walk.now.scope.config.now.presentation.divide_by sample.now)
        turn
        sums.old.lines }
    requires routines_ready { IsReadyFor
        (selected walk.now.scope.column walk.now.scope.config.now.presentation.divide_by sample.now)
        turn
        sums.old.routines }
    ensures lines { IfOk result (λ _. AddsKeys walk.now.lines.now.numbers.items
        (selected walk.now.scope.column walk.now.scope.config.now.presentation.divide_by sample.now)
        turn keys.now
        sums.old.lines sums.new.lines) }
    ensures routines { IfOk result (λ _. AddsKeys walk.now.routines.now.numbers.items
        (selected walk.now.scope.column walk.now.scope.config.now.presentation.divide_by sample.now)
        turn keys.now
        sums.old.routines sums.new.routines) }
{
    let scope = &walk.scope;
    let value = selected(
        scope.l,
        sample,
        scope.column,
        scope.config.presentation.divide_by,
    );
    add_found(walk.lines, value, keys, turn, room, &mut sums.lines)?;
    add_found(walk.routines, value, keys, turn, room, &mut sums.routines)
}

// Adds a sample with these keys, leaf first, to the tallies of the numbers of what was found of them.
fn add_found(
    found: &FoundKeys,
    value: i64,
    keys: &[u64],
    turn: u64,
    room: &mut Vec<u64>,
    tallies: &mut Tallies,
) -> Result<(), Memory>
    requires keys { All (λ k. k < length found.now.numbers.items) keys.now }
    requires ready { IsReadyFor value turn tallies.old }
    ensures { IfOk result (λ _.
        AddsKeys found.now.numbers.items value turn keys.now tallies.old tallies.new) }
{
    put_numbers(&found.numbers, keys, room)?;
    add_sample(tallies, value, room, turn)
}

// Makes the numbers that stand for the keys the content of `room`.
fn put_numbers(numbers: &[u64], keys: &[u64], room: &mut Vec<u64>) -> Result<(), Memory>
    requires { All (λ k. k < length numbers.now) keys.now }
    ensures { IfOk result (λ _. room.new.items ≡ map (new_number numbers.now) keys.now) }
{
    room.clear();
    for key in keys {
        room.push(numbers[*key as usize])?;
    }
    Ok(())
}
