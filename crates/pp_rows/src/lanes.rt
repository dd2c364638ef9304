// Pieces on lanes: a lane takes its own first and then those of others, and none is left.
ghost use Rattle.std.specs.Prelude.{◌≡◌, ◌<◌, ◌≤◌, length};
ghost use Rattle.pp_steal.specs.Closing.{IsWholeMake};

use crate::pool::Held;
use pp_base::{List, Memory, OpenGate};
use pp_steal::{Deal, Job, Lane, Lanes, close, run_pieces};
use std::alloc::Global;
use std::test::Fail;
use std::thread::Threads;

// The next piece of the lane.
fn next_of(lanes: &mut Vec<Lane>, lane: usize) -> Option<u32>
    requires lane { lane < length lanes.old.items }
    requires whole { IsWholeMake lanes.old.items }
    ensures count { length lanes.new.items ≡ length lanes.old.items }
    ensures whole { IsWholeMake lanes.new.items }
{
    lanes[lane].next()
}

// Whether the lanes that are asked give these pieces, in turn.
fn give(lanes: &mut Vec<Lane>, turns: &[(usize, Option<u32>)]) -> bool
    requires { IsWholeMake lanes.old.items }
    ensures { IsWholeMake lanes.new.items }
{
    'turns: for (lane, piece) in turns {
        if *lane >= lanes.len() || next_of(lanes, *lane) != *piece {
            return false;
        }
    }
    true
}

// Whether the lanes give these pieces in turn, have then taken these, and leave none.
fn are_given(
    alloc: Global,
    pieces: u32,
    deal: Deal,
    turns: &[(usize, Option<u32>)],
    taken: &[&[u32]],
) -> Result<bool, Memory>
    requires some { 1 ≤ length taken.now }
    requires few { length taken.now ≤ 64 }
{
    let mut lanes = Lanes::make(alloc, pieces, taken.len() as u32, deal)?.into_vec();
    let is_given = give(&mut lanes, turns);
    let given = close(List::from_vec(lanes));
    Ok(is_given && given.left.len() == 0 && are_lists(&given.taken, taken))
}

fn are_lists(lists: &List<List<u32>>, owed: &[&[u32]]) -> bool {
    for (list, numbers) in lists.as_slice().iter().zip(owed) {
        if list.as_slice() != *numbers {
            return false;
        }
    }
    lists.len() == owed.len()
}

#[test]
fn lanes_give_in_turn(rt: HostRuntime) -> Result<(), Fail> {
    let turns = [
        (1, Some(1)),
        (1, Some(0)),
        (0, Some(2)),
        (0, None),
        (1, None),
    ];
    assert!(rt; are_given(rt.alloc(), 3, Deal::Round, &turns, &[&[2], &[1, 0]])?);
    let turns = [(0, None), (1, None), (2, None)];
    assert!(rt; are_given(rt.alloc(), 0, Deal::First, &turns, &[&[], &[], &[]])?);
    Ok(())
}

// Calls the lanes in turn until a whole round gives none.
fn drain(lanes: &mut Vec<Lane>)
    requires { IsWholeMake lanes.old.items }
    ensures { IsWholeMake lanes.new.items }
{
    'rounds: for _ in 0..1000 {
        let mut gave = false;
        'turns: for k in 0..lanes.len() {
            gave = next_of(lanes, k).is_some() || gave;
        }
        if !gave {
            break;
        }
    }
}

// How many pieces are left where the lanes give none any more.
fn count_left(alloc: Global, pieces: u32, lanes: u32, deal: Deal) -> Result<usize, Memory>
    requires some { 1 ≤ lanes }
    requires few { lanes ≤ 64 }
{
    let mut lanes = Lanes::make(alloc, pieces, lanes, deal)?.into_vec();
    drain(&mut lanes);
    Ok(close(List::from_vec(lanes)).left.len())
}

// The first numbers of pieces and lanes that leave a piece.
fn first_left(alloc: Global, deal: Deal) -> Result<Option<(u32, u32)>, Memory> {
    for pieces in 0..41 {
        for lanes in 1..9 {
            if count_left(alloc, pieces, lanes, deal)? > 0 {
                return Ok(Some((pieces, lanes)));
            }
        }
    }
    Ok(None)
}

#[test]
fn no_piece_is_left(rt: HostRuntime) -> Result<(), Fail> {
    assert_eq!(rt; first_left(rt.alloc(), Deal::Round)?, None);
    assert_eq!(rt; first_left(rt.alloc(), Deal::First)?, None);
    Ok(())
}

// Gives each piece's square. It wants memory at one piece.
#[derive(Drop)]
struct Squares {
    wants_at: u32,
}

impl Job for Squares {
    type Out = u64;

    ghost use Rattle.std.specs.Prelude.{◌≡◌, ◌*◌, ◌^◌};

    ghost pieces = { λ _. 2 ^ 32 };

    ghost right = { λ _ piece out. out ≡ piece * piece };

    fn run(&self, piece: u32) -> Result<u64, Memory> {
        if piece == self.wants_at {
            return Err(Memory);
        }
        Ok(u64::from(piece) * u64::from(piece))
    }
}

// Whether the other lane takes a piece of the lane that has them all, in one of eight rounds.
fn is_stolen<R: Threads + Sync>(rt: &R, alloc: Global) -> Result<bool, Memory> {
    let squares = Squares { wants_at: 5 };
    for _round in 0..8 {
        let gate = Held::new(&[0]);
        let outcomes = run_pieces(rt, alloc, &squares, 5, 2, Deal::First, &gate)?;
        if gate.is_met() {
            return Ok(outcomes.len() == 5 && gate.is_passed_by(5));
        }
    }
    Ok(false)
}

#[test]
fn a_piece_is_stolen(rt: HostRuntime) -> Result<(), Fail> {
    assert!(rt; is_stolen(&rt, rt.alloc())?);
    Ok(())
}

#[test]
fn want_of_memory_is_answered(rt: HostRuntime) {
    let squares = Squares { wants_at: 3 };
    let outcomes = run_pieces(&rt, rt.alloc(), &squares, 5, 2, Deal::Round, &OpenGate);
    assert!(rt; outcomes.is_err());
}
