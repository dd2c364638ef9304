//! Closing lanes: what each took, and what is left.
ghost use Rattle.std.specs.Prelude.{◌≡◌, ◌≤◌, [], length, take, map, replicate, false, vec_capacity};
ghost use Rattle.crossbeam_deque.specs.Handles.{worker_deque, worker_view};
ghost use Rattle.pp_steal.specs.declared.view.Role.TheVariants.{Marked};
ghost use Rattle.pp_steal.specs.Pool.{took, TookDealt, Rises};
ghost use Rattle.pp_steal.specs.Dealing.{AreDistinctPieces};
ghost use Rattle.pp_steal.specs.Lanes.{taken_of};
ghost use Rattle.pp_steal.specs.Closing.{times_in, chair_taken, RowEndsAt, AllEndAt, RowsCut, TookOnce, AreMarksOf, MarksMore, unmarked_of, AreParts, AreGivenOnce, HoldEachOnce, IsWholeMake, first_make};

use crate::chair::{Chair, Owner};
use crate::deal::Deal;
use crate::lane::{Lane, Parts};
use crate::room::LaneRoom;
use crate::view::{Hand, Take};
use pp_base::List;

/// What the lanes of a pool took, and what is left.
#[derive(Drop)]
pub struct Given {
    /// The pieces that each lane took, in order: those of lane `i` at place `i`.
    pub taken: List<List<u32>>,
    /// The pieces that no lane took, rising.
    pub left: List<u32>,
}

/// What each lane took, and the pieces that none took. All lanes of one make have to be there, in their order. No piece
/// stands in two lists, or twice in one: the deques' rule says so once each deque's passes are joined. Gives back
/// memory, and takes none.
pub fn close(lanes: List<Lane>) -> Given
    requires { IsWholeMake lanes }
    ensures taken { result.taken ≡ map taken_of lanes }
    ensures left { Rises result.left }
    ensures once { HoldEachOnce (first_make lanes).pieces result.taken result.left }
{
    let Settled {
        pieces,
        taken,
        left,
        mut marks,
    } = settle_all(gather(lanes.into_vec()));
    mark(&taken, &mut marks);
    let left = unmarked(&marks, left, pieces);
    Given {
        taken: List::from_vec(taken),
        left: List::from_vec(left),
    }
}

// All parts of the lanes, and the room of the first one.
struct Whole {
    deal: Deal,
    pieces: u32,
    workers: Vec<Owner>,
    rows: Vec<Vec<Chair>>,
    taken: Vec<List<u32>>,
    left: Vec<u32>,
    marks: Vec<bool>,
}

// Takes all lanes apart.
fn gather(mut lanes: Vec<Lane>) -> Whole
    requires { IsWholeMake lanes.items }
    ensures parts { AreParts result.deal result.pieces
        result.workers.items result.rows.items result.taken.items }
    ensures taken { result.taken.items ≡ map taken_of lanes.items }
    ensures left { (result.left.items ≡ []) × (result.pieces ≤ vec_capacity result.left) }
    ensures marks { result.marks.items ≡ replicate result.pieces false }
    ensures pieces { result.pieces ≡ (first_make lanes.items).pieces }
{
    let Parts {
        deal,
        pieces,
        worker,
        chairs,
        taken: first,
        room,
    } = lanes.remove(0).into_parts();
    let Some(room) = room else { unreachable!() };
    let LaneRoom {
        mut workers,
        mut rows,
        mut taken,
        left,
        marks,
    } = room;
    workers.push_reserved(worker);
    rows.push_reserved(chairs);
    taken.push_reserved(List::from_vec(first));
    for lane in lanes {
        let Parts {
            deal: _,
            pieces: _,
            worker,
            chairs,
            taken: next,
            room: _,
        } = lane.into_parts();
        workers.push_reserved(worker);
        rows.push_reserved(chairs);
        taken.push_reserved(List::from_vec(next));
    }
    Whole {
        deal,
        pieces,
        workers,
        rows,
        taken,
        left,
        marks,
    }
}

// What the lanes took, and the room for the rest.
struct Settled {
    pieces: u32,
    taken: Vec<List<u32>>,
    left: Vec<u32>,
    marks: Vec<bool>,
}

// Joins all passes of each deque into its owner's, and learns from each deque's rule, from the last deque to the first.
fn settle_all(whole: Whole) -> Settled
    requires { AreParts whole.deal whole.pieces
        whole.workers.items whole.rows.items whole.taken.items }
    ensures pieces { result.pieces ≡ whole.pieces }
    ensures taken { result.taken ≡ whole.taken }
    ensures left { result.left ≡ whole.left }
    ensures marks { result.marks ≡ whole.marks }
    ensures once { AreGivenOnce result.pieces result.taken.items }
{
    let Whole {
        deal: _,
        pieces,
        mut workers,
        mut rows,
        taken,
        left,
        marks,
    } = whole;
    while let Some(worker) = workers.pop() {
        let lane = workers.len();
        settle(worker, lane, &mut rows);
    }
    Settled {
        pieces,
        taken,
        left,
        marks,
    }
}

// Joins the last pass of each row, all of this deque, into its owner's, and learns from the rule that no piece was
// taken twice.
fn settle(mut worker: Owner, lane: usize, rows: &mut Vec<Vec<Chair>>)
    requires worker { (worker_view worker).role ≡ Marked }
    requires rows { AllEndAt (worker_deque worker) lane rows.old.items }
    ensures count { length rows.new.items ≡ length rows.old.items }
    ensures rows { RowsCut lane rows.old.items rows.new.items }
    ensures learned { TookOnce (worker_view worker) lane rows.old.items }
{
    for k in 0..rows.len() {
        join_last(&mut worker, lane, &mut rows[k]);
    }
    learn(worker);
}

// Joins the last pass of the row, of this deque, into its owner's.
fn join_last(worker: &mut Owner, lane: usize, row: &mut Vec<Chair>)
    requires worker { (worker_view worker.old).role ≡ Marked }
    requires row { RowEndsAt (worker_deque worker.old) lane row.old.items }
    ensures deque { worker_deque worker.new ≡ worker_deque worker.old }
    ensures joined { worker_view worker.new
        ≡ took (worker_view worker.old) (chair_taken lane row.old.items) }
    ensures row { row.new.items ≡ take lane row.old.items }
{
    let Some(chair) = row.pop() else {
        unreachable!()
    };
    worker.absorb::<Hand>(chair.pass);
}

// What the rule tells of the owner's view: it took pieces that were dealt, none of them twice. A piece that this pop
// gives is in no lane's list, and so is left.
fn learn(mut worker: Owner)
    requires { (worker_view worker).role ≡ Marked }
    ensures { TookDealt (worker_view worker) }
{
    worker.pop_as::<Take>();
}

// Marks the pieces of all lists.
fn mark(taken: &Vec<List<u32>>, marks: &mut Vec<bool>)
    requires once { AreGivenOnce (length marks.old.items) taken.now.items }
    requires clear { marks.old.items ≡ replicate (length marks.old.items) false }
    ensures count { length marks.new.items ≡ length marks.old.items }
    ensures marks { AreMarksOf (λ x. times_in x taken.now.items) marks.new.items }
{
    for list in taken {
        mark_list(list.as_slice(), marks);
    }
}

// Marks the pieces of a list.
fn mark_list(list: &[u32], marks: &mut Vec<bool>)
    requires { AreDistinctPieces (length marks.old.items) list.now }
    ensures count { length marks.new.items ≡ length marks.old.items }
    ensures marks { MarksMore list.now marks.old.items marks.new.items }
{
    for piece in list {
        marks[*piece as usize] = true;
    }
}

// The pieces without a mark.
fn unmarked(marks: &Vec<bool>, mut left: Vec<u32>, pieces: u32) -> Vec<u32>
    requires marks { length marks.now.items ≡ pieces }
    requires left { (left.items ≡ []) × (pieces ≤ vec_capacity left) }
    ensures { result.items ≡ unmarked_of marks.now.items pieces }
{
    for piece in 0..pieces {
        if !marks[piece as usize] {
            left.push_reserved(piece);
        }
    }
    left
}
