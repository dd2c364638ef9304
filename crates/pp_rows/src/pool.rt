// Pieces that are worked on at once, in each pass of a report over its samples.

use crate::running::report_of;
use pp_base::{Gate, List, OpenGate};
use std::alloc::Global;
use std::sync::atomic::{AtomicU64, Ordering};
use std::test::Fail;
use std::thread::Threads;

// Holds the first piece of each pass until another piece of the pass was left, for so many turns at most.
#[derive(Drop)]
pub(crate) struct Held<'a> {
    // How many pieces entered before the first one of each pass.
    firsts: &'a [u64],
    entered: AtomicU64,
    left: AtomicU64,
    // The passes in which another piece was left.
    met: AtomicU64,
}

impl<'a> Held<'a> {
    pub(crate) fn new(firsts: &'a [u64]) -> Held<'a> {
        Held {
            firsts,
            entered: AtomicU64::new(0),
            left: AtomicU64::new(0),
            met: AtomicU64::new(0),
        }
    }

    // Whether two pieces were worked on at once in each pass.
    pub(crate) fn is_met(&self) -> bool {
        self.met.load(Ordering::SeqCst) == self.firsts.len() as u64
    }

    // Whether so many pieces entered, and all of them left.
    pub(crate) fn is_passed_by(&self, pieces: u64) -> bool {
        self.entered.load(Ordering::SeqCst) == pieces && self.left.load(Ordering::SeqCst) == pieces
    }

    // All pieces before the pass have left.
    fn is_another_left(&self, before: u64) -> bool {
        for _turn in 0..100_000_000 {
            if self.left.load(Ordering::SeqCst) > before {
                return true;
            }
        }
        false
    }
}

impl Gate for Held<'_> {
    fn enter(&self, _piece: u32) {
        let before = self.entered.fetch_add(1, Ordering::SeqCst);
        if self.firsts.contains(&before) && self.is_another_left(before) {
            self.met.fetch_add(1, Ordering::SeqCst);
        }
    }

    fn leave(&self, _piece: u32) {
        self.left.fetch_add(1, Ordering::SeqCst);
    }
}

// The top report has one pass of five pieces. The tree counts in passes of 64 and 2 pieces, and then its edges.
#[test]
fn two_pieces_at_once(rt: HostRuntime) -> Result<(), Fail> {
    let top = "-top -gen=5000 -workers=2";
    assert!(rt; is_met_in_a_round(&rt, rt.alloc(), top, &[0], 5)?);
    let tree = "-tree -gen=67584 -workers=2";
    assert!(rt; is_met_in_a_round(&rt, rt.alloc(), tree, &[0, 64, 66, 130], 132)?);
    Ok(())
}

// Whether two pieces were worked on at once in each pass of one of eight rounds.
fn is_met_in_a_round<R: Threads + Sync>(
    rt: &R,
    alloc: Global,
    words: &str,
    firsts: &[u64],
    pieces: u64,
) -> Result<bool, Fail> {
    let open = report_of(rt, alloc, words, List::new(alloc), &OpenGate)?;
    for _round in 0..8 {
        let gate = Held::new(firsts);
        let held = report_of(rt, alloc, words, List::new(alloc), &gate)?;
        if held.as_slice() != open.as_slice() || !gate.is_passed_by(pieces) {
            return Err("another report".into());
        }
        if gate.is_met() {
            return Ok(true);
        }
    }
    Ok(false)
}
