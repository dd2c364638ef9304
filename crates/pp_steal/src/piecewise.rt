//! Work on a list, piece by piece.
ghost use Rattle.std.specs.Prelude.{◌+◌, ◌*◌, ◌<◌, ◌≤◌, ◌++◌, List as Seq, [], length, IfOk};
ghost use Rattle.pp_steal.specs.declared.piece.TheConstants.{PIECE};
ghost use Rattle.pp_steal.specs.Pieces.{IsCutInto};

use crate::deal::Deal;
use crate::job::Job;
use crate::piece::{PIECE, piece_of, pieces_of};
use crate::resources::Resources;
use crate::run::run_pieces;
use pp_base::{List, Memory, OpenGate};
use std::thread::Threads;

/// Work on a list that can be cut: what comes of a part of it, and of two parts together.
pub trait Piecewise<T>: Sync {
    /// What comes of a part.
    type Out: Send + Drop;

    /// Which outcomes are right for the items of a part.
    ghost right: { Self → Seq T → Self.Out → Type 0 };

    /// The outcome of no items, with room for that of `room` items.
    fn begin(&self, room: usize) -> Result<Self::Out, Memory>
        ensures { IfOk result (right self.now []) };

    /// The outcome of these items.
    fn run(&self, items: &[T]) -> Result<Self::Out, Memory>
        ensures { IfOk result (right self.now items.now) };

    /// The outcome of two parts, of which `back` follows `front`.
    fn append(&self, front: Self::Out, back: Self::Out) -> Result<Self::Out, Memory>
        ensures { (xs ys : Seq T) → right self.now xs front → right self.now ys back
            → IfOk result (right self.now (xs ++ ys)) };
}

// How many items a wave has. The outcomes of its pieces are appended before the next wave is begun, so that those of
// few pieces stand beside the whole.
const WAVE: usize = 131_072;

/// The outcome of all items. They are worked on in pieces of 1,024, on `with.workers` lanes. The answer does not tell how
/// many there were. One worker, or one piece, is worked on by the caller's thread, and no other is started.
pub fn run_piecewise<R: Threads + Sync, T: Sync, W: Piecewise<T>>(
    with: &Resources<'_, R>,
    work: &W,
    items: &[T],
) -> Result<W::Out, Memory>
    ensures { IfOk result (W.right work.now items.now) }
{
    let mut all = work.begin(items.len())?;
    for wave in 0..items.len().div_ceil(WAVE) {
        let start = wave * WAVE;
        let len = (items.len() - start).min(WAVE);
        all = add_wave(with, work, all, &items[start..start + len])?;
    }
    Ok(all)
}

// The outcome of the items before the wave, which is `all`, and of those of the wave.
fn add_wave<R: Threads + Sync, T: Sync, W: Piecewise<T>>(
    with: &Resources<'_, R>,
    work: &W,
    all: W::Out,
    wave: &[T],
) -> Result<W::Out, Memory>
    requires { length wave.now ≤ WAVE }
    ensures { (front : Seq T) → W.right work.now front all
        → IfOk result (W.right work.now (front ++ wave.now)) }
{
    match run_wave(with, work, wave) {
        Ok(parts) => append_all(work, all, parts),
        Err(Memory) => Err(Memory),
    }
}

// The outcomes of the pieces of the wave.
fn run_wave<R: Threads + Sync, T: Sync, W: Piecewise<T>>(
    with: &Resources<'_, R>,
    work: &W,
    wave: &[T],
) -> Result<List<W::Out>, Memory>
    requires { length wave.now ≤ WAVE }
    ensures { IfOk result (IsCutInto (W.right work.now) wave.now) }
{
    let pieces = pieces_of(wave.len());
    let job = InPieces {
        work,
        items: wave,
        pieces,
    };
    let lanes = with.workers.min(pieces.max(1));
    run_pieces(
        with.rt,
        with.alloc,
        &job,
        pieces,
        lanes,
        Deal::Round,
        &OpenGate,
    )
}

// Work on a list as a job in pieces.
#[derive(Drop)]
struct InPieces<'a, T, W> {
    work: &'a W,
    items: &'a [T],
    // How many pieces the items make.
    pieces: u32,
    ghost within: { PIECE * pieces < length items.now + PIECE },
}

impl<T: Sync, W: Piecewise<T>> Job for InPieces<'_, T, W> {
    type Out = W::Out;

    ghost use Rattle.pp_steal.specs.Pieces.{piece_of};

    ghost pieces = { λ job. job.pieces };

    ghost right = { λ job piece part. W.right job.work.now (piece_of job.items.now piece) part };

    fn run(&self, piece: u32) -> Result<W::Out, Memory> {
        self.work.run(piece_of(self.items, piece))
    }
}

// The outcome of what `front` comes from, and of all parts behind it.
fn append_all<T, W: Piecewise<T>>(
    work: &W,
    front: W::Out,
    parts: List<W::Out>,
) -> Result<W::Out, Memory>
    ensures { (xs ys : Seq T) → W.right work.now xs front → IsCutInto (W.right work.now) ys parts
        → IfOk result (W.right work.now (xs ++ ys)) }
{
    let mut all = front;
    for part in parts.into_vec() {
        all = work.append(all, part)?;
    }
    Ok(all)
}
