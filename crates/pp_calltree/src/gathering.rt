//! The paths of a report's samples, gathered in waves of pieces on the lanes.
ghost use Rattle.std.specs.Prelude.{◌≡◌, ◌+◌, ◌*◌, ◌<◌, [], length, take, IfOk};
ghost use Rattle.std.proofs.Props.{props};
ghost use Rattle.pp_steal.specs.declared.piece.TheConstants.{PIECE};
ghost use Rattle.pp_steal.specs.Pieces.{piece_of};
ghost use Rattle.pp_count.specs.Scope.{samples_in_scope, IsSoundScope};
ghost use Rattle.pp_calltree.specs.Paths.{HasPaths};

use crate::paths::{Paths, gather_range};
use pp_base::{Gate, Memory};
use pp_count::Scope;
use pp_steal::{Deal, Job, PIECE, pieces_of, run_pieces};
use std::alloc::Global;
use std::mem;
use std::thread::Threads;

/// How many pieces are gathered before their paths are joined. So no more than their paths stand in memory twice.
pub const WAVE: u32 = 64;

/// A wave of pieces, to be gathered on any thread.
#[derive(Drop)]
pub struct Gathering<'a> {
    /// Where paths are allocated.
    pub alloc: Global,
    /// How samples are seen, and which of them are gathered.
    pub scope: Scope<'a>,
    /// How many samples these are.
    pub count: u32,
    /// The first piece of the wave.
    pub first: u32,
    /// How many pieces the wave has.
    pub pieces: u32,
    pub ghost sound: { IsSoundScope scope } by { Prim.hlevel props },
    pub ghost counts: { count ≡ length (samples_in_scope scope) },
    pub ghost within: { PIECE * (first + pieces) < count + PIECE },
}

impl Job for Gathering<'_> {
    type Out = Paths;

    ghost use Rattle.std.specs.Prelude.{◌+◌};
    ghost use Rattle.pp_steal.specs.Pieces.{piece_of};
    ghost use Rattle.pp_count.specs.Scope.{samples_in_scope};
    ghost use Rattle.pp_calltree.specs.Paths.{HasPaths};

    ghost pieces = { λ job. job.pieces };

    ghost right = { λ job piece paths. HasPaths job.scope
        (piece_of (samples_in_scope job.scope) (job.first + piece)) paths };

    fn run(&self, piece: u32) -> Result<Paths, Memory> {
        gather_piece(self.alloc, &self.scope, self.count, self.first + piece)
    }
}

// The paths of the piece's samples.
fn gather_piece(alloc: Global, scope: &Scope, count: u32, piece: u32) -> Result<Paths, Memory>
    requires sound { IsSoundScope scope.now }
    requires counts { count ≡ length (samples_in_scope scope.now) }
    requires starts { PIECE * piece < count }
    ensures { IfOk result (HasPaths scope.now (piece_of (samples_in_scope scope.now) piece)) }
{
    let start = piece as usize * PIECE;
    let count = (count as usize - start).min(PIECE);
    gather_range(alloc, scope, start as u32, count as u32)
}

/// The paths of the samples that the scope chooses, of which there are `count`, in pieces on as many lanes as the
/// configuration has workers. One lane needs no pieces.
pub fn gather_paths<'x, R: Threads + Sync, G: Gate>(
    rt: &R,
    alloc: Global,
    scope: &Scope<'x>,
    count: u32,
    gate: &G,
) -> Result<Paths, Memory>
    requires sound { IsSoundScope scope.now }
    requires counts { count ≡ length (samples_in_scope scope.now) }
    ensures { IfOk result (HasPaths scope.now (samples_in_scope scope.now)) }
{
    if scope.config.environment.workers == 1 {
        return gather_range(alloc, scope, 0, count);
    }
    let mut paths = Paths::none(alloc);
    match gather_waves(rt, alloc, scope, count, gate, &mut paths) {
        Ok(()) => Ok(paths),
        Err(Memory) => {
            mem::drop(paths);
            Err(Memory)
        }
    }
}

// Adds the paths of all samples, wave by wave, where there are none yet.
fn gather_waves<'x, R: Threads + Sync, G: Gate>(
    rt: &R,
    alloc: Global,
    scope: &Scope<'x>,
    count: u32,
    gate: &G,
    paths: &mut Paths,
) -> Result<(), Memory>
    requires sound { IsSoundScope scope.now }
    requires counts { count ≡ length (samples_in_scope scope.now) }
    requires none { HasPaths scope.now [] paths.old }
    ensures { IfOk result (λ _. HasPaths scope.now (samples_in_scope scope.now) paths.new) }
{
    let pieces = pieces_of(count as usize);
    for wave in 0..pieces.div_ceil(WAVE) {
        let first = wave * WAVE;
        let job = Gathering {
            alloc,
            scope: *scope,
            count,
            first,
            pieces: (pieces - first).min(WAVE),
        };
        gather_wave(rt, &job, gate, paths)?;
    }
    Ok(())
}

// Adds the paths of a wave to those of the samples before it.
fn gather_wave<R: Threads + Sync, G: Gate>(
    rt: &R,
    job: &Gathering,
    gate: &G,
    paths: &mut Paths,
) -> Result<(), Memory>
    requires { HasPaths job.now.scope
        (take (PIECE * job.now.first) (samples_in_scope job.now.scope)) paths.old }
    ensures { IfOk result (λ _. HasPaths job.now.scope
        (take (PIECE * (job.now.first + job.now.pieces)) (samples_in_scope job.now.scope)) paths.new) }
{
    let workers = job.scope.config.environment.workers;
    let parts = run_pieces(rt, job.alloc, job, job.pieces, workers, Deal::Round, gate)?;
    for part in parts.as_slice() {
        paths.join(part)?;
    }
    Ok(())
}
