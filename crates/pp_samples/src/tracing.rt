//! The lines of all samples of a traces report, in waves of pieces on the lanes.
ghost use Rattle.std.specs.Prelude.{◌≡◌, ◌++◌, ◌+◌, ◌*◌, ◌<◌, ◌^◌, length, take, drop, IfOk};
ghost use Rattle.pp_steal.specs.declared.piece.TheConstants.{PIECE};
ghost use Rattle.pp_model.specs.Finders.{Finders};
ghost use Rattle.pp_samples.specs.Tracing.{FindsInTraces, traces_text_at};

use crate::subject::Traces;
use crate::trace::{put_traces, traces_at};
use pp_base::{Gate, Memory, Text};
use pp_steal::{Deal, Job, PIECE, piece_of, pieces_of, run_pieces};
use std::alloc::Global;
use std::thread::Threads;

/// How many pieces are written before their texts are joined. So no more than their texts stand in memory twice.
pub const WAVE: u32 = 16;

/// A wave of pieces, to be written on any thread.
#[derive(Drop)]
pub struct Tracing<'a> {
    /// Where texts are allocated.
    pub alloc: Global,
    /// What samples are written by.
    pub traces: Traces<'a>,
    /// The numbers of all samples.
    pub kept: &'a [u32],
    /// The first piece of the wave.
    pub first: u32,
    /// How many pieces the wave has.
    pub pieces: u32,
    pub ghost few: { length kept.now < 2 ^ 32 },
    pub ghost within: { PIECE * (first + pieces) < length kept.now + PIECE },
}

impl Job for Tracing<'_> {
    type Out = Text;

    ghost use Rattle.std.specs.Prelude.{◌+◌};
    ghost use Rattle.pp_steal.specs.Pieces.{piece_of};
    ghost use Rattle.pp_samples.specs.Tracing.{HasTraces};

    ghost pieces = { λ job. job.pieces };

    ghost right = { λ job piece text. HasTraces job.traces
        (piece_of job.kept.now (job.first + piece)) text };

    fn run(&self, piece: u32) -> Result<Text, Memory> {
        let numbers = piece_of(self.kept, self.first + piece);
        traces_at(self.alloc, &self.traces, numbers)
    }
}

/// Appends the lines of the samples with these numbers, in pieces on as many lanes as the configuration has workers. One
/// lane needs no pieces.
pub fn put_all<'x, R: Threads + Sync, G: Gate>(
    rt: &R,
    alloc: Global,
    t: &Traces<'x>,
    kept: &'x [u32],
    gate: &G,
    lines: &mut Text,
) -> Result<(), Memory>
    requires { length kept.now < 2 ^ 32 }
    ensures { (f : Finders) → FindsInTraces t.now f →
        IfOk result (λ _. lines.new ≡ lines.old ++ traces_text_at t.now f kept.now) }
{
    if t.scope.config.environment.workers == 1 {
        return put_traces(alloc, t, kept, lines);
    }
    let pieces = pieces_of(kept.len());
    for wave in 0..pieces.div_ceil(WAVE) {
        let first = wave * WAVE;
        let job = Tracing {
            alloc,
            traces: *t,
            kept,
            first,
            pieces: (pieces - first).min(WAVE),
        };
        put_wave(rt, &job, gate, lines)?;
    }
    Ok(())
}

// The pieces of a wave.
fn put_wave<R: Threads + Sync, G: Gate>(
    rt: &R,
    job: &Tracing,
    gate: &G,
    lines: &mut Text,
) -> Result<(), Memory>
    ensures { (f : Finders) → FindsInTraces job.now.traces f →
        IfOk result (λ _. lines.new ≡ lines.old ++ traces_text_at job.now.traces f
        (take (PIECE * job.now.pieces) (drop (PIECE * job.now.first) job.now.kept.now))) }
{
    let workers = job.traces.scope.config.environment.workers;
    let texts = run_pieces(rt, job.alloc, job, job.pieces, workers, Deal::Round, gate)?;
    for text in texts.as_slice() {
        lines.extend(text.as_slice())?;
    }
    Ok(())
}
