//! All samples, or chosen ones, counted in waves of pieces on the lanes.
ghost use Rattle.std.specs.Prelude.{◌≡◌, ◌+◌, ◌*◌, ◌<◌, [], take, IfOk};
ghost use Rattle.pp_steal.specs.declared.piece.TheConstants.{PIECE};
ghost use Rattle.pp_count.specs.Scope.{samples_in_scope, IsSoundScope, AreCountable, AreCounted};

use crate::counting::Counting;
use crate::scope::{Scope, count_of};
use crate::sofar::Sofar;
use pp_base::{Gate, Memory};
use pp_steal::{Deal, pieces_of, run_pieces};
use std::alloc::Global;
use std::mem;
use std::thread::Threads;

/// How many pieces are counted before their parts are added. So no more than their parts stand in memory.
pub const WAVE: u32 = 64;

/// What the samples that are counted come to, in pieces on as many lanes as the configuration has workers.
pub fn count_all<'x, R: Threads + Sync, G: Gate>(
    rt: &R,
    alloc: Global,
    scope: &Scope<'x>,
    gate: &G,
) -> Result<Sofar, Memory>
    requires sound { IsSoundScope scope.now }
    requires countable { AreCountable scope.now (samples_in_scope scope.now) }
    ensures { IfOk result (AreCounted scope.now (samples_in_scope scope.now)) }
{
    // Slots for every key are cleared once. Those for pairs are no more than go with the samples.
    let adds = count_of(scope).max(scope.table.names.len() as usize);
    let mut sofar = Sofar::new(alloc, scope.hash_keys(), scope.numbers(), adds)?;
    match count_waves(rt, alloc, scope, gate, &mut sofar) {
        Ok(()) => Ok(sofar),
        Err(Memory) => {
            mem::drop(sofar);
            Err(Memory)
        }
    }
}

// Adds all samples, wave by wave, to a count that has none yet.
fn count_waves<'x, R: Threads + Sync, G: Gate>(
    rt: &R,
    alloc: Global,
    scope: &Scope<'x>,
    gate: &G,
    sofar: &mut Sofar,
) -> Result<(), Memory>
    requires sound { IsSoundScope scope.now }
    requires countable { AreCountable scope.now (samples_in_scope scope.now) }
    requires none { AreCounted scope.now [] sofar.old }
    ensures { IfOk result (λ _. AreCounted scope.now (samples_in_scope scope.now) sofar.new) }
{
    let pieces = pieces_of(count_of(scope));
    for wave in 0..pieces.div_ceil(WAVE) {
        let first = wave * WAVE;
        let job = Counting {
            alloc,
            scope: *scope,
            first,
            pieces: (pieces - first).min(WAVE),
        };
        count_wave(rt, &job, gate, sofar)?;
    }
    Ok(())
}

// Counts the pieces of a wave, and adds them to what the samples before it come to.
fn count_wave<R: Threads + Sync, G: Gate>(
    rt: &R,
    job: &Counting,
    gate: &G,
    sofar: &mut Sofar,
) -> Result<(), Memory>
    requires { AreCounted job.now.scope
        (take (PIECE * job.now.first) (samples_in_scope job.now.scope)) sofar.old }
    ensures { IfOk result (λ _. AreCounted job.now.scope
        (take (PIECE * (job.now.first + job.now.pieces)) (samples_in_scope job.now.scope)) sofar.new) }
{
    let workers = job.scope.config.environment.workers;
    let parts = run_pieces(rt, job.alloc, job, job.pieces, workers, Deal::Round, gate)?;
    for part in parts.as_slice() {
        sofar.add(job.alloc, part)?;
    }
    Ok(())
}
