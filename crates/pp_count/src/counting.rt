//! Counting as a job in pieces.
ghost use Rattle.std.specs.Prelude.{◌≡◌, ◌+◌, ◌*◌, ◌<◌, ◌^◌, length, IfOk};
ghost use Rattle.std.proofs.Props.{props};
ghost use Rattle.pp_steal.specs.declared.piece.TheConstants.{PIECE};
ghost use Rattle.pp_steal.specs.Pieces.{piece_of};
ghost use Rattle.pp_count.specs.Scope.{samples_in_scope, IsSoundScope, AreCountable, IsPartOf};

use crate::part::{Part, count_range};
use crate::scope::{Scope, count_of};
use pp_base::Memory;
use pp_steal::{Job, PIECE};
use std::alloc::Global;

/// A wave of pieces, to be counted on any thread.
#[derive(Drop)]
pub struct Counting<'a> {
    /// Where what the pieces come to is allocated.
    pub alloc: Global,
    /// How samples are seen, and which of them are counted.
    pub scope: Scope<'a>,
    /// The first piece of the wave.
    pub first: u32,
    /// How many pieces the wave has.
    pub pieces: u32,
    pub ghost sound: { IsSoundScope scope } by { Prim.hlevel props },
    pub ghost countable: { AreCountable scope (samples_in_scope scope) },
    pub ghost within: { PIECE * (first + pieces) < length (samples_in_scope scope) + PIECE },
}

impl Job for Counting<'_> {
    type Out = Part;

    ghost use Rattle.std.specs.Prelude.{◌+◌, ◌*◌};
    ghost use Rattle.pp_steal.specs.declared.piece.TheConstants.{PIECE};
    ghost use Rattle.pp_steal.specs.Pieces.{piece_of};
    ghost use Rattle.pp_count.specs.Scope.{samples_in_scope, IsPartOf};

    ghost pieces = { λ job. job.pieces };

    ghost right = { λ job piece part. IsPartOf job.scope ((job.first + piece) * PIECE)
        (piece_of (samples_in_scope job.scope) (job.first + piece)) part };

    fn run(&self, piece: u32) -> Result<Part, Memory> {
        count_piece_of(self.alloc, &self.scope, self.first + piece)
    }
}

/// The part of the piece's samples.
pub fn count_piece_of(alloc: Global, scope: &Scope, piece: u32) -> Result<Part, Memory>
    requires sound { IsSoundScope scope.now }
    requires countable { AreCountable scope.now (samples_in_scope scope.now) }
    requires starts { PIECE * piece < length (samples_in_scope scope.now) }
    ensures { IfOk result (IsPartOf scope.now (piece * PIECE)
        (piece_of (samples_in_scope scope.now) piece)) }
{
    let start = piece as usize * PIECE;
    let count = (count_of(scope) - start).min(PIECE);
    count_range(alloc, scope, start as u32, count as u32)
}
