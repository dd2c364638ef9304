//! What a traces report is written by.
ghost use Rattle.std.proofs.Props.{props};
ghost use Rattle.pp_count.specs.Scope.{IsSoundScope};
ghost use Rattle.pp_samples.specs.FrameLines.{AreFrameLines};

use crate::frame_lines::FrameLines;
use pp_count::Scope;
use pp_units::Unit;

/// What all samples of a report are written by.
#[derive(Clone, Copy)]
pub struct Traces<'a> {
    /// How they are seen.
    pub scope: Scope<'a>,
    /// How their values are printed.
    pub unit: &'a Unit,
    /// The lines of frames that are made.
    pub lines: &'a FrameLines,
    pub ghost sound: { IsSoundScope scope } by { Prim.hlevel props },
    pub ghost made: { AreFrameLines scope.l.now.profile scope.table.now.names lines.now } by { Prim.hlevel props },
}
