//! Work that comes in pieces.
ghost use Rattle.std.specs.Prelude.{ℕ, ◌<◌, IfOk};

use pp_base::Memory;

/// Work that comes in numbered pieces, each of which can be run on any thread.
pub trait Job: Sync {
    /// What comes of one piece.
    type Out: Send + Drop;

    /// How many pieces there are.
    ghost pieces: { Self → ℕ };

    /// Which outcomes are right for a piece.
    ghost right: { Self → ℕ → Self.Out → Type 0 };

    /// The outcome of the piece. By `Err` the lane that asked stops: it takes no further piece, and `run_pieces`
    /// answers `Memory`.
    fn run(&self, piece: u32) -> Result<Self::Out, Memory>
        requires { piece < pieces self.now }
        ensures { IfOk result (right self.now piece) };
}
