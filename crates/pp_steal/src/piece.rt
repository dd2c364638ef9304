//! Lists that are worked on in pieces.
ghost use Rattle.std.specs.Prelude.{◌≡◌, ◌+◌, ◌*◌, ◌<◌, ◌≤◌, ◌^◌, length};
ghost use Rattle.pp_steal.specs.declared.piece.TheConstants.{PIECE};
ghost use Rattle.pp_steal.specs.Pieces.{piece_of};

/// How many items a piece has. The last piece may have fewer.
pub const PIECE: usize = 1024;

/// How many pieces `len` items make.
pub fn pieces_of(len: usize) -> u32
    requires { len < 2 ^ 32 }
    ensures within { PIECE * result < len + PIECE }
    ensures whole { len ≤ PIECE * result }
{
    len.div_ceil(PIECE) as u32
}

/// The items of the piece. No memory.
pub fn piece_of<T>(items: &[T], piece: u32) -> &[T]
    requires { PIECE * piece ≤ length items.now }
    ensures { result.now ≡ piece_of items.now piece }
{
    let start = piece as usize * PIECE;
    let count = (items.len() - start).min(PIECE);
    let rest = &items[start..];
    &rest[..count]
}
