//! The part of one piece, and the part of pieces joined, for callers that run the pieces themselves.
ghost use Rattle.std.specs.Prelude.{◌≡◌, ◌*◌, ◌<◌, length, IfOk};
ghost use Rattle.pp_steal.specs.declared.piece.TheConstants.{PIECE};
ghost use Rattle.pp_count.specs.Counted.{CanCount};
ghost use Rattle.pp_count.specs.Joined.{IsRangePart, CanJoin, IsJoinedPart};
ghost use Rattle.pp_steal.specs.Pieces.{piece_of};
ghost use Rattle.pp_count.specs.Table.{IsKeyTable};

use crate::counting::count_piece_of;
use crate::filters::Filters;
use crate::part::Part;
use crate::scope::Scope;
use crate::sofar::Sofar;
use crate::table::KeyTable;
use pp_base::{List, Memory};
use pp_keys::HashKeys;
use pp_model::{Config, Loaded, Verdicts};
use std::alloc::Global;
use std::mem;

/// Counts the samples from number `1024 * piece` up to the next piece, or to the last sample. `table` is the key table
/// of `l` and `config`. `Err` is want of memory.
pub fn count_piece(
    alloc: Global,
    l: &Loaded,
    v: &Verdicts,
    config: &Config,
    column: Option<u32>,
    table: &KeyTable,
    piece: u32,
) -> Result<Part, Memory>
    requires can { CanCount l.now.profile v.now config.now.filtering column }
    requires table { IsKeyTable l.now.profile config.now.grouping table.now }
    requires starts { PIECE * piece < length l.now.profile.sample }
    ensures { IfOk result (IsRangePart l.now v.now config.now column table.now.names
        (PIECE * piece) (piece_of l.now.profile.sample piece)) }
{
    let _compact = l.profile.get();
    let filters = Filters::without_tables(alloc, l, v, &config.filtering)?;
    let scope = Scope::whole(l, v, config, &filters, column, table);
    let part = count_piece_of(alloc, &scope, piece);
    mem::drop(filters);
    part
}

/// Joins the parts of consecutive ranges of samples, in order. They are spent, also where memory is wanting. `Err` is
/// want of memory.
pub fn join_parts(alloc: Global, parts: List<Part>) -> Result<Part, Memory>
    requires { CanJoin parts }
    ensures { IfOk result (IsJoinedPart parts) }
{
    // The parts don't tell how many key numbers there are, nor by what they were hashed.
    let mut sofar = Sofar::new(alloc, HashKeys::fixed(), 0, 0)?;
    for part in parts.as_slice() {
        sofar.add(alloc, part)?;
    }
    let whole = sofar.into_part(alloc)?;
    Ok(whole)
}
