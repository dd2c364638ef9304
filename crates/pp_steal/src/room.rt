//! The room that `close` needs, made with the lanes.
ghost use Rattle.std.specs.Prelude.{IfOk};
ghost use Rattle.pp_steal.specs.Room.{RoomFor};

use crate::chair::{Chair, Owner};
use pp_base::{List, Memory};
use std::alloc::Global;

// Empty vectors with room for what the lanes hold, and a mark for each piece.
#[derive(Drop)]
pub(crate) struct LaneRoom {
    pub(crate) workers: Vec<Owner>,
    pub(crate) rows: Vec<Vec<Chair>>,
    pub(crate) taken: Vec<List<u32>>,
    pub(crate) left: Vec<u32>,
    pub(crate) marks: Vec<bool>,
}

// The room of the lane `own`: only the first lane has one.
pub(crate) fn room_for(
    alloc: Global,
    own: u32,
    lanes: usize,
    pieces: u32,
) -> Result<Option<LaneRoom>, Memory>
    ensures { IfOk result (RoomFor own lanes pieces) }
{
    if own > 0 {
        return Ok(None);
    }
    Ok(Some(LaneRoom {
        workers: Vec::with_capacity(alloc, lanes)?,
        rows: Vec::with_capacity(alloc, lanes)?,
        taken: Vec::with_capacity(alloc, lanes)?,
        left: Vec::with_capacity(alloc, pieces as usize)?,
        marks: Vec::from_elem(alloc, false, pieces as usize)?,
    }))
}
