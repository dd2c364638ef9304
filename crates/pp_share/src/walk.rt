//! Ids in the order in which a walk meets them.
ghost use Rattle.std.specs.Prelude.{◌≡◌, ℕ, List, [], ◌∷◌, OnOk};
ghost use Rattle.std.specs.List.{flat_map};
ghost use Rattle.pp_share.specs.Walk.{met_after, function_refs, mapping_ref, text_ids, type_text_ids, mapping_text_ids, function_text_ids};

use crate::ids::id_of_index;
use crate::met::Met;
use pp_base::Memory;
use pp_model::{Function, Line, Location, Mapping, ValueType};

/// The table of texts, whose ids are their indices plus 1. This type and the two below name the table of a reference.
#[derive(Clone, Copy, Debug)]
pub struct Texts;

/// The table of mappings, to which locations refer.
#[derive(Clone, Copy, Debug)]
pub struct Mappings;

/// The table of functions, to which the lines of locations refer.
#[derive(Clone, Copy, Debug)]
pub struct Functions;

/// What refers to entries of a table.
pub trait Refers<Table> {
    /// The ids to which it refers, in order, with 0 for none.
    ghost refs: { Self → List ℕ };

    /// Adds the ids that were not met yet.
    fn meet(&self, met: &mut Met) -> Result<(), Memory>
        ensures { OnOk result (met.new ≡ met_after met.old (refs self.now)) };
}

/// Adds the ids to which the items refer, in order.
pub fn meet_each<Table, T: Refers<Table>>(items: &[T], met: &mut Met) -> Result<(), Memory>
    ensures { OnOk result (met.new ≡ met_after met.old (flat_map T.refs items.now)) }
{
    for item in items {
        item.meet(met)?;
    }
    Ok(())
}

// Adds the id of the text with the index.
fn meet_text(index: i64, met: &mut Met) -> Result<(), Memory>
    ensures { OnOk result (met.new ≡ met_after met.old (text_ids index)) }
{
    met.meet(id_of_index(index))
}

impl Refers<Mappings> for Location {
    ghost refs = { mapping_ref };

    fn meet(&self, met: &mut Met) -> Result<(), Memory> {
        met.meet(self.mapping_id)
    }
}

impl Refers<Functions> for Line {
    ghost refs = { λ line. line.function_id ∷ [] };

    fn meet(&self, met: &mut Met) -> Result<(), Memory> {
        met.meet(self.function_id)
    }
}

impl Refers<Functions> for Location {
    ghost refs = { function_refs };

    fn meet(&self, met: &mut Met) -> Result<(), Memory> {
        meet_each::<Functions, Line>(self.line.as_slice(), met)
    }
}

impl Refers<Texts> for i64 {
    ghost refs = { text_ids };

    fn meet(&self, met: &mut Met) -> Result<(), Memory> {
        meet_text(*self, met)
    }
}

impl Refers<Texts> for ValueType {
    ghost refs = { type_text_ids };

    fn meet(&self, met: &mut Met) -> Result<(), Memory> {
        meet_text(self.kind, met)?;
        meet_text(self.unit, met)
    }
}

impl Refers<Texts> for Mapping {
    ghost refs = { mapping_text_ids };

    fn meet(&self, met: &mut Met) -> Result<(), Memory> {
        meet_text(self.file, met)?;
        meet_text(self.build_id, met)
    }
}

impl Refers<Texts> for Function {
    ghost refs = { function_text_ids };

    fn meet(&self, met: &mut Met) -> Result<(), Memory> {
        meet_text(self.name, met)?;
        meet_text(self.system_name, met)?;
        meet_text(self.filename, met)
    }
}
