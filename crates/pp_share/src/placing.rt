//! References that become places while they are met.
ghost use Rattle.std.specs.Prelude.{◌≡◌, ℕ, List, [], ◌∷◌, map, OnOk};
ghost use Rattle.std.specs.List.{flat_map};
ghost use Rattle.pp_share.specs.Ids.{place_id};
ghost use Rattle.pp_share.specs.Walk.{met_after, IsPlaced, text_ids, label_text_ids};
ghost use Rattle.pp_share.specs.Walked.{placed_text, placed_label};

use crate::change::Change;
use crate::ids::{id_of_index, index_of_id};
use crate::met::Met;
use pp_base::{List, Memory};
use pp_model::Label;

/// What refers to entries of a table, and is given their places.
pub trait Place {
    /// The ids to which it refers, in order, with 0 for none.
    ghost refs: { Self → List ℕ };

    /// What it becomes where these ids were met.
    ghost placed: { List ℕ → Self → Self };

    /// Adds the ids that were not met yet, and gives it their places.
    fn place(&mut self, met: &mut Met) -> Result<(), Memory>
        ensures met { OnOk result (met.new ≡ met_after met.old (refs self.old)) }
        ensures placed { OnOk result (IsPlaced placed met.new self.old self.new) };
}

/// Adds the ids to which the items refer, in order, that were not met yet, and gives each item its places.
pub fn place_each<T: Place>(items: &mut List<T>, met: &mut Met) -> Result<(), Memory>
    ensures met { OnOk result (met.new ≡ met_after met.old (flat_map T.refs items.old)) }
    ensures placed { OnOk result (IsPlaced (λ met. map (T.placed met)) met.new items.old items.new) }
{
    for index in 0..items.len() {
        items.item_mut(index).place(met)?;
    }
    Ok(())
}

/// The id of a location.
impl Place for u64 {
    ghost refs = { λ id. id ∷ [] };

    ghost placed = { place_id };

    #[inline(always)]
    fn place(&mut self, met: &mut Met) -> Result<(), Memory> {
        *self = met.place(*self)?;
        Ok(())
    }
}

/// The index of a text.
impl Place for i64 {
    ghost refs = { text_ids };

    ghost placed = { placed_text };

    #[inline(always)]
    fn place(&mut self, met: &mut Met) -> Result<(), Memory> {
        *self = index_of_id(met.place(id_of_index(*self))?);
        Ok(())
    }
}

impl Place for Label {
    ghost refs = { label_text_ids };

    ghost placed = { placed_label };

    fn place(&mut self, met: &mut Met) -> Result<(), Memory> {
        self.key.place(met)?;
        self.text.place(met)?;
        self.num_unit.place(met)?;
        Ok(())
    }
}
