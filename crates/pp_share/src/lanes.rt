//! Samples whose locations and texts become places, of which threads may write most.
ghost use Rattle.std.specs.Prelude.{◌≡◌, ℕ, ◌<◌, ◌≤◌, List as Seq, length, map, slice_index_or, OnOk, IfOk};
ghost use Rattle.std.specs.Bool.{OnTrue};
ghost use Rattle.std.specs.List.{AllByRecursion, flat_map};
ghost use Rattle.pp_model.specs.declared.profile.Sample.{Sample as SampleValue};
ghost use Rattle.pp_share.specs.Located.{with_placed_labels, with_placed_locations, placed_from, HasLocated};
ghost use Rattle.pp_share.specs.Renumbered.{new_ids, renumbered_sample};
ghost use Rattle.pp_share.specs.Share.{NamesLocations};
ghost use Rattle.pp_share.specs.Walk.{met_after, IsPlaced, location_refs, sample_text_ids};
ghost use Rattle.pp_share.specs.Walked.{placed_sample};

use crate::change::change_each;
use crate::met::Met;
use crate::placing::place_each;
use crate::renumbering::Renumbering;
use pp_base::{List, Memory};
use pp_model::{Profile, Sample};
use pp_steal::{PIECE, Resources, for_each_on};
use std::thread::Threads;

/// Who gives samples the places of their locations, once all locations were met.
pub trait Locator {
    /// What has to hold where it is used.
    ghost can: { Self → Type 0 };

    /// Gives the samples from the place `first` on the places of their new locations. It takes no memory.
    fn locate_rest(
        &self,
        samples: &mut List<Sample>,
        by: &Renumbering,
        first: usize,
        locations: &Met,
    )
        requires { can self.now }
        ensures long { length samples.new ≡ length samples.old }
        ensures each { (i : ℕ) → (other : SampleValue) → i < length samples.old
            → slice_index_or samples.new i other
            ≡ placed_from first (new_ids by.now) locations.now i (slice_index_or samples.old i other) };
}

/// `workers` threads.
impl<R: Threads + Sync> Locator for Resources<'_, R> {
    ghost use denote.Param.Send.{IsSync};

    ghost can = { λ with. IsSync R.row };

    fn locate_rest(
        &self,
        samples: &mut List<Sample>,
        by: &Renumbering,
        first: usize,
        locations: &Met,
    ) {
        // No thread is started where all samples have their places.
        if samples.len() <= first {
            return;
        }
        let locate = |index: usize, sample: &mut Sample|
            ensures { sample.exit.now
                ≡ placed_from first (new_ids by.entry.now) locations.entry.now index sample.entry.now }
        { locate_from(first, index, by, locations, sample) };
        for_each_on(
            self.rt,
            samples.as_mut_slice(),
            self.workers as usize,
            &locate,
        );
    }
}

/// The caller's thread.
pub struct Alone;

impl Locator for Alone {
    ghost can = { λ alone. Unit {0} };

    fn locate_rest(
        &self,
        samples: &mut List<Sample>,
        by: &Renumbering,
        first: usize,
        locations: &Met,
    ) {
        for index in 0..samples.len() {
            locate_from(first, index, by, locations, samples.item_mut(index));
        }
    }
}

/// Gives the samples of the profile their new ids, and adds the locations and the texts that were not met yet. Each
/// becomes its place among those that are met. One thread goes over the samples until each location of the table was
/// met, mostly soon, and over the labels of all. `locator` gives the others the places of their locations.
pub fn place_samples<L: Locator>(
    locator: &L,
    p: &mut Profile,
    by: &Renumbering,
    locations: &mut Met,
    texts: &mut Met,
) -> Result<(), Memory>
    requires can { L.can locator.now }
    requires named { AllByRecursion (NamesLocations (length p.old.location))
        (map (renumbered_sample (new_ids by.now)) p.old.sample) }
    ensures locations { OnOk result (locations.new ≡ met_after locations.old
        (flat_map location_refs (map (renumbered_sample (new_ids by.now)) p.old.sample))) }
    ensures texts { OnOk result (texts.new ≡ met_after texts.old
        (flat_map sample_text_ids (map (renumbered_sample (new_ids by.now)) p.old.sample))) }
    ensures placed { OnOk result ((more : Seq ℕ) → p.new ≡ record p.old {
      sample = map (placed_sample locations.new (met_after texts.new more))
          (map (renumbered_sample (new_ids by.now)) p.old.sample);
    }) }
{
    let count = p.location.len();
    place_labels(&mut p.sample, by, texts)?;
    let first = locate_first(&mut p.sample, by, count, locations)?;
    locator.locate_rest(&mut p.sample, by, first, locations);
    Ok(())
}

// Gives the labels of the samples their new texts, and adds the texts that were not met yet. Each becomes its place.
fn place_labels(samples: &mut List<Sample>, by: &Renumbering, texts: &mut Met) -> Result<(), Memory>
    ensures texts { OnOk result (texts.new ≡ met_after texts.old
        (flat_map sample_text_ids (map (renumbered_sample (new_ids by.now)) samples.old))) }
    ensures placed { OnOk result
        (IsPlaced (λ texts. map (with_placed_labels (new_ids by.now) texts)) texts.new samples.old samples.new) }
{
    for index in 0..samples.len() {
        let labels = &mut samples.item_mut(index).label;
        by.change_labels(labels);
        place_each(labels, texts)?;
    }
    Ok(())
}

// Gives samples the places of their new locations, from the first on, until all `count` locations were met. A location
// that was not met yet is added. The answer is how many samples these are.
fn locate_first(
    samples: &mut List<Sample>,
    by: &Renumbering,
    count: usize,
    locations: &mut Met,
) -> Result<usize, Memory>
    ensures { IfOk result (λ first.
        HasLocated (new_ids by.now) count first samples.old samples.new locations.old locations.new) }
{
    for index in 0..samples.len() {
        if index % PIECE == 0 && locations.knows_all(count) {
            return Ok(index);
        }
        let ids = &mut samples.item_mut(index).location_id;
        by.change_locations(ids);
        place_each(ids, locations)?;
    }
    Ok(samples.len())
}

// Gives the sample at the index the places of its new locations, unless it stands before the first.
fn locate_from(first: usize, index: usize, by: &Renumbering, locations: &Met, sample: &mut Sample)
    ensures { sample.new ≡ placed_from first (new_ids by.now) locations.now index sample.old }
{
    if first <= index {
        by.change_locations(&mut sample.location_id);
        change_each(&mut sample.location_id, locations);
    }
}
