//! Tables whose ids and references are given new numbers, in place.
ghost use Rattle.pp_share.specs.Renumbered.{renumbered_label, renumbered_line, renumbered_type, renumbered_function, renumbered_mapping, renumbered_location, renumbered_sample, renumbered, renumbered_tables, with_header, new_ids};
ghost use Rattle.pp_share.specs.Behind.{behind_id};
ghost use Rattle.pp_share.specs.Ids.{new_id, new_text, listed_id, place_id};
ghost use Rattle.std.specs.Prelude.{◌≡◌, map};

use crate::behind::Behind;
use crate::change::{Change, change_each};
use crate::ids::{Ids, Known, listed};
use crate::met::Met;
use pp_base::List;
use pp_model::{Function, Label, Line, Location, Mapping, Profile, Sample, ValueType};

/// What the ids of each table and the references to it become.
#[derive(Drop)]
pub struct Renumbering {
    /// The ids of texts, which are their indices plus 1.
    pub text: Ids,
    /// The ids of mappings, to which locations refer.
    pub mapping: Ids,
    /// The ids of functions, to which lines refer.
    pub function: Ids,
    /// The ids of locations, to which samples refer.
    pub location: Ids,
}

/// The index of a text.
impl Change<i64> for Renumbering {
    ghost changed = { λ by index. new_text by.text index };

    fn change(&self, index: &mut i64) {
        *index = self.text.text(*index);
    }
}

/// The id of a location.
impl Change<u64> for Renumbering {
    ghost changed = { λ by id. new_id by.location id };

    fn change(&self, id: &mut u64) {
        *id = self.location.id(*id);
    }
}

/// The id of a location whose table goes behind others.
impl Change<u64> for Behind {
    ghost changed = { λ behind. behind_id behind.after behind.len };

    fn change(&self, id: &mut u64) {
        *id = self.id(*id);
    }
}

/// The id of a location, where the new ids stand in a list.
impl Change<u64> for List<u64> {
    ghost changed = { listed_id };

    fn change(&self, id: &mut u64) {
        *id = listed(self.as_slice(), *id);
    }
}

/// The id of a location that was met.
impl Change<u64> for Met {
    ghost changed = { place_id };

    fn change(&self, id: &mut u64) {
        *id = self.id(*id);
    }
}

impl Change<ValueType> for Renumbering {
    ghost changed = { λ by. renumbered_type (new_ids by) };

    fn change(&self, item: &mut ValueType) {
        self.change(&mut item.kind);
        self.change(&mut item.unit);
    }
}

impl Change<Label> for Renumbering {
    ghost changed = { λ by. renumbered_label (new_ids by) };

    fn change(&self, label: &mut Label) {
        self.change(&mut label.key);
        self.change(&mut label.text);
        self.change(&mut label.num_unit);
    }
}

impl Change<Line> for Renumbering {
    ghost changed = { λ by. renumbered_line (new_ids by) };

    fn change(&self, line: &mut Line) {
        line.function_id = self.function.id(line.function_id);
    }
}

impl Change<Function> for Renumbering {
    ghost changed = { λ by. renumbered_function (new_ids by) };

    fn change(&self, function: &mut Function) {
        function.id = self.function.id(function.id);
        self.change(&mut function.name);
        self.change(&mut function.system_name);
        self.change(&mut function.filename);
    }
}

impl Change<Mapping> for Renumbering {
    ghost changed = { λ by. renumbered_mapping (new_ids by) };

    fn change(&self, mapping: &mut Mapping) {
        mapping.id = self.mapping.id(mapping.id);
        self.change(&mut mapping.file);
        self.change(&mut mapping.build_id);
    }
}

impl Change<Location> for Renumbering {
    ghost changed = { λ by. renumbered_location (new_ids by) };

    fn change(&self, location: &mut Location) {
        location.id = self.location.id(location.id);
        location.mapping_id = self.mapping.id(location.mapping_id);
        change_each(&mut location.line, self);
    }
}

impl Change<Sample> for Renumbering {
    ghost changed = { λ by. renumbered_sample (new_ids by) };

    fn change(&self, sample: &mut Sample) {
        self.change_locations(&mut sample.location_id);
        self.change_labels(&mut sample.label);
    }
}

impl Renumbering {
    /// Gives the locations of a sample their new ids. Samples name many, so the way that ids change is asked once a
    /// list, and where all ids stay, they are not gone through.
    #[tactic(auto, using(crate::proofs::KeptIds::same_locations, crate::proofs::KeptIds::changed_locations))]
    pub(crate) fn change_locations(&self, ids: &mut List<u64>)
        ensures { ids.new ≡ map (new_id self.now.location) ids.old }
    {
        match &self.location {
            Ids::Same => {}
            Ids::Listed(_) => change_each(ids, self),
            Ids::Moved(Known::InOrder, behind) => change_each(ids, behind),
            Ids::Moved(Known::KnownIds(_), _) => change_each(ids, self),
            Ids::By(list) => change_each(ids, list),
        }
    }

    /// Gives the labels of a sample their new texts.
    #[tactic(auto, using(crate::proofs::KeptIds::same_labels))]
    pub(crate) fn change_labels(&self, labels: &mut List<Label>)
        ensures { labels.new ≡ map (renumbered_label (new_ids self.now)) labels.old }
    {
        if self.text.keeps_all() {
            return;
        }
        change_each(labels, self);
    }
}

/// Gives all ids and references of the profile their new numbers. It takes no memory.
pub fn renumber(p: &mut Profile, by: &Renumbering)
    ensures { p.new ≡ renumbered (new_ids by.now) p.old }
{
    change_each(&mut p.sample, by);
    renumber_tables(p, by);
}

/// Gives the ids and references of all tables but the samples their new numbers.
pub fn renumber_tables(p: &mut Profile, by: &Renumbering)
    ensures { p.new ≡ renumbered_tables (new_ids by.now) p.old }
{
    change_each(&mut p.sample_type, by);
    change_each(&mut p.mapping, by);
    change_each(&mut p.location, by);
    change_each(&mut p.function, by);
    change_each(&mut p.comment, by);
    renumber_header(p, by);
}

// The text indices that stand once.
fn renumber_header(p: &mut Profile, by: &Renumbering)
    ensures { p.new ≡ with_header (new_ids by.now) p.old }
{
    by.change(&mut p.drop_frames);
    by.change(&mut p.keep_frames);
    by.change(&mut p.period_type);
    by.change(&mut p.default_sample_type);
    by.change(&mut p.doc_url);
}
