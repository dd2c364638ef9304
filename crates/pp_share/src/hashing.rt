//! The hashes of samples, by which most are told apart.
ghost use Rattle.std.specs.Prelude.{◌≡◌, fold};
ghost use Rattle.pp_share.specs.Ids.{new_id};
ghost use Rattle.pp_share.specs.Hashes.{hash_by};
ghost use Rattle.pp_share.specs.SampleKeys.{sample_hash};
ghost use Rattle.pp_share.specs.Renumbered.{new_ids, renumbered_label};
ghost use Rattle.pp_share.specs.SampleStacks.{with_word, with_int, with_label, stack_hash};

use crate::change::Change;
use crate::ids::Ids;
use crate::renumbering::Renumbering;
use pp_model::{Label, Sample};

// A hash in which each id and each field of each label counts, and its place.
#[tactic(auto, using(std::proofs::lemmas::List::Sums::fold_more))]
fn hash_of(ids: &[u64], labels: &[Label]) -> u64
    ensures { result ≡ stack_hash (ids.now, labels.now) }
{
    let mut hash = 0;
    for id in ids {
        hash = with_word(hash, *id);
    }
    for label in labels {
        hash = with_label(hash, label);
    }
    hash
}

/// The hash of the sample by the ids that it has.
pub fn sample_hash(sample: &Sample) -> u64
    ensures { result ≡ sample_hash sample.now }
{
    hash_of(sample.location_id.as_slice(), sample.label.as_slice())
}

/// The hash of the sample as it is once it has its new ids. It stays as it is.
pub fn hash_by(by: &Renumbering, sample: &Sample) -> u64
    ensures { result ≡ hash_by (new_ids by.now) sample.now }
{
    let located = hash_locations(by, sample.location_id.as_slice());
    hash_labels(by, located, sample.label.as_slice())
}

// The hash of the locations by their new ids. Samples name many, so the way that ids change is asked once a list.
fn hash_locations(by: &Renumbering, ids: &[u64]) -> u64
    ensures { result ≡ fold (λ hash id. with_word hash (new_id by.now.location id)) 0 ids.now }
{
    match &by.location {
        Ids::By(list) => hash_changed(ids, list),
        _ => hash_changed(ids, by),
    }
}

fn hash_changed<C: Change<u64>>(ids: &[u64], change: &C) -> u64
    ensures { result ≡ fold (λ hash id. with_word hash (C.changed change.now id)) 0 ids.now }
{
    let mut hash = 0;
    for id in ids {
        let mut new = *id;
        change.change(&mut new);
        hash = with_word(hash, new);
    }
    hash
}

// The hash before, with the labels by their new texts.
fn hash_labels(by: &Renumbering, before: u64, labels: &[Label]) -> u64
    ensures { result
        ≡ fold (λ hash label. with_label hash (renumbered_label (new_ids by.now) label)) before labels.now }
{
    let mut hash = before;
    for label in labels {
        let mut new = *label;
        by.change(&mut new);
        hash = with_label(hash, &new);
    }
    hash
}

// The hash before, with each field of the label.
fn with_label(hash: u64, label: &Label) -> u64
    ensures { result ≡ with_label hash label.now }
{
    let named = with_int(with_int(hash, label.key), label.text);
    with_int(with_int(named, label.num), label.num_unit)
}

fn with_int(hash: u64, more: i64) -> u64
    ensures { result ≡ with_int hash more }
{
    with_word(hash, more.cast_unsigned())
}

// The hash before, with one more. Folding keeps hashes apart that differ by multiples alone.
fn with_word(hash: u64, more: u64) -> u64
    ensures { result ≡ with_word hash more }
{
    let mixed = (hash ^ more).wrapping_mul(11_400_714_819_323_198_485);
    mixed ^ (mixed >> 32)
}
