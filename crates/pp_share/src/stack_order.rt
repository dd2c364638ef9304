//! The order of samples by the ids that they get.
ghost use Rattle.std.specs.Prelude.{◌≡◌};
ghost use Rattle.std.specs.Cmp.Lexicographic.{slice_cmp};
ghost use Rattle.pp_share.specs.Renumbered.{new_ids};
ghost use Rattle.pp_share.specs.StackOrder.{id_cmp, text_cmp, label_cmp, stack_cmp};

use crate::renumbering::Renumbering;
use pp_model::{Label, Sample};
use std::cmp::Ordering;

/// Compares the samples by their new locations, and then by their labels with new texts. `Equal` says that they become
/// equal but for their values.
pub fn stack_order(by: &Renumbering, a: &Sample, b: &Sample) -> Ordering
    ensures { result ≡ stack_cmp (new_ids by.now) a.now b.now }
{
    match ids_order(by, a.location_id.as_slice(), b.location_id.as_slice()) {
        Ordering::Equal => labels_order(by, a.label.as_slice(), b.label.as_slice()),
        other => other,
    }
}

// The first locations that differ decide, and then the lengths.
fn ids_order(by: &Renumbering, a: &[u64], b: &[u64]) -> Ordering
    ensures { result ≡ slice_cmp (id_cmp (new_ids by.now)) a.now b.now }
{
    for index in 0..a.len().min(b.len()) {
        match id_order(by, a[index], b[index]) {
            Ordering::Equal => {}
            other => return other,
        }
    }
    a.len().cmp(&b.len())
}

fn id_order(by: &Renumbering, a: u64, b: u64) -> Ordering
    ensures { result ≡ id_cmp (new_ids by.now) a b }
{
    by.location.id(a).cmp(&by.location.id(b))
}

// The first labels that differ decide, and then the lengths.
fn labels_order(by: &Renumbering, a: &[Label], b: &[Label]) -> Ordering
    ensures { result ≡ slice_cmp (label_cmp (new_ids by.now)) a.now b.now }
{
    for index in 0..a.len().min(b.len()) {
        match label_order(by, &a[index], &b[index]) {
            Ordering::Equal => {}
            other => return other,
        }
    }
    a.len().cmp(&b.len())
}

fn label_order(by: &Renumbering, a: &Label, b: &Label) -> Ordering
    ensures { result ≡ label_cmp (new_ids by.now) a.now b.now }
{
    let rest = a
        .num
        .cmp(&b.num)
        .then(text_order(by, a.num_unit, b.num_unit));
    text_order(by, a.key, b.key).then(text_order(by, a.text, b.text).then(rest))
}

fn text_order(by: &Renumbering, a: i64, b: i64) -> Ordering
    ensures { result ≡ text_cmp (new_ids by.now) a b }
{
    by.text.text(a).cmp(&by.text.text(b))
}
