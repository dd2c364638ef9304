//! Labels taken off each sample, and set on each.
ghost use Rattle.std.specs.Prelude.{◌≡◌, ◌≢◌, ◌∷◌, [], true, All, IfOk, OnOk, map, not};
ghost use Rattle.std.specs.List.{filter};
ghost use Rattle.std.specs.Str.{bytes_eq};
ghost use Rattle.pp_model.specs.FirstSight.{seen_after};
ghost use Rattle.pp_model.specs.Rules.{IsCompact};
ghost use Rattle.pp_model.specs.Sizes.{IsCountable};
ghost use Rattle.pp_build.specs.Said.{said_samples};
ghost use Rattle.pp_edit.specs.Keys.{names_key};
ghost use Rattle.pp_edit.specs.Labels.{has_label, has_number, label_in, number_label, relabelled, relabelled_sample, said_with, said_without, text_label, with_label_set, without_label};

use crate::key::{LabelKey, key_in};
use crate::texts::index_of;
use pp_base::{List, Memory, Text};
use pp_model::{Label, Profile, Sample, Valid};
use std::alloc::Global;
use std::mem;

/// The profile without the labels of this key: text labels and number labels alike go from each sample, and the others
/// stay in their order. On want of memory, the only error, the profile is gone.
pub fn remove_label(alloc: Global, p: Valid, key: &[u8]) -> Result<Valid, Memory>
    ensures without { IfOk result (λ q. q ≡ without_label p key.now) }
    ensures said { IfOk result (λ q. said_samples q ≡ map (said_without key.now) (said_samples p)) }
    ensures countable { IsCountable p → IfOk result IsCountable }
    ensures compact { IsCompact p → IfOk result IsCompact }
{
    let p = relabel(alloc, p.into_profile(), key, &[])?;
    Ok(Valid::claim(p))
}

/// The profile whose samples have a text label of this key and this text, behind their labels of other keys. All labels
/// of the key that a sample had go, text labels and number labels alike. On want of memory, the only error, the profile
/// is gone.
pub fn set_label(alloc: Global, p: Valid, key: &[u8], text: &[u8]) -> Result<Valid, Memory>
    requires { text.now ≢ [] }
    ensures with { IfOk result (λ q. q ≡ with_label_set p (text_label key.now text.now)) }
    ensures said { IfOk result (λ q. said_samples q
        ≡ map (said_with (text_label key.now text.now)) (said_samples p)) }
    ensures has { IfOk result (λ q. All (λ s. has_label q key.now text.now s ≡ true) q.sample) }
    ensures countable { IsCountable p → IfOk result IsCountable }
    ensures compact { IsCompact p → IfOk result IsCompact }
{
    set(alloc, p, key, text, 0, b"")
}

/// The profile whose samples have a number label of this key, number and unit, behind their labels of other keys. All
/// labels of the key that a sample had go, text labels and number labels alike. With an empty unit the key decides. On
/// want of memory, the only error, the profile is gone.
pub fn set_number_label(
    alloc: Global,
    p: Valid,
    key: &[u8],
    num: i64,
    unit: &[u8],
) -> Result<Valid, Memory>
    ensures with { IfOk result (λ q. q ≡ with_label_set p (number_label key.now num unit.now)) }
    ensures said { IfOk result (λ q. said_samples q
        ≡ map (said_with (number_label key.now num unit.now)) (said_samples p)) }
    ensures has { IfOk result (λ q. All (λ s. has_number q key.now num unit.now s ≡ true) q.sample) }
    ensures countable { IsCountable p → IfOk result IsCountable }
    ensures compact { IsCompact p → IfOk result IsCompact }
{
    set(alloc, p, key, b"", num, unit)
}

// Sets the label of these four parts on each sample.
fn set(
    alloc: Global,
    p: Valid,
    key: &[u8],
    text: &[u8],
    num: i64,
    unit: &[u8],
) -> Result<Valid, Memory>
    ensures with { IfOk result (λ q. q ≡ with_label_set p
        (record { key = key.now; text = text.now; num = num; unit = unit.now })) }
    ensures said { IfOk result (λ q. said_samples q
        ≡ map (said_with (record { key = key.now; text = text.now; num = num; unit = unit.now }))
        (said_samples p)) }
    ensures text { text.now ≢ [] → IfOk result (λ q.
        All (λ s. has_label q key.now text.now s ≡ true) q.sample) }
    ensures number { text.now ≡ [] → IfOk result (λ q.
        All (λ s. has_number q key.now num unit.now s ≡ true) q.sample) }
    ensures countable { IsCountable p → IfOk result IsCountable }
    ensures compact { IsCompact p → IfOk result IsCompact }
{
    let mut p = p.into_profile();
    let label = label_of(alloc, &mut p.text, key, text, num, unit)?;
    let p = relabel(alloc, p, key, &[label])?;
    Ok(Valid::claim(p))
}

// The label of these four parts, whose texts are added where they are not there.
fn label_of(
    alloc: Global,
    texts: &mut List<Text>,
    key: &[u8],
    text: &[u8],
    num: i64,
    unit: &[u8],
) -> Result<Label, Memory>
    ensures label { IfOk result (λ label. label ≡ label_in texts.new
        (record { key = key.now; text = text.now; num = num; unit = unit.now })) }
    ensures texts { OnOk result (texts.new
        ≡ seen_after bytes_eq texts.old (key.now ∷ text.now ∷ unit.now ∷ [])) }
{
    Ok(Label {
        key: index_of(alloc, texts, key)?,
        text: index_of(alloc, texts, text)?,
        num,
        num_unit: index_of(alloc, texts, unit)?,
    })
}

// Puts the labels in the place of those of the key, in each sample.
fn relabel(alloc: Global, mut p: Profile, key: &[u8], labels: &[Label]) -> Result<Profile, Memory>
    ensures { IfOk result (λ q. q ≡ relabelled p key.now labels.now) }
{
    let key = key_in(alloc, p.text.as_slice(), key)?;
    relabel_each(alloc, &mut p.sample, &key, labels)?;
    Ok(p)
}

fn relabel_each(
    alloc: Global,
    samples: &mut List<Sample>,
    key: &LabelKey,
    labels: &[Label],
) -> Result<(), Memory>
    ensures { OnOk result
        (samples.new ≡ map (relabelled_sample (names_key key.now) labels.now) samples.old) }
{
    for place in 0..samples.len() {
        let sample = samples.item_mut(place);
        drop_labels(alloc, &mut sample.label, key);
        sample.label.extend(labels)?;
    }
    Ok(())
}

// Takes the labels of the key out. It takes no memory.
fn drop_labels(alloc: Global, labels: &mut List<Label>, key: &LabelKey)
    ensures { labels.new ≡ filter (λ label. not (names_key key.now label)) labels.old }
{
    let mut kept = mem::replace(labels, List::new(alloc)).into_vec();
    kept.retain(|label| !key.is_of(label));
    *labels = List::from_vec(kept);
}
