//! A base taken off a profile.
ghost use Rattle.std.specs.Prelude.{◌≡◌, ◌+◌, ◌<◌, ◌^◌, None, [], ◌∷◌, ◌++◌, length, map, IfOk, OnOk};
ghost use Rattle.std.specs.List.{AllByRecursion, sum_by};
ghost use Rattle.pp_model.specs.Rules.{NoRuleFails};
ghost use Rattle.pp_model.specs.Sizes.{IsCountable};
ghost use Rattle.pp_merge.specs.Merge.{Merges, difference};
ghost use Rattle.pp_merge.specs.Scale.{base_label, base_texts, labelled_sample, negated};

use crate::merging::{merge, merge_plain_on};
use crate::refusal::MergeRefusal;
use pp_base::{List, Memory, Text};
use pp_keys::HashKeys;
use pp_model::{BaseKind, Compact, Label, Profile, Sample, Valid};
use pp_share::{Change, change_each};
use pp_steal::Resources;
use std::alloc::Global;
use std::thread::Threads;

/// The source merged with the base, whose values are negated. For `DiffBase` each sample of the base has the label
/// `pprof::base` of the text `true` after its own. It is never `Incompatible`.
pub fn subtract(
    alloc: Global,
    hash_keys: HashKeys,
    source: Compact,
    base: Compact,
    kind: BaseKind,
) -> Result<Compact, MergeRefusal>
    requires source { IsCountable source }
    requires base { IsCountable base }
    requires agree { difference source base ≡ None }
    requires few { length source.sample + length base.sample < 2 ^ 32 }
    ensures merges { Merges (source ∷ negated kind base ∷ []) result }
    ensures agree { difference source (negated kind base) ≡ None }
{
    merge(alloc, hash_keys, with_negated(alloc, source, base, kind)?)
}

/// The profile or refusal of `subtract`, whose samples are hashed, sorted and placed on `with.workers` lanes. The answer
/// does not tell how many there were.
pub fn subtract_on<R: Threads + Sync>(
    with: &Resources<'_, R>,
    source: Compact,
    base: Compact,
    kind: BaseKind,
) -> Result<Compact, MergeRefusal>
    requires source { IsCountable source }
    requires base { IsCountable base }
    requires agree { difference source base ≡ None }
    requires few { length source.sample + length base.sample < 2 ^ 32 }
    ensures merges { Merges (source ∷ negated kind base ∷ []) result }
    ensures agree { difference source (negated kind base) ≡ None }
{
    merge_plain_on(with, with_negated(with.alloc, source, base, kind)?)
}

// The source and the negated base, which can be merged.
fn with_negated(
    alloc: Global,
    source: Compact,
    base: Compact,
    kind: BaseKind,
) -> Result<List<Valid>, Memory>
    requires source { IsCountable source }
    requires base { IsCountable base }
    requires agree { difference source base ≡ None }
    requires few { length source.sample + length base.sample < 2 ^ 32 }
    ensures list { IfOk result (λ list. list ≡ source ∷ negated kind base ∷ []) }
    ensures columns { IfOk result (AllByRecursion (λ p. length p.sample_type < 2 ^ 32)) }
    ensures samples { IfOk result (λ list. sum_by (λ p. length p.sample) list < 2 ^ 32) }
    ensures agree { difference source (negated kind base) ≡ None }
{
    // In a valid base the types name texts, so that more texts change nothing of what it has to agree in.
    let _valid = base.get();
    let base = negate(alloc, base, kind)?;
    pair(alloc, source.into_valid(), base)
}

// The two profiles as a list.
fn pair(alloc: Global, first: Valid, second: Valid) -> Result<List<Valid>, Memory>
    ensures { IfOk result (λ list. list ≡ first ∷ second ∷ []) }
{
    let mut list = List::new(alloc);
    list.push(first)?;
    list.push(second)?;
    Ok(list)
}

// The base as it is merged into a source.
fn negate(alloc: Global, base: Compact, kind: BaseKind) -> Result<Valid, Memory>
    requires { IsCountable base }
    ensures { IfOk result (λ p. p ≡ negated kind base) }
{
    let p = negated_profile(alloc, base.into_valid().into_profile(), kind)?;
    Ok(Valid::claim(p))
}

fn negated_profile(alloc: Global, mut p: Profile, kind: BaseKind) -> Result<Profile, Memory>
    requires valid { NoRuleFails p }
    requires countable { IsCountable p }
    ensures { IfOk result (λ negative. negative ≡ negated kind p) }
{
    change_each(&mut p.sample, &Negating);
    match kind {
        BaseKind::Base => (),
        BaseKind::DiffBase => {
            let label = add_base_texts(alloc, &mut p.text)?;
            label_samples(&mut p.sample, label)?;
        }
    }
    Ok(p)
}

// Negates the values of a sample.
struct Negating;

impl Change<Sample> for Negating {
    ghost use Rattle.pp_merge.specs.Scale.{negated_nearest};

    ghost changed = { λ _ s. negated_nearest s };

    fn change(&self, s: &mut Sample) {
        change_each(&mut s.value, &NegatingValue);
    }
}

struct NegatingValue;

impl Change<i64> for NegatingValue {
    ghost use Rattle.pp_merge.specs.Scale.{nearest_negative};

    ghost changed = { λ _ value. nearest_negative value };

    fn change(&self, value: &mut i64) {
        *value = 0i64.saturating_sub(*value);
    }
}

// Appends the texts of the base's label, and gives the label.
fn add_base_texts(alloc: Global, texts: &mut List<Text>) -> Result<Label, Memory>
    ensures label { IfOk result (λ label. label ≡ base_label (length texts.old)) }
    ensures texts { OnOk result (texts.new ≡ texts.old ++ base_texts) }
{
    let label = base_label(texts.as_slice());
    texts.push(Text::from_slice(alloc, b"pprof::base")?)?;
    texts.push(Text::from_slice(alloc, b"true")?)?;
    Ok(label)
}

// The label whose texts stand behind these.
fn base_label(texts: &[Text]) -> Label
    ensures { result ≡ base_label (length texts.now) }
{
    let first = texts.len() as i64;
    Label {
        key: first,
        text: first + 1,
        num: 0,
        num_unit: 0,
    }
}

// Appends the label to those of each sample.
fn label_samples(samples: &mut List<Sample>, label: Label) -> Result<(), Memory>
    ensures { OnOk result (samples.new ≡ map (labelled_sample (label ∷ [])) samples.old) }
{
    for place in 0..samples.len() {
        samples.item_mut(place).label.push(label)?;
    }
    Ok(())
}
