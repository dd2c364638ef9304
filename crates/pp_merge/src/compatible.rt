//! Whether profiles can be merged.
ghost use Rattle.std.specs.Prelude.{◌≡◌, ◌+◌, ◌<◌, ◌^◌, length};
ghost use Rattle.std.specs.Cmp.Lexicographic.{pointwise};
ghost use Rattle.pp_share.specs.Header.{type_text};
ghost use Rattle.pp_merge.specs.Merge.{same_type, has_types_of, difference, disagreeing};

use crate::refusal::What;
use pp_model::{Profile, Valid, ValueType, text_of};

/// In what the second profile differs from the first, or `None` where the two can be merged. Sample types come before
/// the period type. Names and units are compared as texts.
pub fn agree(first: &Valid, p: &Valid) -> Option<What>
    ensures { result ≡ difference first.now p.now }
{
    let (first, p) = (first.get(), p.get());
    if !have_same_types(first, p) {
        return Some(What::SampleTypes);
    }
    if !is_same_type(first, &first.period_type, p, &p.period_type) {
        return Some(What::PeriodType);
    }
    None
}

fn have_same_types(p: &Profile, q: &Profile) -> bool
    ensures { result ≡ has_types_of p.now q.now }
{
    let (types, others) = (p.sample_type.as_slice(), q.sample_type.as_slice());
    types.len() == others.len() && are_same_types(p, types, q, others)
}

fn are_same_types(p: &Profile, types: &[ValueType], q: &Profile, others: &[ValueType]) -> bool
    requires { length types.now ≡ length others.now }
    ensures { result ≡ pointwise
        (λ a b. same_type (type_text p.now a) (type_text q.now b)) types.now others.now }
{
    for (place, kind) in types.iter().enumerate() {
        if !is_same_type(p, kind, q, &others[place]) {
            return false;
        }
    }
    true
}

fn is_same_type(p: &Profile, kind: &ValueType, q: &Profile, other: &ValueType) -> bool
    ensures { result ≡ same_type (type_text p.now kind.now) (type_text q.now other.now) }
{
    text_of(p, kind.kind) == text_of(q, other.kind)
        && text_of(p, kind.unit) == text_of(q, other.unit)
}

/// The first of the others that does not agree with the first profile, by its place from 1, and what it does not agree
/// in.
pub fn first_disagreeing(first: &Valid, others: &[Valid]) -> Option<(u32, What)>
    requires { length others.now + 1 < 2 ^ 32 }
    ensures { result ≡ disagreeing first.now 1 others.now }
{
    for (place, p) in others.iter().enumerate() {
        if let Some(what) = agree(first, p) {
            return Some((place as u32 + 1, what));
        }
    }
    None
}
