// Rules 1 to 3: texts, their indices, and sample types.
ghost use Rattle.std.specs.Prelude.{◌≡◌, ℤ, ◌<◌, length, IfSome};
ghost use Rattle.std.specs.List.{list_all};
ghost use Rattle.pp_model.specs.Rules as rules;

use crate::samples::Soundness;
use pp_model::{Function, Label, Mapping, Profile, Sample, ValueType};

/// Rule 1: index 0, unless there is a text 0 and it is empty.
pub fn text_zero_fault(p: &Profile) -> Option<usize>
    ensures fault { result ≡ rules.text_zero_fault p.now }
    ensures within { IfSome result (λ index. index < 1) }
{
    match p.text.as_slice() {
        [first, ..] if first.len() == 0 => None,
        _ => Some(0),
    }
}

// Whether the index is that of a text.
fn is_text(p: &Profile, index: i64) -> bool
    ensures { result ≡ rules.is_text p.now index }
{
    match usize::try_from(index) {
        Ok(index) => index < p.text.len(),
        Err(_) => false,
    }
}

/// Rule 2, of the header, which counts as one entry, of index 0.
pub fn header_text_fault(p: &Profile) -> Option<usize>
    ensures fault { result ≡ rules.header_text_fault p.now }
    ensures within { IfSome result (λ index. index < 1) }
{
    let is_whole = is_text(p, p.drop_frames)
        && is_text(p, p.keep_frames)
        && is_text(p, p.period_type.kind)
        && is_text(p, p.period_type.unit)
        && is_text(p, p.default_sample_type)
        && is_text(p, p.doc_url);
    if is_whole { None } else { Some(0) }
}

/// Rule 2: the least index of a comment that is no text.
pub fn comment_text_fault(p: &Profile) -> Option<usize>
    ensures fault { result ≡ rules.comment_text_fault p.now }
    ensures within { IfSome result (λ index. index < length p.now.comment) }
{
    p.comment
        .as_slice()
        .iter()
        .position(|text| !is_text(p, *text))
}

// Whether kind and unit are texts.
fn type_has_texts(p: &Profile, kind: &ValueType) -> bool
    ensures { result ≡ rules.type_has_texts p.now kind.now }
{
    is_text(p, kind.kind) && is_text(p, kind.unit)
}

/// Rule 2: the least index of a sample type whose kind or unit is no text.
pub fn type_text_fault(p: &Profile) -> Option<usize>
    ensures fault { result ≡ rules.type_text_fault p.now }
    ensures within { IfSome result (λ index. index < length p.now.sample_type) }
{
    p.sample_type
        .as_slice()
        .iter()
        .position(|kind| !type_has_texts(p, kind))
}

// Whether key, text and unit are texts.
fn label_has_texts(p: &Profile, label: &Label) -> bool
    ensures { result ≡ rules.label_has_texts p.now label.now }
{
    is_text(p, label.key) && is_text(p, label.text) && is_text(p, label.num_unit)
}

/// Whether the texts of the sample's labels are there.
pub fn sample_has_texts(p: &Profile, sample: &Sample) -> bool
    ensures { result ≡ list_all (rules.label_has_texts p.now) sample.now.label }
{
    sample
        .label
        .as_slice()
        .iter()
        .all(|label| label_has_texts(p, label))
}

/// Rule 2: the least index of a sample with a label whose key, text or unit is no text. Sound samples are not asked.
pub(crate) fn sample_text_fault(p: &Profile, samples: Soundness) -> Option<usize>
    requires { samples ≡ Soundness.Sound → rules.sample_text_fault p.now ≡ None }
    ensures fault { result ≡ rules.sample_text_fault p.now }
    ensures within { IfSome result (λ index. index < length p.now.sample) }
{
    if let Soundness::Sound = samples {
        return None;
    }
    p.sample
        .as_slice()
        .iter()
        .position(|sample| !sample_has_texts(p, sample))
}

// Whether file and build id are texts.
fn mapping_has_texts(p: &Profile, mapping: &Mapping) -> bool
    ensures { result ≡ rules.mapping_has_texts p.now mapping.now }
{
    is_text(p, mapping.file) && is_text(p, mapping.build_id)
}

/// Rule 2: the least index of a mapping whose file or build id is no text.
pub fn mapping_text_fault(p: &Profile) -> Option<usize>
    ensures fault { result ≡ rules.mapping_text_fault p.now }
    ensures within { IfSome result (λ index. index < length p.now.mapping) }
{
    p.mapping
        .as_slice()
        .iter()
        .position(|mapping| !mapping_has_texts(p, mapping))
}

// Whether both names and the file are texts.
fn function_has_texts(p: &Profile, function: &Function) -> bool
    ensures { result ≡ rules.function_has_texts p.now function.now }
{
    is_text(p, function.name) && is_text(p, function.system_name) && is_text(p, function.filename)
}

/// Rule 2: the least index of a function whose names or file are no texts.
pub fn function_text_fault(p: &Profile) -> Option<usize>
    ensures fault { result ≡ rules.function_text_fault p.now }
    ensures within { IfSome result (λ index. index < length p.now.function) }
{
    p.function
        .as_slice()
        .iter()
        .position(|function| !function_has_texts(p, function))
}

/// Rule 3: index 0, where there are samples and no sample type.
pub fn untyped_fault(p: &Profile) -> Option<usize>
    ensures fault { result ≡ rules.untyped_fault p.now }
    ensures within { IfSome result (λ index. index < 1) }
{
    if p.sample.len() == 0 || 0 < p.sample_type.len() {
        None
    } else {
        Some(0)
    }
}
