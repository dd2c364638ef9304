//! What a frame stands for, as text indices and numbers. An id is its place plus 1, so nothing is sought.
ghost use Rattle.std.specs.Prelude.{◌≡◌, ◌<◌, pos, length, IfSome, true};
ghost use Rattle.std.specs.Option.{option_copied};
ghost use Rattle.pp_model.specs.Rules.{NoRuleFails, IsCompact, function_has_texts, mapping_has_texts};
ghost use Rattle.pp_model.specs.Conditions.{IsFrameOf, location_at};
ghost use Rattle.pp_model.specs.Sizes.{value_in};
ghost use Rattle.pp_model.specs.Lookup.{text_at, text_number, text_of, place_read};
ghost use Rattle.pp_model.specs.Frames.{line_at, function_at, mapping_at, function_index, file_index, object_index, line_number, column_number, address_number};
ghost use Rattle.pp_model.specs.FrameTexts.{written};

use crate::frame::Frame;
use crate::loaded::Loaded;
use crate::profile::{Function, Line, Location, Mapping, Profile, Sample};

/// The text index of the function's name, 0 where it isn't known.
pub fn function_of(l: &Loaded, f: &Frame) -> u64
    requires { IsFrameOf l.now.profile f.now }
    ensures index { result ≡ function_index l.now.profile f.now }
    ensures text { text_at l.now.profile result ≡ (written l.now.profile f.now).function }
    ensures range { result < length l.now.profile.text }
{
    match function_in(l.profile.get(), f) {
        Some(function) => text_index(function.name),
        None => 0,
    }
}

/// The text index of the file's name, 0 where it isn't known.
pub fn file_of(l: &Loaded, f: &Frame) -> u64
    requires { IsFrameOf l.now.profile f.now }
    ensures index { result ≡ file_index l.now.profile f.now }
    ensures text { text_at l.now.profile result ≡ (written l.now.profile f.now).file }
    ensures range { result < length l.now.profile.text }
{
    match function_in(l.profile.get(), f) {
        Some(function) => text_index(function.filename),
        None => 0,
    }
}

/// The text index of the mapping's file, 0 where it isn't known.
pub fn object_of(l: &Loaded, f: &Frame) -> u64
    requires { IsFrameOf l.now.profile f.now }
    ensures index { result ≡ object_index l.now.profile f.now }
    ensures text { text_at l.now.profile result ≡ (written l.now.profile f.now).object }
    ensures range { result < length l.now.profile.text }
{
    match mapping_in(l.profile.get(), f) {
        Some(mapping) => text_index(mapping.file),
        None => 0,
    }
}

/// The text indices of what patterns are asked of: each as the call of its own gives it.
#[derive(Clone, Copy, Debug, PartialEq, Eq)]
pub struct FrameTexts {
    /// Of the function's name, 0 where it isn't known.
    pub function: u64,
    /// Of the file's name, 0 where it isn't known.
    pub file: u64,
    /// Of the mapping's file, 0 where it isn't known.
    pub object: u64,
}

/// The frame's text indices, in one look-up of its function.
pub fn texts_of(l: &Loaded, f: &Frame) -> FrameTexts
    requires { IsFrameOf l.now.profile f.now }
    ensures function { result.function ≡ function_index l.now.profile f.now }
    ensures file { result.file ≡ file_index l.now.profile f.now }
    ensures object { result.object ≡ object_index l.now.profile f.now }
    ensures function_text { text_at l.now.profile result.function ≡ (written l.now.profile f.now).function }
    ensures file_text { text_at l.now.profile result.file ≡ (written l.now.profile f.now).file }
    ensures object_text { text_at l.now.profile result.object ≡ (written l.now.profile f.now).object }
    ensures function_range { result.function < length l.now.profile.text }
    ensures file_range { result.file < length l.now.profile.text }
    ensures object_range { result.object < length l.now.profile.text }
{
    let object = object_of(l, f);
    match function_in(l.profile.get(), f) {
        Some(function) => FrameTexts {
            function: text_index(function.name),
            file: text_index(function.filename),
            object,
        },
        None => FrameTexts {
            function: 0,
            file: 0,
            object,
        },
    }
}

/// The line's number, 0 where the frame has no line.
pub fn line_of(l: &Loaded, f: &Frame) -> i64
    requires { IsFrameOf l.now.profile f.now }
    ensures { result ≡ line_number l.now.profile f.now }
{
    match line_in(l.profile.get(), f) {
        Some(line) => line.line,
        None => 0,
    }
}

/// The line's column, 0 where the frame has no line.
pub fn column_in(l: &Loaded, f: &Frame) -> i64
    requires { IsFrameOf l.now.profile f.now }
    ensures { result ≡ column_number l.now.profile f.now }
{
    match line_in(l.profile.get(), f) {
        Some(line) => line.column,
        None => 0,
    }
}

/// The address of the frame's location.
pub fn address_of(l: &Loaded, f: &Frame) -> u64
    requires { IsFrameOf l.now.profile f.now }
    ensures { result ≡ address_number l.now.profile f.now }
{
    location_in(l.profile.get(), f).address
}

// The frame's location.
fn location_in<'a>(p: &'a Profile, f: &Frame) -> &'a Location
    requires { f.now.location < length p.now.location }
    ensures { result.now ≡ location_at p.now f.now.location }
{
    &p.location.as_slice()[f.location as usize]
}

// The frame's line, if it has one.
fn line_in<'a>(p: &'a Profile, f: &Frame) -> Option<&'a Line>
    requires { IsFrameOf p.now f.now }
    ensures { option_copied result ≡ line_at p.now f.now }
{
    let lines = location_in(p, f).line.as_slice();
    match f.row {
        Some(row) => Some(&lines[row as usize]),
        None => None,
    }
}

// The function of the frame's line, if it is known.
fn function_in<'a>(p: &'a Profile, f: &Frame) -> Option<&'a Function>
    requires frame { IsFrameOf p.now f.now }
    requires valid { NoRuleFails p.now }
    requires compact { IsCompact p.now }
    ensures same { option_copied result ≡ function_at p.now f.now }
    ensures texts { IfSome result (λ function. function_has_texts p.now function.now ≡ true) }
{
    let line = line_in(p, f)?;
    with_id(p.function.as_slice(), line.function_id)
}

// The mapping of the frame's location, if it is known.
fn mapping_in<'a>(p: &'a Profile, f: &Frame) -> Option<&'a Mapping>
    requires frame { IsFrameOf p.now f.now }
    requires valid { NoRuleFails p.now }
    requires compact { IsCompact p.now }
    ensures same { option_copied result ≡ mapping_at p.now f.now }
    ensures texts { IfSome result (λ mapping. mapping_has_texts p.now mapping.now ≡ true) }
{
    with_id(p.mapping.as_slice(), location_in(p, f).mapping_id)
}

// The item whose place plus 1 is the id.
fn with_id<T>(items: &[T], id: u64) -> Option<&T>
    ensures { option_copied result ≡ place_read items.now id }
{
    if id == 0 {
        return None;
    }
    items.get((id - 1) as usize)
}

/// The text of an index (profile.proto, `string_table`), and the empty text where there is none.
pub fn text_of(p: &Profile, index: i64) -> &[u8]
    ensures { result.now ≡ text_of p.now index }
{
    let place = if index < 0 { 0 } else { index as usize };
    match p.text.as_slice().get(place) {
        None => &[],
        Some(text) => text.as_slice(),
    }
}

/// The sample's value of the column, and 0 where it has none.
pub fn value_in(sample: &Sample, column: usize) -> i64
    ensures { result ≡ value_in sample.now column }
{
    match sample.value.as_slice().get(column) {
        None => 0,
        Some(value) => *value,
    }
}

// A text index that is in range, as a place.
fn text_index(i: i64) -> u64
    requires { i ≡ pos (text_number i) }
    ensures { result ≡ text_number i }
{
    i as u64
}
