//! What a builder is given, as entries of the profile's tables, and the keys of entries.
ghost use Rattle.std.specs.Prelude.{◌≡◌, ◌+◌, ◌<◌, ◌≤◌, ◌^◌, pos, map, IfOk, All};
ghost use Rattle.pp_build.specs.Adding.{no_tables};
ghost use Rattle.pp_build.specs.Given.{given_mapping, function_of, given_line, label_of, LabelIsWithin};
ghost use Rattle.pp_build.specs.Seen.{keyed_mapping, bare_mapping, keyed_function, bare_function, keyed_location, bare_location};

use crate::given::{LabelValue, LocationId, NewMapping, SampleLabel, SourceLine, TextId};
use crate::seen::{BuiltFunction, BuiltLocation, BuiltMapping};
use pp_base::{List, Memory};
use pp_model::{Function, Label, Line, Location, Mapping, Profile, ValueType};
use std::alloc::Global;

/// No entries, and no text. It takes no memory.
pub fn no_tables(alloc: Global) -> Profile
    ensures { result ≡ no_tables }
{
    Profile {
        sample_type: List::new(alloc),
        sample: List::new(alloc),
        mapping: List::new(alloc),
        location: List::new(alloc),
        function: List::new(alloc),
        text: List::new(alloc),
        drop_frames: 0,
        keep_frames: 0,
        time_nanos: 0,
        duration_nanos: 0,
        period_type: ValueType { kind: 0, unit: 0 },
        period: 0,
        comment: List::new(alloc),
        default_sample_type: 0,
        doc_url: 0,
    }
}

/// The id of the next entry of a table of `len` entries.
pub fn next_id(len: usize) -> Result<u64, Memory>
    ensures { IfOk result (λ id. id ≡ len + 1) }
{
    if len == usize::MAX {
        return Err(Memory);
    }
    Ok(len as u64 + 1)
}

/// The index of the text, as tables have it.
pub fn index_of(text: TextId) -> i64
    requires { text.index < 2 ^ 63 }
    ensures { result ≡ pos text.index }
{
    text.index as i64
}

/// The mapping with the id.
pub fn mapping_with(m: &NewMapping, id: u64) -> Mapping
    requires file { m.now.file.index < 2 ^ 63 }
    requires build_id { m.now.build_id.index < 2 ^ 63 }
    ensures { result ≡ record (given_mapping m.now) { id = id } }
{
    Mapping {
        id,
        start: m.start,
        limit: m.limit,
        offset: m.offset,
        file: index_of(m.file),
        build_id: index_of(m.build_id),
        has_functions: m.has_functions,
        has_filenames: m.has_filenames,
        has_line_numbers: m.has_line_numbers,
        has_inline_frames: m.has_inline_frames,
    }
}

/// The function with the id.
pub fn function_with(
    id: u64,
    name: TextId,
    system_name: TextId,
    file: TextId,
    start_line: i64,
) -> Function
    requires name { name.index < 2 ^ 63 }
    requires system_name { system_name.index < 2 ^ 63 }
    requires file { file.index < 2 ^ 63 }
    ensures { result ≡ record (function_of name system_name file start_line) { id = id } }
{
    Function {
        id,
        name: index_of(name),
        system_name: index_of(system_name),
        filename: index_of(file),
        start_line,
    }
}

/// The key of the mapping.
pub fn mapping_key(m: &Mapping) -> BuiltMapping
    ensures { keyed_mapping result ≡ bare_mapping m.now }
{
    BuiltMapping {
        start: m.start,
        limit: m.limit,
        offset: m.offset,
        file: m.file,
        build_id: m.build_id,
        has_functions: m.has_functions,
        has_filenames: m.has_filenames,
        has_line_numbers: m.has_line_numbers,
        has_inline_frames: m.has_inline_frames,
    }
}

/// The key of the function.
pub fn function_key(f: &Function) -> BuiltFunction
    ensures { keyed_function result ≡ bare_function f.now }
{
    BuiltFunction {
        name: f.name,
        system_name: f.system_name,
        filename: f.filename,
        start_line: f.start_line,
    }
}

/// The key of the location.
pub fn location_key(alloc: Global, l: &Location) -> Result<BuiltLocation, Memory>
    ensures { IfOk result (λ key. keyed_location key ≡ bare_location l.now) }
{
    let line = l.line.as_slice().to_vec(alloc)?;
    Ok(BuiltLocation {
        mapping_id: l.mapping_id,
        address: l.address,
        line,
        folded: l.folded,
    })
}

/// The lines, as tables have them.
pub fn lines_of(alloc: Global, lines: &[SourceLine]) -> Result<List<Line>, Memory>
    ensures { IfOk result (λ list. list ≡ map given_line lines.now) }
{
    let mut list = List::from_vec(Vec::with_capacity(alloc, lines.len())?);
    for line in lines {
        list.push(Line {
            function_id: line.function.number,
            line: line.line,
            column: line.column,
        })?;
    }
    Ok(list)
}

/// The ids, as tables have them.
pub fn ids_of(alloc: Global, locations: &[LocationId]) -> Result<List<u64>, Memory>
    ensures { IfOk result (λ list. list ≡ map (λ l. l.number) locations.now) }
{
    let mut list = List::from_vec(Vec::with_capacity(alloc, locations.len())?);
    for location in locations {
        list.push(location.number)?;
    }
    Ok(list)
}

/// The values, as tables have them.
pub fn values_of(alloc: Global, values: &[i64]) -> Result<List<i64>, Memory>
    ensures { IfOk result (λ list. list ≡ values.now) }
{
    let values = values.to_vec(alloc)?;
    Ok(List::from_vec(values))
}

/// The labels, as tables have them.
pub fn labels_of(alloc: Global, labels: &[SampleLabel]) -> Result<List<Label>, Memory>
    requires { All (LabelIsWithin (2 ^ 63)) labels.now }
    ensures { IfOk result (λ list. list ≡ map label_of labels.now) }
{
    let mut list = List::from_vec(Vec::with_capacity(alloc, labels.len())?);
    for label in labels {
        list.push(label_of(label))?;
    }
    Ok(list)
}

// The label, as tables have it.
fn label_of(label: &SampleLabel) -> Label
    requires { LabelIsWithin (2 ^ 63) label.now }
    ensures { result ≡ label_of label.now }
{
    let key = index_of(label.key);
    match label.value {
        LabelValue::Text(text) => Label {
            key,
            text: index_of(text),
            num: 0,
            num_unit: 0,
        },
        LabelValue::Number(num, unit) => Label {
            key,
            text: 0,
            num,
            num_unit: index_of(unit),
        },
    }
}
