//! The canonical bytes of a profile.
ghost use Rattle.std.specs.Prelude.{◌≡◌, ◌++◌, Ok, OnOk, IfOk};
ghost use Rattle.pp_tables.specs.Encode.{period_type_field, table_bytes, header_bytes, encode};
ghost use Rattle.pp_tables.specs.Fits.{ValueTypeFits, TablesFit, HeaderFits, NumbersFit};
ghost use Rattle.pp_tables.specs.Pieces.{entry_bytes, EntriesFit};
ghost use Rattle.pp_tables.specs.Read.{read};

use crate::spelled::{Spelled, put_bool, put_int, put_message, put_messages, put_packed_ints};
use crate::waves::put_samples_on;
use pp_base::{Memory, Text};
use pp_model::{Function, Label, Line, Location, Mapping, Profile, Sample, Valid, ValueType};
use pp_steal::Resources;
use pp_wire::{put_number, put_packed};
use std::alloc::Global;
use std::thread::Threads;

impl Spelled for ValueType {
    ghost use Rattle.pp_tables.specs.Encode.{value_type_bytes};
    ghost use Rattle.pp_tables.specs.Fits.{ValueTypeFits};

    ghost bytes = { value_type_bytes };

    ghost fits = { ValueTypeFits };

    fn put(&self, _: Global, out: &mut Text) -> Result<(), Memory> {
        // int64 type = 1;
        put_int(out, 1, &self.kind)?;
        // int64 unit = 2;
        put_int(out, 2, &self.unit)?;
        Ok(())
    }
}

impl Spelled for Label {
    ghost use Rattle.pp_tables.specs.Encode.{label_bytes};
    ghost use Rattle.pp_tables.specs.Fits.{LabelFits};

    ghost bytes = { label_bytes };

    ghost fits = { LabelFits };

    #[tactic(auto, using(crate::proofs::Joins::then_part))]
    fn put(&self, _: Global, out: &mut Text) -> Result<(), Memory> {
        // int64 key = 1;
        put_int(out, 1, &self.key)?;
        // int64 str = 2;
        put_int(out, 2, &self.text)?;
        // int64 num = 3;
        put_int(out, 3, &self.num)?;
        // int64 num_unit = 4;
        put_int(out, 4, &self.num_unit)?;
        Ok(())
    }
}

impl Spelled for Sample {
    ghost use Rattle.pp_tables.specs.Encode.{sample_bytes};
    ghost use Rattle.pp_tables.specs.Fits.{RowFits};

    ghost bytes = { sample_bytes };

    ghost fits = { RowFits };

    fn put(&self, alloc: Global, out: &mut Text) -> Result<(), Memory> {
        // repeated uint64 location_id = 1;
        put_packed(out, 1, self.location_id.as_slice())?;
        // repeated int64 value = 2;
        put_packed_ints(alloc, out, 2, self.value.as_slice())?;
        // repeated Label label = 3;
        put_messages(alloc, out, 3, self.label.as_slice())?;
        Ok(())
    }
}

impl Spelled for Mapping {
    ghost use Rattle.pp_tables.specs.Encode.{mapping_bytes};
    ghost use Rattle.pp_tables.specs.Fits.{MappingFits};

    ghost bytes = { mapping_bytes };

    ghost fits = { MappingFits };

    #[tactic(auto, using(crate::proofs::Joins::then_part))]
    fn put(&self, _: Global, out: &mut Text) -> Result<(), Memory> {
        // uint64 id = 1;
        put_number(out, 1, self.id)?;
        // uint64 memory_start = 2;
        put_number(out, 2, self.start)?;
        // uint64 memory_limit = 3;
        put_number(out, 3, self.limit)?;
        // uint64 file_offset = 4;
        put_number(out, 4, self.offset)?;
        // int64 filename = 5;
        put_int(out, 5, &self.file)?;
        // int64 build_id = 6;
        put_int(out, 6, &self.build_id)?;
        // bool has_functions = 7;
        put_bool(out, 7, self.has_functions)?;
        // bool has_filenames = 8;
        put_bool(out, 8, self.has_filenames)?;
        // bool has_line_numbers = 9;
        put_bool(out, 9, self.has_line_numbers)?;
        // bool has_inline_frames = 10;
        put_bool(out, 10, self.has_inline_frames)?;
        Ok(())
    }
}

impl Spelled for Line {
    ghost use Rattle.pp_tables.specs.Encode.{line_bytes};
    ghost use Rattle.pp_tables.specs.Fits.{LineFits};

    ghost bytes = { line_bytes };

    ghost fits = { LineFits };

    fn put(&self, _: Global, out: &mut Text) -> Result<(), Memory> {
        // uint64 function_id = 1;
        put_number(out, 1, self.function_id)?;
        // int64 line = 2;
        put_int(out, 2, &self.line)?;
        // int64 column = 3;
        put_int(out, 3, &self.column)?;
        Ok(())
    }
}

impl Spelled for Location {
    ghost use Rattle.pp_tables.specs.Encode.{location_bytes};
    ghost use Rattle.pp_tables.specs.Fits.{LocationFits};

    ghost bytes = { location_bytes };

    ghost fits = { LocationFits };

    fn put(&self, alloc: Global, out: &mut Text) -> Result<(), Memory> {
        // uint64 id = 1;
        put_number(out, 1, self.id)?;
        // uint64 mapping_id = 2;
        put_number(out, 2, self.mapping_id)?;
        // uint64 address = 3;
        put_number(out, 3, self.address)?;
        // repeated Line line = 4;
        put_messages(alloc, out, 4, self.line.as_slice())?;
        // bool is_folded = 5;
        put_bool(out, 5, self.folded)?;
        Ok(())
    }
}

impl Spelled for Function {
    ghost use Rattle.pp_tables.specs.Encode.{function_bytes};
    ghost use Rattle.pp_tables.specs.Fits.{FunctionFits};

    ghost bytes = { function_bytes };

    ghost fits = { FunctionFits };

    #[tactic(auto, using(crate::proofs::Joins::then_part))]
    fn put(&self, _: Global, out: &mut Text) -> Result<(), Memory> {
        // uint64 id = 1;
        put_number(out, 1, self.id)?;
        // int64 name = 2;
        put_int(out, 2, &self.name)?;
        // int64 system_name = 3;
        put_int(out, 3, &self.system_name)?;
        // int64 filename = 4;
        put_int(out, 4, &self.filename)?;
        // int64 start_line = 5;
        put_int(out, 5, &self.start_line)?;
        Ok(())
    }
}

impl Spelled for Text {
    ghost use Rattle.std.specs.Prelude.{⊤};

    ghost bytes = { λ text. text };

    ghost fits = { λ text. ⊤ };

    fn put(&self, _: Global, out: &mut Text) -> Result<(), Memory> {
        out.extend(self.as_slice())
    }
}

/// The canonical bytes of the profile: fields in the order of their numbers, repeated ones in list order. Scalars that
/// are 0 or false, empty packed lists and a period type of two zeros are left out. Read, they are the profile again.
#[tactic(auto, using(crate::proofs::Numbers::written_back))]
pub fn write_profile(alloc: Global, p: &Valid) -> Result<Text, Memory>
    ensures bytes { IfOk result (λ text. text ≡ encode p.now) }
    ensures again { IfOk result (λ text. read text ≡ Ok p.now) }
{
    let text = bytes_of(alloc, p.get())?;
    // No text has 2^64 bytes.
    let _len = text.len();
    Ok(text)
}

/// The bytes that `write_profile` gives. The samples are written in pieces of 1,024 on `with.workers` lanes. The bytes do
/// not tell how many there were.
#[tactic(auto, using(crate::proofs::Numbers::written_back))]
pub fn write_profile_on<R: Threads + Sync>(
    with: &Resources<'_, R>,
    p: &Valid,
) -> Result<Text, Memory>
    ensures bytes { IfOk result (λ text. text ≡ encode p.now) }
    ensures again { IfOk result (λ text. read text ≡ Ok p.now) }
{
    let text = bytes_on(with, p.get())?;
    // No text has 2^64 bytes.
    let _len = text.len();
    Ok(text)
}

fn bytes_of(alloc: Global, p: &Profile) -> Result<Text, Memory>
    ensures bytes { IfOk result (λ text. text ≡ encode p.now) }
    ensures numbers { IfOk result (λ _. NumbersFit p.now) }
{
    let mut out = Text::new(alloc);
    put_tables(alloc, &mut out, p)?;
    put_header(alloc, &mut out, p)?;
    Ok(out)
}

fn bytes_on<R: Threads + Sync>(with: &Resources<'_, R>, p: &Profile) -> Result<Text, Memory>
    ensures bytes { IfOk result (λ text. text ≡ encode p.now) }
    ensures numbers { IfOk result (λ _. NumbersFit p.now) }
{
    let mut out = Text::new(with.alloc);
    put_tables_on(with, &mut out, p)?;
    put_header(with.alloc, &mut out, p)?;
    Ok(out)
}

fn put_tables(alloc: Global, out: &mut Text, p: &Profile) -> Result<(), Memory>
    ensures written { OnOk result (out.new ≡ out.old ++ table_bytes p.now) }
    ensures numbers { OnOk result (TablesFit p.now) }
{
    // repeated ValueType sample_type = 1;
    put_messages(alloc, out, 1, p.sample_type.as_slice())?;
    // repeated Sample sample = 2;
    put_messages(alloc, out, 2, p.sample.as_slice())?;
    put_entries(alloc, out, p)
}

fn put_tables_on<R: Threads + Sync>(
    with: &Resources<'_, R>,
    out: &mut Text,
    p: &Profile,
) -> Result<(), Memory>
    ensures written { OnOk result (out.new ≡ out.old ++ table_bytes p.now) }
    ensures numbers { OnOk result (TablesFit p.now) }
{
    put_messages(with.alloc, out, 1, p.sample_type.as_slice())?;
    put_samples_on(with, out, p.sample.as_slice())?;
    put_entries(with.alloc, out, p)
}

// The tables behind the samples.
fn put_entries(alloc: Global, out: &mut Text, p: &Profile) -> Result<(), Memory>
    ensures written { OnOk result (out.new ≡ out.old ++ entry_bytes p.now) }
    ensures numbers { OnOk result (EntriesFit p.now) }
{
    // repeated Mapping mapping = 3;
    put_messages(alloc, out, 3, p.mapping.as_slice())?;
    // repeated Location location = 4;
    put_messages(alloc, out, 4, p.location.as_slice())?;
    // repeated Function function = 5;
    put_messages(alloc, out, 5, p.function.as_slice())?;
    // repeated string string_table = 6;
    put_messages(alloc, out, 6, p.text.as_slice())?;
    Ok(())
}

#[tactic(auto, using(crate::proofs::Joins::then_part))]
fn put_header(alloc: Global, out: &mut Text, p: &Profile) -> Result<(), Memory>
    ensures written { OnOk result (out.new ≡ out.old ++ header_bytes p.now) }
    ensures numbers { OnOk result (HeaderFits p.now) }
{
    // int64 drop_frames = 7;
    put_int(out, 7, &p.drop_frames)?;
    // int64 keep_frames = 8;
    put_int(out, 8, &p.keep_frames)?;
    // int64 time_nanos = 9;
    put_int(out, 9, &p.time_nanos)?;
    // int64 duration_nanos = 10;
    put_int(out, 10, &p.duration_nanos)?;
    // ValueType period_type = 11;
    put_period_type(alloc, out, &p.period_type)?;
    // int64 period = 12;
    put_int(out, 12, &p.period)?;
    // repeated int64 comment = 13;
    put_packed_ints(alloc, out, 13, p.comment.as_slice())?;
    // int64 default_sample_type = 14;
    put_int(out, 14, &p.default_sample_type)?;
    // int64 doc_url = 15;
    put_int(out, 15, &p.doc_url)?;
    Ok(())
}

fn put_period_type(alloc: Global, out: &mut Text, v: &ValueType) -> Result<(), Memory>
    ensures written { OnOk result (out.new ≡ out.old ++ period_type_field v.now) }
    ensures numbers { OnOk result (ValueTypeFits v.now) }
{
    if v.kind.cast_unsigned() == 0 && v.unit.cast_unsigned() == 0 {
        return Ok(());
    }
    let mut payload = Text::new(alloc);
    put_message(alloc, out, 11, v, &mut payload)
}
