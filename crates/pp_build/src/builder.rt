//! A profile in the making.

use crate::entries::{
    function_key, function_with, ids_of, index_of, labels_of, lines_of, location_key, mapping_key,
    mapping_with, next_id, no_tables, values_of,
};
use crate::given::{
    FunctionId, LocationId, MappingId, NewMapping, SampleLabel, SourceLine, TextId,
};
use crate::once::put_once;
use crate::seen::Seen;
use pp_base::{Memory, Text};
use pp_model::{Location, Profile, Sample, Valid, ValueType};
use std::alloc::Global;
use std::marker::Model;

/// A profile that grows with each call. Contracts see the profile as it is so far: `finish` gives just that.
///
/// Sample types come before the first sample. An id that a call gave stays right, since a builder only grows. On want
/// of memory a call changes nothing.
#[derive(Drop)]
pub struct Builder {
    alloc: Global,
    profile: Profile,
    seen: Seen,
}

impl Model for Builder {
    ghost use Rattle.pp_model.specs.declared.profile.Profile.{Profile};
    ghost use Rattle.pp_build.specs.Sound.{IsSoundBuilder};

    ghost Value = { Profile };

    ghost view = { λ b. b.profile };

    ghost invariant = { λ b. IsSoundBuilder b.seen b.profile };
}

impl Builder {
    ghost use Rattle.std.specs.Prelude.{◌≡◌, ◌≢◌, ◌<◌, ◌≤◌, ◌+◌, ◌++◌, ◌∷◌, pos, [], length, All, IfOk, OnOk, OnErr, Some};
    ghost use Rattle.pp_model.specs.FrameTexts.{written_at};
    ghost use Rattle.pp_model.specs.Lookup.{text_at};
    ghost use Rattle.pp_model.specs.Rules.{NoRuleFails};
    ghost use Rattle.pp_share.specs.Described.{function_text, function_found, mapping_text, mapping_found};
    ghost use Rattle.pp_build.specs.Given.{given_type, given_mapping, function_of, given_location, given_sample, LabelIsWithin};
    ghost use Rattle.pp_build.specs.Adding.{no_entries, with_new_text, text_index, with_type, with_named_type, with_mapping, mapping_number, with_function, function_number, with_location, location_number, with_frame, frame_number, with_new_sample, with_comment};
    ghost use Rattle.pp_build.specs.Growing.{IdIn, Grows, HasMoreNames};
    ghost use Rattle.pp_build.specs.Said.{bare_frame, location_frames, said_sample, said_samples};

    /// A profile of nothing but the empty text.
    pub fn new(alloc: Global) -> Result<Builder, Memory>
        ensures { IfOk result (λ b. b ≡ no_entries) }
    {
        let mut seen = Seen::new(alloc);
        let mut profile = no_tables(alloc);
        put_once(
            &mut seen.texts,
            &mut profile.text,
            Vec::new(alloc),
            Text::new(alloc),
        )?;
        Ok(Builder {
            alloc,
            profile,
            seen,
        })
    }

    /// The text.
    pub fn text(&mut self, bytes: &[u8]) -> Result<TextId, Memory>
        ensures id { IfOk result (λ id. id.index ≡ text_index self.old bytes.now) }
        ensures new { OnOk result (self.new ≡ with_new_text self.old bytes.now) }
        ensures err { OnErr result (self.new ≡ self.old) }
        ensures within { IfOk result (λ id. id.index < length self.new.text) }
        ensures some { bytes.now ≢ [] → IfOk result (λ id. 0 < id.index) }
        ensures grows { OnOk result (Grows self.old self.new) }
        ensures stands { IfOk result (λ id. text_at self.new id.index ≡ bytes.now) }
        ensures said { OnOk result (said_samples self.new ≡ said_samples self.old) }
    {
        if self.profile.text.len() >= 1 << 62 {
            return Err(Memory);
        }
        let key = Vec::from_slice(self.alloc, bytes)?;
        let text = Text::from_slice(self.alloc, bytes)?;
        let number = put_once(&mut self.seen.texts, &mut self.profile.text, key, text)?;
        Ok(TextId { index: number - 1 })
    }

    /// What one column of values counts, and in which unit. It comes before the first sample.
    pub fn sample_type(&mut self, kind: TextId, unit: TextId) -> Result<(), Memory>
        requires kind { kind.index < length self.old.text }
        requires unit { unit.index < length self.old.text }
        requires first { self.old.sample ≡ [] }
        ensures new { OnOk result (self.new ≡ with_type self.old (given_type kind unit)) }
        ensures err { OnErr result (self.new ≡ self.old) }
    {
        self.profile.sample_type.push(ValueType {
            kind: index_of(kind),
            unit: index_of(unit),
        })
    }

    /// The column of values of this kind and unit, which are texts. It comes before the first sample. On want of memory
    /// the texts may have been added.
    pub fn column(&mut self, kind: &[u8], unit: &[u8]) -> Result<(), Memory>
        requires { self.old.sample ≡ [] }
        ensures new { OnOk result (self.new ≡ with_named_type self.old kind.now unit.now) }
        ensures err { OnErr result (HasMoreNames self.old self.new) }
        ensures types { OnOk result (length self.new.sample_type
            ≡ length self.old.sample_type + 1) }
        ensures texts { length self.old.text ≤ length self.new.text }
        ensures functions { self.new.function ≡ self.old.function }
        ensures none { self.new.sample ≡ [] }
    {
        let kind = self.text(kind)?;
        let unit = self.text(unit)?;
        self.sample_type(kind, unit)
    }

    /// How many values a sample has.
    pub fn types(&self) -> usize
        ensures { result ≡ length self.now.sample_type }
    {
        self.profile.sample_type.len()
    }

    /// The mapping.
    pub fn mapping(&mut self, m: &NewMapping) -> Result<MappingId, Memory>
        requires file { m.now.file.index < length self.old.text }
        requires build_id { m.now.build_id.index < length self.old.text }
        ensures id { IfOk result (λ id. id.number ≡ mapping_number self.old (given_mapping m.now)) }
        ensures new { OnOk result (self.new ≡ with_mapping self.old (given_mapping m.now)) }
        ensures err { OnErr result (self.new ≡ self.old) }
        ensures within { IfOk result (λ id. IdIn (length self.new.mapping) id.number) }
        ensures grows { OnOk result (Grows self.old self.new) }
        ensures stands { IfOk result (λ id. mapping_found self.new id.number
            ≡ Some (mapping_text self.new (given_mapping m.now))) }
        ensures said { OnOk result (said_samples self.new ≡ said_samples self.old) }
    {
        let mapping = mapping_with(m, next_id(self.profile.mapping.len())?);
        let key = mapping_key(&mapping);
        let table = &mut self.profile.mapping;
        let number = put_once(&mut self.seen.mappings, table, key, mapping)?;
        Ok(MappingId { number })
    }

    /// The function of these names. `system_name` is the name as the linker has it, and `start_line` the line in the
    /// file where the function begins, 0 where it isn't known.
    pub fn function(
        &mut self,
        name: TextId,
        system_name: TextId,
        file: TextId,
        start_line: i64,
    ) -> Result<FunctionId, Memory>
        requires name { name.index < length self.old.text }
        requires system_name { system_name.index < length self.old.text }
        requires file { file.index < length self.old.text }
        ensures id { IfOk result (λ id. id.number
            ≡ function_number self.old (function_of name system_name file start_line)) }
        ensures new { OnOk result (self.new
            ≡ with_function self.old (function_of name system_name file start_line)) }
        ensures err { OnErr result (self.new ≡ self.old) }
        ensures within { IfOk result (λ id. IdIn (length self.new.function) id.number) }
        ensures grows { OnOk result (Grows self.old self.new) }
        ensures stands { IfOk result (λ id. function_found self.new id.number
            ≡ Some (function_text self.new (function_of name system_name file start_line))) }
        ensures said { OnOk result (said_samples self.new ≡ said_samples self.old) }
    {
        let id = next_id(self.profile.function.len())?;
        let function = function_with(id, name, system_name, file, start_line);
        let key = function_key(&function);
        let table = &mut self.profile.function;
        let number = put_once(&mut self.seen.functions, table, key, function)?;
        Ok(FunctionId { number })
    }

    /// The place in the code. Each line but the last was inlined into the one after it; there are none where nothing is
    /// known of the source. `address` is 0 where it isn't known.
    pub fn location(
        &mut self,
        mapping: MappingId,
        address: u64,
        lines: &[SourceLine],
    ) -> Result<LocationId, Memory>
        requires mapping { mapping.number ≤ length self.old.mapping }
        requires lines { All (λ l. l.function.number ≤ length self.old.function) lines.now }
        ensures id { IfOk result (λ id. id.number
            ≡ location_number self.old (given_location mapping address lines.now)) }
        ensures new { OnOk result (self.new
            ≡ with_location self.old (given_location mapping address lines.now)) }
        ensures err { OnErr result (self.new ≡ self.old) }
        ensures within { IfOk result (λ id. IdIn (length self.new.location) id.number) }
        ensures grows { OnOk result (Grows self.old self.new) }
        ensures stands { IfOk result (λ id. written_at self.new id.number
            ≡ location_frames self.new (given_location mapping address lines.now)) }
        ensures said { OnOk result (said_samples self.new ≡ said_samples self.old) }
    {
        let location = Location {
            id: next_id(self.profile.location.len())?,
            mapping_id: mapping.number,
            address,
            line: lines_of(self.alloc, lines)?,
            folded: false,
        };
        let key = location_key(self.alloc, &location)?;
        let table = &mut self.profile.location;
        let number = put_once(&mut self.seen.locations, table, key, location)?;
        Ok(LocationId { number })
    }

    /// The location of this line of a function, by the function's name and file: in no mapping, and at no known address.
    /// On want of memory the texts and the function may have been added.
    pub fn frame(&mut self, name: &[u8], file: &[u8], line: i64) -> Result<LocationId, Memory>
        ensures id { IfOk result (λ id. id.number ≡ frame_number self.old name.now file.now line) }
        ensures new { OnOk result (self.new ≡ with_frame self.old name.now file.now line) }
        ensures err { OnErr result (HasMoreNames self.old self.new) }
        ensures within { IfOk result (λ id. IdIn (length self.new.location) id.number) }
        ensures grows { Grows self.old self.new }
        ensures stands { IfOk result (λ id. written_at self.new id.number
            ≡ bare_frame name.now file.now line ∷ []) }
        ensures said { said_samples self.new ≡ said_samples self.old }
    {
        // In what is built no mapping has the id 0, and text 0 is empty.
        let _built = &self.profile;
        let name = self.text(name)?;
        let file = self.text(file)?;
        let function = self.function(name, name, file, 0)?;
        let place = SourceLine {
            function,
            line,
            column: 0,
        };
        self.location(MappingId { number: 0 }, 0, &[place])
    }

    /// The sample of this stack, the leaf's location first, with one value per sample type.
    pub fn sample(
        &mut self,
        locations: &[LocationId],
        values: &[i64],
        labels: &[SampleLabel],
    ) -> Result<(), Memory>
        requires locations { All (λ l. IdIn (length self.old.location) l.number) locations.now }
        requires values { length values.now ≡ length self.old.sample_type }
        requires typed { 0 < length self.old.sample_type }
        requires labels { All (LabelIsWithin (length self.old.text)) labels.now }
        ensures new { OnOk result (self.new
            ≡ with_new_sample self.old (given_sample locations.now values.now labels.now)) }
        ensures err { OnErr result (self.new ≡ self.old) }
        ensures grows { OnOk result (Grows self.old self.new) }
        ensures said { OnOk result (said_samples self.new ≡ said_samples self.old
            ++ said_sample self.old (given_sample locations.now values.now labels.now) ∷ []) }
    {
        let sample = Sample {
            location_id: ids_of(self.alloc, locations)?,
            value: values_of(self.alloc, values)?,
            label: labels_of(self.alloc, labels)?,
        };
        self.profile.sample.push(sample)
    }

    /// When the profile was taken, in nanoseconds since 1970 in UTC, and how long that took, in nanoseconds; each is 0
    /// where it isn't known. It takes no memory.
    pub fn set_times(&mut self, time_nanos: i64, duration_nanos: i64)
        ensures { self.new
            ≡ record self.old { time_nanos = time_nanos; duration_nanos = duration_nanos } }
    {
        self.profile.time_nanos = time_nanos;
        self.profile.duration_nanos = duration_nanos;
    }

    /// What is counted between two samples, and how many of it lie between them. It takes no memory.
    pub fn set_period(&mut self, kind: TextId, unit: TextId, period: i64)
        requires kind { kind.index < length self.old.text }
        requires unit { unit.index < length self.old.text }
        ensures { self.new
            ≡ record self.old { period_type = given_type kind unit; period = period } }
    {
        let profile = &mut self.profile;
        profile.period_type = ValueType {
            kind: index_of(kind),
            unit: index_of(unit),
        };
        profile.period = period;
    }

    /// The patterns of functions that are dropped with all that they call, and of those that stay in spite of it; the
    /// empty text where there is none. It takes no memory.
    pub fn set_frames(&mut self, drop: TextId, keep: TextId)
        requires drop { drop.index < length self.old.text }
        requires keep { keep.index < length self.old.text }
        ensures { self.new ≡ record self.old {
          drop_frames = pos drop.index;
          keep_frames = pos keep.index;
        } }
    {
        let profile = &mut self.profile;
        profile.drop_frames = index_of(drop);
        profile.keep_frames = index_of(keep);
    }

    /// The name of the sample type that reports show unless told otherwise, and the address of the profile's
    /// documentation; the empty text where there is none. It takes no memory.
    pub fn set_names(&mut self, default_sample_type: TextId, doc_url: TextId)
        requires default_sample_type { default_sample_type.index < length self.old.text }
        requires doc_url { doc_url.index < length self.old.text }
        ensures { self.new ≡ record self.old {
          default_sample_type = pos default_sample_type.index;
          doc_url = pos doc_url.index;
        } }
    {
        let profile = &mut self.profile;
        profile.default_sample_type = index_of(default_sample_type);
        profile.doc_url = index_of(doc_url);
    }

    /// A remark on the profile.
    pub fn comment(&mut self, text: TextId) -> Result<(), Memory>
        requires { text.index < length self.old.text }
        ensures new { OnOk result (self.new ≡ with_comment self.old (pos text.index)) }
        ensures err { OnErr result (self.new ≡ self.old) }
    {
        self.profile.comment.push(index_of(text))
    }

    /// The profile. No table rule fails in it. It takes no memory.
    pub fn finish(self) -> Valid
        ensures same { result ≡ self }
        ensures valid { NoRuleFails result }
    {
        Valid::claim(self.profile)
    }
}
