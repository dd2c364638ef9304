//! The lines of samples in the traces report.
ghost use Rattle.std.specs.Prelude.{◌≡◌, ◌++◌, [], map, All, IfOk, IfSome};
ghost use Rattle.std.specs.List.{flat_map};
ghost use Rattle.pp_model.specs.Conditions.{IsSampleOf, RefersTo};
ghost use Rattle.pp_model.specs.Finders.{Finders};
ghost use Rattle.pp_units.specs.Shown.{shown};
ghost use Rattle.pp_units.specs.Numbers.{value_text};
ghost use Rattle.pp_grain.specs.Keys.{key_written, IsKeyOf};
ghost use Rattle.pp_count.specs.Column.{selected};
ghost use Rattle.pp_count.specs.Counts.{samples_at};
ghost use Rattle.pp_samples.specs.Traces.{trace_separator, frame_line, trace_text};
ghost use Rattle.pp_samples.specs.Tracing.{trace_profile, trace_key, FindsInTraces, HasTraces, IsKeyNumber, sample_trace};

use crate::frame_lines::put_line;
use crate::label_lines::write_labels;
use crate::subject::Traces;
use pp_base::{List, Memory, Text};
use pp_count::{see, selected};
use pp_grain::{Key, write_name};
use pp_model::{Label, Loaded, Sample, Stack};
use pp_units::{put_right, put_value};
use std::alloc::Global;

/// The line between two samples: 11 dashes, a plus, 55 dashes.
pub const SEPARATOR: &[u8] =
    b"-----------+-------------------------------------------------------\n";

/// What is written of one sample, in room that is used again.
#[derive(Drop)]
pub struct Room {
    /// Its frames, as far as they are needed.
    pub stack: Stack,
    /// The key numbers of its frames that count, leaf first.
    pub keys: Vec<u64>,
    /// Its labels that are shown.
    pub shown: List<Label>,
    /// The lines of its labels.
    pub labels: Text,
    /// The text of its value.
    pub value: Text,
}

/// The lines of the samples with these numbers.
pub fn traces_at(alloc: Global, t: &Traces, numbers: &[u32]) -> Result<Text, Memory>
    ensures { IfOk result (HasTraces t.now numbers.now) }
{
    let mut lines = Text::new(alloc);
    put_traces(alloc, t, numbers, &mut lines)?;
    Ok(lines)
}

/// Appends the lines of the samples with these numbers.
pub fn put_traces(alloc: Global, t: &Traces, kept: &[u32], lines: &mut Text) -> Result<(), Memory>
    ensures { (f : Finders) → FindsInTraces t.now f → IfOk result (λ _. lines.new ≡ lines.old
        ++ flat_map (sample_trace t.now f) (samples_at (trace_profile t.now) kept.now)) }
{
    let samples = t.scope.l.profile.get().sample.as_slice();
    let mut room = Room {
        stack: List::new(alloc),
        keys: Vec::new(alloc),
        shown: List::new(alloc),
        labels: Text::new(alloc),
        value: Text::new(alloc),
    };
    for number in kept {
        if let Some(s) = samples.get(*number as usize) {
            put_sample(alloc, t, s, &mut room, lines)?;
        }
    }
    Ok(())
}

// What the filters leave of the sample.
fn put_sample(
    alloc: Global,
    t: &Traces,
    s: &Sample,
    room: &mut Room,
    lines: &mut Text,
) -> Result<(), Memory>
    requires member { IsSampleOf (trace_profile t.now) s.now }
    requires refers { RefersTo (trace_profile t.now) s.now }
    ensures { (f : Finders) → FindsInTraces t.now f →
        IfOk result (λ _. lines.new ≡ lines.old ++ sample_trace t.now f s.now) }
{
    if !see(&t.scope, s, &mut room.stack, &mut room.keys)? {
        return Ok(());
    }
    write_labels(alloc, &t.scope, s, &mut room.shown, &mut room.labels)?;
    write_own_value(t, s, &mut room.value)?;
    put_room(t, room, lines)
}

// The text of the sample's value, in the place of what was there.
fn write_own_value(t: &Traces, s: &Sample, text: &mut Text) -> Result<(), Memory>
    ensures { IfOk result (λ _. text.new ≡ value_text
        (selected t.now.scope.column t.now.scope.config.now.presentation.divide_by s.now)
        (shown t.now.unit.now)) }
{
    text.clear();
    let scope = &t.scope;
    let value = selected(
        scope.l,
        s,
        scope.column,
        scope.config.presentation.divide_by,
    );
    put_value(value, t.unit, text)
}

// The sample that the room holds.
fn put_room(t: &Traces, room: &Room, lines: &mut Text) -> Result<(), Memory>
    requires { All (IsKeyNumber t.now) room.now.keys.items }
    ensures { IfOk result (λ _. lines.new ≡ lines.old ++ trace_text room.now.labels room.now.value
        (map (trace_key t.now) room.now.keys.items)) }
{
    let [first, others @ ..] = room.keys.as_slice() else {
        return Ok(());
    };
    lines.extend(SEPARATOR)?;
    lines.extend(room.labels.as_slice())?;
    put_first(t.scope.l, room.value.as_slice(), &key_at(t, *first), lines)?;
    put_others(t, others, lines)
}

// The frames above the first one.
fn put_others(t: &Traces, keys: &[u64], lines: &mut Text) -> Result<(), Memory>
    requires { All (IsKeyNumber t.now) keys.now }
    ensures { IfOk result (λ _. lines.new ≡ lines.old
        ++ flat_map (frame_line []) (map (trace_key t.now) keys.now)) }
{
    for key in keys {
        put_frame(t, *key, lines)?;
    }
    Ok(())
}

// The key of the number.
fn key_at(t: &Traces, number: u64) -> Key
    requires { IsKeyNumber t.now number }
    ensures key { key_written (trace_profile t.now) result ≡ trace_key t.now number }
    ensures of_profile { IsKeyOf (trace_profile t.now) result }
{
    t.scope.table.names.key(number)
}

// A frame that nothing stands in front of.
fn put_frame(t: &Traces, number: u64, lines: &mut Text) -> Result<(), Memory>
    requires { IsKeyNumber t.now number }
    ensures { IfOk result (λ _. lines.new ≡ lines.old ++ frame_line [] (trace_key t.now number)) }
{
    match made_line(t, number) {
        Some(line) => lines.extend(line),
        None => put_line(t.scope.l, &key_at(t, number), lines),
    }
}

// The line of the key with the number, where it is made.
fn made_line<'a>(t: &Traces<'a>, number: u64) -> Option<&'a [u8]>
    ensures { IfSome result (λ line. line.now ≡ frame_line [] (trace_key t.now number)) }
{
    let Some(place) = t.lines.places.get(number as usize) else {
        return None;
    };
    let (_, rest) = t.lines.text.as_slice().split_at(place.start);
    let (line, _) = rest.split_at(place.len);
    Some(line)
}

// A frame below what stands in front of it, in the first ten places of its line.
#[tactic(auto, unfolding(crate::specs::Traces::frame_line))]
fn put_first(l: &Loaded, front: &[u8], key: &Key, lines: &mut Text) -> Result<(), Memory>
    requires { IsKeyOf l.now.profile key.now }
    ensures { IfOk result (λ _. lines.new
        ≡ lines.old ++ frame_line front.now (key_written l.now.profile key.now)) }
{
    put_right(10, front, lines)?;
    lines.extend(b"   ")?;
    write_name(l, key, lines)?;
    lines.extend(b"\n")
}
