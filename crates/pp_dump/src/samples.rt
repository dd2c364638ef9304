//! The samples of the raw report.
ghost use Rattle.std.specs.Prelude.{◌≡◌, ◌++◌, codes, IfOk};
ghost use Rattle.std.specs.List.{flat_map};
ghost use Rattle.pp_dump.specs.Raw.{samples_text, types_line, type_word, spaced, value_word, sample_line, sample_lines, id_word, label_line, raw_label_value, number_value, unit_end};

use crate::digits::{put_decimal, put_right_signed, put_signed};
use pp_base::{Memory, Text};
use pp_model::{Label, Profile, Sample, ValueType, text_of};
use pp_steal::{Piecewise, Resources, run_piecewise};
use pp_tags::has_text;
use std::alloc::Global;
use std::thread::Threads;

// How many samples a wave has. So no more than their lines stand in memory twice.
const WAVE: usize = 16_384;

/// Appends the sample types, and for each sample its values, its locations and its labels. Samples are written in
/// pieces of 1,024 on `with.workers` lanes. The lines do not tell how many there were.
pub fn put_samples<R: Threads + Sync>(
    with: &Resources<'_, R>,
    p: &Profile,
    lines: &mut Text,
) -> Result<(), Memory>
    ensures { IfOk result (λ _. lines.new ≡ lines.old ++ samples_text p.now) }
{
    lines.extend(b"Samples:\n")?;
    put_types(p, lines)?;
    put_all_samples(with, p, lines)
}

// The lines of all samples. One lane needs no pieces.
fn put_all_samples<R: Threads + Sync>(
    with: &Resources<'_, R>,
    p: &Profile,
    lines: &mut Text,
) -> Result<(), Memory>
    ensures { IfOk result (λ _.
        lines.new ≡ lines.old ++ flat_map (sample_lines p.now) p.now.sample) }
{
    let samples = p.sample.as_slice();
    if with.workers == 1 {
        return put_each_sample(p, samples, lines);
    }
    for wave in 0..samples.len().div_ceil(WAVE) {
        let start = wave * WAVE;
        let len = (samples.len() - start).min(WAVE);
        put_wave(with, p, &samples[start..start + len], lines)?;
    }
    Ok(())
}

fn put_wave<R: Threads + Sync>(
    with: &Resources<'_, R>,
    p: &Profile,
    wave: &[Sample],
    lines: &mut Text,
) -> Result<(), Memory>
    ensures { IfOk result (λ _. lines.new ≡ lines.old ++ flat_map (sample_lines p.now) wave.now) }
{
    let alloc = with.alloc;
    let text = run_piecewise(with, &Writing { alloc, p }, wave)?;
    lines.append(text)
}

// Writing of samples, which can be done for any part of them.
#[derive(Drop)]
struct Writing<'a> {
    // Where the lines are allocated.
    alloc: Global,
    p: &'a Profile,
}

impl Piecewise<Sample> for Writing<'_> {
    type Out = Text;

    ghost use Rattle.std.specs.Prelude.{◌≡◌};
    ghost use Rattle.std.specs.List.{flat_map};
    ghost use Rattle.pp_dump.specs.Raw.{sample_lines};

    ghost right = { λ work samples text. text ≡ flat_map (sample_lines work.p.now) samples };

    fn begin(&self, _: usize) -> Result<Text, Memory> {
        Ok(Text::new(self.alloc))
    }

    fn run(&self, samples: &[Sample]) -> Result<Text, Memory> {
        let mut text = Text::new(self.alloc);
        put_each_sample(self.p, samples, &mut text)?;
        Ok(text)
    }

    fn append(&self, mut front: Text, back: Text) -> Result<Text, Memory> {
        front.append(back)?;
        Ok(front)
    }
}

fn put_each_sample(p: &Profile, samples: &[Sample], lines: &mut Text) -> Result<(), Memory>
    ensures { IfOk result (λ _.
        lines.new ≡ lines.old ++ flat_map (sample_lines p.now) samples.now) }
{
    for s in samples {
        put_sample(p, s, lines)?;
    }
    Ok(())
}

// The line of all sample types.
fn put_types(p: &Profile, lines: &mut Text) -> Result<(), Memory>
    ensures { IfOk result (λ _. lines.new ≡ lines.old ++ types_line p.now) }
{
    put_type_words(p, p.sample_type.as_slice(), lines)?;
    lines.extend(b"\n")
}

#[tactic(auto, unfolding(crate::specs::Raw::spaced))]
fn put_type_words(p: &Profile, types: &[ValueType], lines: &mut Text) -> Result<(), Memory>
    ensures { IfOk result (λ _. lines.new ≡ lines.old ++ spaced (type_word p.now) types.now) }
{
    let [first, others @ ..] = types else {
        return Ok(());
    };
    put_type(p, first, lines)?;
    for t in others {
        lines.extend(b" ")?;
        put_type(p, t, lines)?;
    }
    Ok(())
}

fn put_type(p: &Profile, t: &ValueType, lines: &mut Text) -> Result<(), Memory>
    ensures { IfOk result (λ _. lines.new ≡ lines.old ++ type_word p.now t.now) }
{
    lines.extend(text_of(p, t.kind))?;
    lines.extend(b"/")?;
    lines.extend(text_of(p, t.unit))
}

// The lines of a sample and of its labels.
fn put_sample(p: &Profile, s: &Sample, lines: &mut Text) -> Result<(), Memory>
    ensures { IfOk result (λ _. lines.new ≡ lines.old ++ sample_lines p.now s.now) }
{
    put_sample_line(s, lines)?;
    put_labels(p, s.label.as_slice(), lines)
}

fn put_labels(p: &Profile, labels: &[Label], lines: &mut Text) -> Result<(), Memory>
    ensures { IfOk result (λ _. lines.new ≡ lines.old ++ flat_map (label_line p.now) labels.now) }
{
    for label in labels {
        put_label(p, label, lines)?;
    }
    Ok(())
}

fn put_sample_line(s: &Sample, lines: &mut Text) -> Result<(), Memory>
    ensures { IfOk result (λ _. lines.new ≡ lines.old ++ sample_line s.now) }
{
    put_values(s.value.as_slice(), lines)?;
    lines.extend(b":")?;
    put_ids(s.location_id.as_slice(), lines)?;
    lines.extend(b"\n")
}

#[tactic(auto, unfolding(crate::specs::Raw::spaced))]
fn put_values(values: &[i64], lines: &mut Text) -> Result<(), Memory>
    ensures { IfOk result (λ _. lines.new ≡ lines.old ++ spaced value_word values.now) }
{
    let [first, others @ ..] = values else {
        return Ok(());
    };
    put_right_signed(*first, lines)?;
    for value in others {
        lines.extend(b" ")?;
        put_right_signed(*value, lines)?;
    }
    Ok(())
}

fn put_ids(ids: &[u64], lines: &mut Text) -> Result<(), Memory>
    ensures { IfOk result (λ _. lines.new ≡ lines.old ++ flat_map id_word ids.now) }
{
    for id in ids {
        put_id(*id, lines)?;
    }
    Ok(())
}

fn put_id(id: u64, lines: &mut Text) -> Result<(), Memory>
    ensures { IfOk result (λ _. lines.new ≡ lines.old ++ id_word id) }
{
    lines.extend(b" ")?;
    put_decimal(id, lines)
}

fn put_label(p: &Profile, label: &Label, lines: &mut Text) -> Result<(), Memory>
    ensures { IfOk result (λ _. lines.new ≡ lines.old ++ label_line p.now label.now) }
{
    lines.extend(b"    ")?;
    lines.extend(text_of(p, label.key))?;
    lines.extend(b"=")?;
    put_label_value(p, label, lines)?;
    lines.extend(b"\n")
}

// The value of a label: its text, or its number with the unit.
#[tactic(auto, unfolding(crate::specs::Raw::raw_label_value))]
fn put_label_value(p: &Profile, label: &Label, lines: &mut Text) -> Result<(), Memory>
    ensures { IfOk result (λ _. lines.new ≡ lines.old ++ raw_label_value p.now label.now) }
{
    if has_text(label) {
        return lines.extend(text_of(p, label.text));
    }
    put_number(label.num, text_of(p, label.num_unit), lines)
}

fn put_number(num: i64, unit: &[u8], lines: &mut Text) -> Result<(), Memory>
    ensures { IfOk result (λ _. lines.new ≡ lines.old ++ number_value num unit.now) }
{
    put_signed(num, lines)?;
    put_unit(unit, lines)
}

// The unit of a number, after a space, where the label names one.
#[tactic(auto, unfolding(crate::specs::Raw::unit_end))]
fn put_unit(unit: &[u8], lines: &mut Text) -> Result<(), Memory>
    ensures { IfOk result (λ _. lines.new ≡ lines.old ++ unit_end unit.now) }
{
    if unit.is_empty() {
        return Ok(());
    }
    lines.extend(b" ")?;
    lines.extend(unit)
}
