//! The lines of frames, made once and shared by all lanes.
ghost use Rattle.std.specs.Prelude.{◌≡◌, ◌++◌, [], ◌∷◌, length, All, IfOk};
ghost use Rattle.pp_grain.specs.Keys.{IsKeyOf, key_written};
ghost use Rattle.pp_samples.specs.Traces.{frame_line};
ghost use Rattle.pp_samples.specs.FrameLines.{AreFrameLines};

use pp_base::{Memory, Text};
use pp_grain::{Key, Names, write_name};
use pp_model::Loaded;
use std::alloc::Global;

/// How many lines are made for each sample at most. A few samples need few of them.
const LINES_PER_SAMPLE: usize = 8;

/// No more line is made once all have this many bytes. A frame without one is written by its key.
const ROOM: usize = 8 << 20;

/// Where a line stands in the text of many.
#[derive(Clone, Copy, Debug)]
pub struct LinePlace {
    /// How many bytes stand before it.
    pub start: usize,
    /// How many bytes it has.
    pub len: usize,
}

/// The lines of frames that nothing stands in front of, for the first key numbers.
#[derive(Drop)]
pub struct FrameLines {
    /// The lines, one behind another.
    pub text: Text,
    /// For each key number, where its line stands.
    pub places: Vec<LinePlace>,
}

/// The lines of the first keys, as many as this number of samples may need.
pub fn frame_lines(
    alloc: Global,
    l: &Loaded,
    names: &Names,
    samples: usize,
) -> Result<FrameLines, Memory>
    requires { All (IsKeyOf l.now.profile) names.now }
    ensures { IfOk result (AreFrameLines l.now.profile names.now) }
{
    let mut made = FrameLines {
        text: Text::new(alloc),
        places: Vec::new(alloc),
    };
    let most = samples.saturating_mul(LINES_PER_SAMPLE) as u64;
    for number in 0..names.len().min(most) {
        if made.text.len() > ROOM {
            return Ok(made);
        }
        add_line(l, &names.key(number), &mut made)?;
    }
    Ok(made)
}

// Adds the line of the next key.
fn add_line(l: &Loaded, key: &Key, made: &mut FrameLines) -> Result<(), Memory>
    requires { IsKeyOf l.now.profile key.now }
    ensures text { IfOk result (λ _. made.new.text
        ≡ made.old.text ++ frame_line [] (key_written l.now.profile key.now)) }
    ensures places { IfOk result (λ _. made.new.places.items ≡ made.old.places.items
        ++ record {
          start = length made.old.text;
          len = length (frame_line [] (key_written l.now.profile key.now));
        } ∷ []) }
{
    let start = made.text.len();
    put_line(l, key, &mut made.text)?;
    let len = made.text.len() - start;
    made.places.push(LinePlace { start, len })?;
    Ok(())
}

/// A frame that nothing stands in front of: its ten places and the three after them are one text.
#[tactic(auto, unfolding(crate::specs::Traces::frame_line))]
pub fn put_line(l: &Loaded, key: &Key, lines: &mut Text) -> Result<(), Memory>
    requires { IsKeyOf l.now.profile key.now }
    ensures { IfOk result (λ _. lines.new ≡ lines.old ++ frame_line [] (key_written l.now.profile key.now)) }
{
    lines.extend(b"             ")?;
    write_name(l, key, lines)?;
    lines.extend(b"\n")
}
