//! The notes of a report: a line for each option that is in force and matches nothing.
ghost use Rattle.std.specs.Prelude.{◌≡◌, ◌++◌, IfOk};
ghost use Rattle.pp_report.specs.Notes.{note, note_unless, has_match, frame_notes, tag_notes, notes_by};

use pp_base::{Memory, Text};
use pp_model::{Filtering, Slot};
use std::alloc::Global;

/// The notes of a report whose options have these matches, in the order of `Matched`.
#[tactic(auto, unfolding(crate::specs::Notes::notes_by))]
pub fn notes_by(alloc: Global, filtering: &Filtering, matched: &[bool]) -> Result<Text, Memory>
    ensures { IfOk result (λ notes. notes ≡ notes_by filtering.now matched.now) }
{
    let mut notes = Text::new(alloc);
    put_frame_notes(filtering, matched, &mut notes)?;
    put_tag_notes(filtering, matched, &mut notes)?;
    Ok(notes)
}

fn put_frame_notes(filtering: &Filtering, matched: &[bool], notes: &mut Text) -> Result<(), Memory>
    ensures { IfOk result (λ _. notes.new ≡ notes.old ++ frame_notes filtering.now matched.now) }
{
    put_note(matched, Slot::Focus, &filtering.focus, notes)?;
    put_note(matched, Slot::Ignore, &filtering.ignore, notes)?;
    put_note(matched, Slot::Hide, &filtering.hide, notes)?;
    put_note(matched, Slot::Show, &filtering.show, notes)?;
    put_note(matched, Slot::ShowFrom, &filtering.show_from, notes)
}

fn put_tag_notes(filtering: &Filtering, matched: &[bool], notes: &mut Text) -> Result<(), Memory>
    ensures { IfOk result (λ _. notes.new ≡ notes.old ++ tag_notes filtering.now matched.now) }
{
    put_note(matched, Slot::TagFocus, &filtering.tagfocus, notes)?;
    put_note(matched, Slot::TagIgnore, &filtering.tagignore, notes)?;
    put_note(matched, Slot::TagShow, &filtering.tagshow, notes)?;
    put_note(matched, Slot::TagHide, &filtering.taghide, notes)
}

// The note on the variable of this slot and value.
#[tactic(auto, unfolding(crate::specs::Notes::note_unless))]
fn put_note(matched: &[bool], slot: Slot, value: &Text, notes: &mut Text) -> Result<(), Memory>
    ensures { IfOk result
        (λ _. notes.new ≡ notes.old ++ note_unless matched.now slot value.now) }
{
    if value.len() == 0 || has_match(matched, slot) {
        return Ok(());
    }
    put_line(slot.name(), notes)
}

fn put_line(name: &[u8], notes: &mut Text) -> Result<(), Memory>
    ensures { IfOk result (λ _. notes.new ≡ notes.old ++ note name.now) }
{
    notes.extend(b"pprof: ")?;
    notes.extend(name)?;
    notes.extend(b" matched no samples\n")
}

fn has_match(matched: &[bool], slot: Slot) -> bool
    ensures { result ≡ has_match matched.now slot }
{
    match matched.get(slot as usize) {
        Some(found) => *found,
        None => true,
    }
}
