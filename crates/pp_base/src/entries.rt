//! Files as entries of a path and a content, of which the first with a path counts.

ghost use Rattle.std.specs.Prelude.{◌≡◌, IfOk, OnOk, OnErr};
ghost use Rattle.std.specs.List.{position};
ghost use Rattle.std.specs.Option.{option_copied};
ghost use Rattle.std.specs.Str.{bytes_eq};
ghost use Rattle.pp_base.specs.FileMap.{content_at, files_of, with_file, among};

use crate::{Memory, Text};
use std::alloc::Global;

/// The content of a path: that of its first entry.
#[tactic(auto, using(crate::proofs::Scan::scan_found, crate::proofs::Scan::scan_on, crate::proofs::Scan::scan_ends))]
pub fn first_content<'a>(entries: &'a [(Text, Text)], path: &[u8]) -> Option<&'a Text>
    ensures { option_copied result ≡ content_at (files_of entries.now) path.now }
{
    let mut rest = entries;
    while let [(name, bytes), after @ ..] = rest {
        if path == name.as_slice() {
            return Some(bytes);
        }
        rest = after;
    }
    None
}

// The place of the first entry of a path.
fn place_of(entries: &[(Text, Text)], path: &[u8]) -> Option<usize>
    ensures { result ≡ position (λ entry. bytes_eq path.now entry.0) entries.now }
{
    entries.iter().position(|entry| path == entry.0.as_slice())
}

/// Whether a path, or a pattern, stands among the texts.
pub fn is_among(texts: &[Text], text: &[u8]) -> bool
    ensures { result ≡ among texts.now text.now }
{
    let mut rest = texts;
    while let [first, after @ ..] = rest {
        if first.as_slice() == text {
            return true;
        }
        rest = after;
    }
    false
}

/// Makes the bytes the content of the path: over the content that counts, or in an entry at the end.
pub fn put_entry(
    alloc: Global,
    entries: &mut Vec<(Text, Text)>,
    path: &[u8],
    bytes: &[u8],
) -> Result<(), Memory>
    ensures ok { OnOk result
        (files_of entries.new.items ≡ with_file (files_of entries.old.items) path.now bytes.now) }
    ensures err { OnErr result (entries.new.items ≡ entries.old.items) }
{
    let Some(place) = place_of(entries, path) else {
        let entry = entry_of(alloc, path, bytes)?;
        entries.push(entry)?;
        return Ok(());
    };
    entries[place].1 = Text::from_slice(alloc, bytes)?;
    Ok(())
}

// An entry of its own for a path and a content.
fn entry_of(alloc: Global, path: &[u8], bytes: &[u8]) -> Result<(Text, Text), Memory>
    ensures { IfOk result (λ entry. entry ≡ (path.now, bytes.now)) }
{
    let name = Text::from_slice(alloc, path)?;
    let content = Text::from_slice(alloc, bytes)?;
    Ok((name, content))
}
