//! Labels that are set on each sample, looked for, and removed.
use anyhow::Result;
use pp_base::{Memory, Text};
use pp_edit::{copy_compact, find_label, is_of_base, remove_label, set_label, set_number_label};
use pp_model::{Compact, Label, Profile};
use std::alloc::Global;

/// A copy of the profile whose samples have the number label `block`, of 4096 bytes.
pub fn with_block(alloc: Global, server: &Compact) -> Result<Compact, Memory> {
    let copy = copy_compact(alloc, server)?;
    let marked = set_number_label(alloc, copy.into_valid(), b"block", 4096, b"bytes")?;
    Ok(Compact::claim(marked))
}

/// Appends what the first sample has, before and after the label `block` gives way to that of a base.
pub fn put_labels(alloc: Global, server: &Compact, out: &mut Text) -> Result<()> {
    let marked = with_block(alloc, server)?.into_valid();
    put_first(alloc, marked.get(), out)?;
    let bare = remove_label(alloc, marked, b"block")?;
    let base = set_label(alloc, bare, b"pprof::base", b"true")?;
    put_first(alloc, base.get(), out)
}

fn put_first(alloc: Global, p: &Profile, out: &mut Text) -> Result<()> {
    if let [sample, ..] = p.sample.as_slice() {
        let base = is_of_base(p, sample);
        let block = number_of(find_label(p, sample, b"block"));
        let line = format!(in alloc; "\nof a base: {base}, block: {block}")?;
        out.extend(line.as_bytes())?;
    }
    Ok(())
}

fn number_of(label: Option<&Label>) -> i64 {
    match label {
        Some(label) => label.num,
        None => 0,
    }
}
