//! Spaces and tabs.
ghost use Rattle.std.specs.Prelude.{◌≡◌, map, IfOk};
ghost use Rattle.std.specs.List.{slice_split};
ghost use Rattle.pp_options.specs.Ends.{without_end};
ghost use Rattle.pp_shell.specs.Blanks.{is_blank, trimmed, without_front, words_in};

use pp_base::Memory;
use std::alloc::{AllocError, Global};

fn is_blank(byte: u8) -> bool
    ensures { result ≡ is_blank byte }
{
    byte == b' ' || byte == b'\t'
}

/// The text without the spaces and tabs at both ends.
pub fn trimmed(text: &[u8]) -> &[u8]
    ensures { result.now ≡ trimmed text.now }
{
    without_end(without_front(text))
}

fn without_front(text: &[u8]) -> &[u8]
    ensures { result.now ≡ without_front text.now }
{
    let mut kept = text;
    while let Some((first, after)) = kept.split_first() {
        if !is_blank(*first) {
            return kept;
        }
        kept = after;
    }
    kept
}

fn without_end(text: &[u8]) -> &[u8]
    ensures { result.now ≡ without_end is_blank text.now }
{
    let mut kept = text;
    while let Some((last, before)) = kept.split_last() {
        if !is_blank(*last) {
            return kept;
        }
        kept = before;
    }
    kept
}

/// The words of the text in their order, parted by spaces and tabs. None is empty.
pub fn words_in(alloc: Global, text: &[u8]) -> Result<Vec<&[u8]>, Memory>
    ensures { IfOk result (λ words. map (λ w. w.now) words.items ≡ words_in text.now) }
{
    let parts = parts(alloc, text)?;
    let mut words = Vec::new(alloc);
    for part in &parts {
        if !part.is_empty() {
            words.push(*part)?;
        }
    }
    Ok(words)
}

// What stands before, between and after the spaces and tabs.
fn parts(alloc: Global, text: &[u8]) -> Result<Vec<&[u8]>, AllocError>
    ensures { IfOk result
        (λ parts. map (λ part. part.now) parts.items ≡ slice_split is_blank text.now) }
{
    text.split(|byte| is_blank(*byte)).collect(alloc)
}
