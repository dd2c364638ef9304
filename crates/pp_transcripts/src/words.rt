//! Words that are set apart by single spaces. In single quotes a space is kept, and the quotes go.

use crate::escapes::{put_escaped, put_unescaped};
use crate::problem::Problem;
use pp_base::{List, Memory, Text};
use std::alloc::Global;

/// The words of the text, of which there is at least one.
pub fn words_of(alloc: Global, text: &str) -> Result<List<Text>, Problem> {
    let mut reader = WordReader {
        alloc,
        words: List::new(alloc),
        word: None,
    };
    let mut is_quoted = false;
    for part in text.split('\'') {
        if is_quoted {
            reader.put(part)?;
        } else {
            reader.put_plain(part)?;
        }
        is_quoted = !is_quoted;
    }
    if !is_quoted {
        return Err(Problem::Quote);
    }
    reader.close()?;
    Ok(reader.words)
}

// The words that are whole, and the one that has begun.
#[derive(Drop)]
struct WordReader {
    alloc: Global,
    words: List<Text>,
    word: Option<Text>,
}

impl WordReader {
    fn put_plain(&mut self, part: &str) -> Result<(), Problem> {
        let mut is_first = true;
        for piece in part.split(' ') {
            if !is_first {
                self.close()?;
            }
            is_first = false;
            if !piece.is_empty() {
                self.put(piece)?;
            }
        }
        Ok(())
    }

    fn put(&mut self, piece: &str) -> Result<(), Problem> {
        let mut word = self.word.take().unwrap_or(Text::new(self.alloc));
        put_unescaped(&mut word, piece)?;
        self.word = Some(word);
        Ok(())
    }

    fn close(&mut self) -> Result<(), Problem> {
        let word = self.word.take().ok_or(Problem::Word)?;
        self.words.push(word)?;
        Ok(())
    }
}

/// The first word, which is quoted whole or not at all, and the text behind the space that follows it.
pub fn head_of(alloc: Global, text: &str) -> Result<(Text, &str), Problem> {
    let (spelled, rest) = match text.strip_prefix('\'') {
        Some(quoted) => quoted_head(quoted)?,
        None => text.split_once(' ').unwrap_or((text, "")),
    };
    let mut word = Text::new(alloc);
    put_unescaped(&mut word, spelled)?;
    Ok((word, rest))
}

fn quoted_head(quoted: &str) -> Result<(&str, &str), Problem> {
    let (spelled, rest) = quoted.split_once('\'').ok_or(Problem::Quote)?;
    Ok((spelled, rest.strip_prefix(' ').unwrap_or(rest)))
}

/// Adds a spelling of the words.
pub fn put_words(into: &mut Text, words: &[Text]) -> Result<(), Memory> {
    for word in words {
        into.extend(b" ")?;
        put_word(into, word.as_slice())?;
    }
    Ok(())
}

fn put_word(into: &mut Text, word: &[u8]) -> Result<(), Memory> {
    if !word.is_empty() && !word.contains(&b' ') {
        return put_escaped(into, word);
    }
    into.extend(b"'")?;
    put_escaped(into, word)?;
    into.extend(b"'")
}
