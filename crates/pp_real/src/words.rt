//! The words that a program is given.

use pp_base::{Memory, Text};
use std::alloc::Global;
use std::env::{Env, FillError};

/// How many bytes a word is given at first. The room is doubled until the word fits.
const ROOM: usize = 256;

/// The words after the program's name, in their order and whatever their bytes. An error is want of memory.
pub fn read_words<E: Env>(env: &E, alloc: Global) -> Result<Vec<Text>, Memory> {
    let mut words = Vec::new(alloc);
    for number in 1..usize::MAX {
        match read_word(env, alloc, number)? {
            None => break,
            Some(word) => words.push(word)?,
        }
    }
    Ok(words)
}

// The word of a number, the program's name being 0, or `None` past the last.
fn read_word<E: Env>(env: &E, alloc: Global, number: usize) -> Result<Option<Text>, Memory> {
    let mut room = ROOM;
    'growing: loop {
        let mut bytes = vec![in alloc; 0u8; room]?;
        match env.arg(number, &mut bytes) {
            Ok(len) => {
                bytes.truncate(len);
                return Ok(Some(Text::from_vec(bytes)));
            }
            Err(FillError::NotPresent) => return Ok(None),
            // No memory has room that can't be counted.
            Err(FillError::TooLong) => room = room.checked_mul(2).ok_or(Memory)?,
        }
    }
}
