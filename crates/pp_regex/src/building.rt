//! A regular expression made of a pattern's text.

ghost use Rattle.std.specs.Prelude.{◌≡◌, IfOk, IfErr};
ghost use Rattle.pp_regex.specs.Built.{IsBuiltFrom, IsCauseOf};

use regex::{Error, bytes};
use std::alloc::Global;
use std::str;

/// Why no regular expression was made.
#[derive(Clone, Copy, Debug, PartialEq, Eq)]
pub enum BuildRefusal {
    /// The text isn't UTF-8, or the grammar reads no pattern from it, or one that is nested too deep.
    NoPattern,
    /// The text is a pattern, and the program that would search for it is too large.
    Unbuilt,
    /// Want of memory.
    Memory,
}

/// The regular expression of a text, that searches bytes.
pub fn build(alloc: Global, text: &[u8]) -> Result<bytes::Regex, BuildRefusal>
    ensures built { IfOk result (IsBuiltFrom text.now) }
    ensures cause { IfErr result (IsCauseOf text.now) }
{
    let Ok(source) = str::from_utf8(text) else {
        return Err(BuildRefusal::NoPattern);
    };
    match bytes::Regex::new(alloc, source) {
        Ok(regex) => Ok(regex),
        Err(Error::Syntax(_)) => Err(BuildRefusal::NoPattern),
        Err(Error::CompiledTooBig) => Err(BuildRefusal::Unbuilt),
        Err(Error::Internal) => Err(BuildRefusal::Unbuilt),
        Err(Error::OutOfMemory) => Err(BuildRefusal::Memory),
    }
}
