//! Why a file of transcripts can't be understood.

use pp_base::Memory;

/// What is wrong with a line of a transcript.
#[derive(Clone, Copy, PartialEq, Eq)]
pub enum Problem {
    /// The line begins with no tag.
    Tag,
    /// A `\` is followed by no name of a byte.
    Escape,
    /// A quote has no end.
    Quote,
    /// A word is missing, or two spaces stand between words.
    Word,
    /// What has to be a number is none.
    Number,
    /// A command's first word is not `pprof`, or the transcript has no command.
    Command,
    /// No object of the outside has the name.
    Object,
    /// A path is given no file's name.
    Name,
    /// The machine's own files don't fail, and are judged by regular expressions alone.
    Real,
    /// Want of memory.
    Memory,
}

impl Problem {
    /// The words that tell of it.
    pub fn text(self) -> &'static str {
        match self {
            Problem::Tag => "unknown tag",
            Problem::Escape => "unknown escape",
            Problem::Quote => "a quote has no end",
            Problem::Word => "a word is missing",
            Problem::Number => "not a number",
            Problem::Command => "no command of pprof",
            Problem::Object => "unknown object",
            Problem::Name => "no file's name behind a path",
            Problem::Real => "not over the machine's own files",
            Problem::Memory => "out of memory",
        }
    }
}

impl From<Memory> for Problem {
    fn from(_: Memory) -> Self {
        Problem::Memory
    }
}
