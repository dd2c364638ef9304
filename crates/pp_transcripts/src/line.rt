//! The lines of a transcript.
//!
//!     # TEXT               a comment; the first of a transcript is its title.
//!     files PATH=NAME ..   at the start PATH holds what the file NAME holds.
//!     put PATH BYTES       adds BYTES at the end of what PATH holds at the start.
//!     put* N PATH BYTES    the same, N times over.
//!     put# N PATH BYTES    the same for each number from 1 to N: `\#` in BYTES is it, as a varint of three bytes.
//!     locked PATH ..       paths that can't be written.
//!     real                 the session runs over the machine's files, which are removed afterwards.
//!     literal PATTERN ..   the matcher finds plain texts, and refuses these patterns.
//!     workers N ..         the session runs once with each number of workers, and owes the same.
//!     faults OBJECT N      the session makes N calls of OBJECT: it runs once with each of them failing, and once more.
//!     $ pprof WORD ..      the command; several commands owe the same.
//!     < TEXT               a line of standard input, `<* N TEXT` N such lines.
//!     > TEXT               a line of standard output, `>* N TEXT` N such lines.
//!     ! TEXT               a line of standard error.
//!     = N                  the status, 0 where there is no such line.
//!     + PATH TEXT          a line of what PATH holds at the end.
//!     += PATH=NAME ..      at the end PATH holds what the file NAME holds.
//!     - PATH ..            at the end there is no such file.

use crate::escapes::{in_three_bytes, put_numbered, put_unescaped};
use crate::problem::Problem;
use crate::trials::{Fault, fault_named};
use crate::words::{head_of, words_of};
use pp_base::{List, Memory, Text};
use std::alloc::Global;

/// A line, taken apart.
#[derive(Drop)]
pub enum TranscriptLine {
    Comment(Text),
    /// Paths, and the names of files.
    Files(List<(Text, Text)>),
    /// A path, and bytes.
    Put(Text, Text),
    Locked(List<Text>),
    Real,
    Literal(List<Text>),
    Workers(List<Text>),
    /// A kind of failure, and how many calls the session makes of its object.
    Faults(Fault, u64),
    /// The words after the program's name.
    Command(List<Text>),
    Input(Text),
    Out(Text),
    Err(Text),
    Status(u8),
    /// A path, and a line of it.
    Holds(Text, Text),
    /// Paths, and the names of files.
    HoldsFiles(List<(Text, Text)>),
    Gone(List<Text>),
}

#[derive(Clone, Copy)]
enum LineTag {
    Comment,
    Files,
    Put,
    PutOften,
    PutNumbered,
    Locked,
    Real,
    Literal,
    Workers,
    Faults,
    Command,
    Input,
    InputOften,
    Out,
    OutOften,
    Err,
    Status,
    Holds,
    HoldsFiles,
    Gone,
}

fn tag_of(spelling: &str) -> Option<LineTag> {
    let tags = [
        (">", LineTag::Out),
        ("put", LineTag::Put),
        ("#", LineTag::Comment),
        ("files", LineTag::Files),
        ("$", LineTag::Command),
        ("<", LineTag::Input),
        ("!", LineTag::Err),
        ("=", LineTag::Status),
        ("+", LineTag::Holds),
        ("+=", LineTag::HoldsFiles),
        ("-", LineTag::Gone),
        ("put*", LineTag::PutOften),
        ("put#", LineTag::PutNumbered),
        ("<*", LineTag::InputOften),
        (">*", LineTag::OutOften),
        ("locked", LineTag::Locked),
        ("real", LineTag::Real),
        ("literal", LineTag::Literal),
        ("workers", LineTag::Workers),
        ("faults", LineTag::Faults),
    ];
    let (_, tag) = tags.iter().copied().find(|(name, _)| *name == spelling)?;
    Some(tag)
}

/// Takes a line apart. A tag alone has an empty rest.
pub fn line_of(alloc: Global, line: &str) -> Result<TranscriptLine, Problem> {
    let (spelling, rest) = line.split_once(' ').unwrap_or((line, ""));
    match tag_of(spelling).ok_or(Problem::Tag)? {
        LineTag::Comment => Ok(TranscriptLine::Comment(Text::from_slice(alloc, rest.as_bytes())?)),
        LineTag::Files => Ok(TranscriptLine::Files(named_files(alloc, rest)?)),
        LineTag::Put => put_line(alloc, rest, 1),
        LineTag::PutOften => put_often(alloc, rest),
        LineTag::PutNumbered => put_each(alloc, rest),
        LineTag::Locked => Ok(TranscriptLine::Locked(words_of(alloc, rest)?)),
        LineTag::Real => Ok(TranscriptLine::Real),
        LineTag::Literal => Ok(TranscriptLine::Literal(any_words_of(alloc, rest)?)),
        LineTag::Workers => Ok(TranscriptLine::Workers(words_of(alloc, rest)?)),
        LineTag::Faults => faults_line(rest),
        LineTag::Command => Ok(TranscriptLine::Command(command_of(alloc, rest)?)),
        LineTag::Input => Ok(TranscriptLine::Input(text_line(alloc, rest)?)),
        LineTag::InputOften => Ok(TranscriptLine::Input(text_lines(alloc, rest)?)),
        LineTag::Out => Ok(TranscriptLine::Out(text_line(alloc, rest)?)),
        LineTag::OutOften => Ok(TranscriptLine::Out(text_lines(alloc, rest)?)),
        LineTag::Err => Ok(TranscriptLine::Err(text_line(alloc, rest)?)),
        LineTag::Status => Ok(TranscriptLine::Status(
            rest.parse::<u8>().map_err(|_| Problem::Number)?,
        )),
        LineTag::Holds => holds_line(alloc, rest),
        LineTag::HoldsFiles => Ok(TranscriptLine::HoldsFiles(named_files(alloc, rest)?)),
        LineTag::Gone => Ok(TranscriptLine::Gone(words_of(alloc, rest)?)),
    }
}

fn any_words_of(alloc: Global, rest: &str) -> Result<List<Text>, Problem> {
    if rest.is_empty() {
        return Ok(List::new(alloc));
    }
    words_of(alloc, rest)
}

fn command_of(alloc: Global, rest: &str) -> Result<List<Text>, Problem> {
    match rest.strip_prefix("pprof") {
        Some("") => Ok(List::new(alloc)),
        Some(words) => words_of(alloc, words.strip_prefix(' ').ok_or(Problem::Command)?),
        None => Err(Problem::Command),
    }
}

fn faults_line(rest: &str) -> Result<TranscriptLine, Problem> {
    let (name, count) = rest.split_once(' ').ok_or(Problem::Number)?;
    let fault = fault_named(name).ok_or(Problem::Object)?;
    Ok(TranscriptLine::Faults(fault, number_of(count)?))
}

fn number_of(digits: &str) -> Result<u64, Problem> {
    digits.parse::<u64>().map_err(|_| Problem::Number)
}

// A number, and the text behind the space that follows it.
fn counted(rest: &str) -> Result<(u64, &str), Problem> {
    let (digits, text) = rest.split_once(' ').unwrap_or((rest, ""));
    Ok((number_of(digits)?, text))
}

fn put_often(alloc: Global, rest: &str) -> Result<TranscriptLine, Problem> {
    let (count, rest) = counted(rest)?;
    put_line(alloc, rest, count)
}

fn put_line(alloc: Global, rest: &str, count: u64) -> Result<TranscriptLine, Problem> {
    let (path, spelled) = head_of(alloc, rest)?;
    let mut bytes = Text::new(alloc);
    put_unescaped(&mut bytes, spelled)?;
    Ok(TranscriptLine::Put(path, repeated(alloc, bytes, count)?))
}

fn put_each(alloc: Global, rest: &str) -> Result<TranscriptLine, Problem> {
    let (count, rest) = counted(rest)?;
    let (path, spelled) = head_of(alloc, rest)?;
    let mut bytes = Text::new(alloc);
    for number in 1..=count {
        put_numbered(&mut bytes, spelled, Some(in_three_bytes(number)))?;
    }
    Ok(TranscriptLine::Put(path, bytes))
}

fn holds_line(alloc: Global, rest: &str) -> Result<TranscriptLine, Problem> {
    let (path, text) = head_of(alloc, rest)?;
    Ok(TranscriptLine::Holds(path, text_line(alloc, text)?))
}

fn text_lines(alloc: Global, rest: &str) -> Result<Text, Problem> {
    let (count, text) = counted(rest)?;
    let line = text_line(alloc, text)?;
    Ok(repeated(alloc, line, count)?)
}

fn repeated(alloc: Global, bytes: Text, count: u64) -> Result<Text, Memory> {
    if count == 1 {
        return Ok(bytes);
    }
    let mut text = Text::new(alloc);
    for _ in 0..count {
        text.extend(bytes.as_slice())?;
    }
    Ok(text)
}

// The bytes of a line with its end. A text that ends in a single `\` is a line without one.
fn text_line(alloc: Global, text: &str) -> Result<Text, Problem> {
    let mut line = Text::new(alloc);
    match before_single_backslash(text) {
        Some(front) => put_unescaped(&mut line, front)?,
        None => {
            put_unescaped(&mut line, text)?;
            line.extend(b"\n")?;
        }
    }
    Ok(line)
}

fn before_single_backslash(text: &str) -> Option<&str> {
    let front = text.trim_end_matches('\\');
    if text.len().saturating_sub(front.len()) % 2 == 1 {
        text.strip_suffix('\\')
    } else {
        None
    }
}

fn named_files(alloc: Global, rest: &str) -> Result<List<(Text, Text)>, Problem> {
    let mut files = List::new(alloc);
    for word in words_of(alloc, rest)?.as_slice() {
        files.push(named_file(alloc, word.as_slice())?)?;
    }
    Ok(files)
}

// The path in front of the first `=`, and the name behind it.
fn named_file(alloc: Global, word: &[u8]) -> Result<(Text, Text), Problem> {
    let at = word
        .iter()
        .position(|byte| *byte == b'=')
        .ok_or(Problem::Name)?;
    let (path, rest) = word.split_at_checked(at).ok_or(Problem::Name)?;
    let name = rest.get(1..).ok_or(Problem::Name)?;
    Ok((
        Text::from_slice(alloc, path)?,
        Text::from_slice(alloc, name)?,
    ))
}
