//! Transcripts: what a session is given, and what it owes.

use crate::line::{TranscriptLine, line_of};
use crate::problem::Problem;
use crate::trials::{Fault, Object};
use pp_base::{List, Memory, Text};
use std::alloc::Global;
use std::mem;

/// A part of a file's content.
#[derive(Drop)]
pub enum FilePart {
    /// These bytes.
    Bytes(Text),
    /// What the file of the name holds, in the folder of the transcripts.
    Copy(Text),
}

/// The matcher of a session.
#[derive(Drop)]
pub enum Patterns {
    /// Regular expressions.
    Regular,
    /// Plain texts, of which these are refused.
    Literal(List<Text>),
}

/// The setup of a session: what it is given.
#[derive(Drop)]
pub struct Setup {
    /// The parts of each file, each with its path, in order.
    pub files: List<(Text, FilePart)>,
    /// Paths that can't be written.
    pub locked: List<Text>,
    /// All of standard input.
    pub input: Text,
    /// What patterns find.
    pub patterns: Patterns,
    /// Whether the files are the machine's own.
    pub is_real: bool,
}

/// What a session owes.
#[derive(Drop)]
pub struct Owed {
    /// All that stands on standard output.
    pub out: Text,
    /// All that stands on standard error.
    pub err: Text,
    /// The exit status.
    pub status: u8,
    /// The parts of each file that is there at the end, each with its path, in order.
    pub files: List<(Text, FilePart)>,
    /// The paths at which no file is at the end.
    pub gone: List<Text>,
}

/// A transcript. Its commands are run one after another, each with the same files and the same input.
#[derive(Drop)]
pub struct Transcript {
    /// The number of its first line, from 1.
    pub line: u64,
    /// Its first comment.
    pub title: Option<Text>,
    /// The words of each command, after the program's name.
    pub commands: List<List<Text>>,
    /// Numbers of workers.
    pub workers: List<Text>,
    /// Kinds of failure, and how many calls a session makes of the object of each.
    pub faults: List<(Fault, u64)>,
    /// What each command is given.
    pub setup: Setup,
    /// What each command owes.
    pub owed: Owed,
}

impl Transcript {
    fn new(alloc: Global, line: u64) -> Self {
        Transcript {
            line,
            title: None,
            commands: List::new(alloc),
            workers: List::new(alloc),
            faults: List::new(alloc),
            setup: Setup {
                files: List::new(alloc),
                locked: List::new(alloc),
                input: Text::new(alloc),
                patterns: Patterns::Regular,
                is_real: false,
            },
            owed: Owed {
                out: Text::new(alloc),
                err: Text::new(alloc),
                status: 0,
                files: List::new(alloc),
                gone: List::new(alloc),
            },
        }
    }

    fn put(&mut self, line: TranscriptLine) -> Result<(), Memory> {
        match line {
            TranscriptLine::Comment(text) => {
                self.put_comment(text);
                Ok(())
            }
            TranscriptLine::Files(files) => put_copies(&mut self.setup.files, files),
            TranscriptLine::Put(path, bytes) => self
                .setup
                .files
                .push((path, FilePart::Bytes(bytes))),
            TranscriptLine::Locked(paths) => put_all(&mut self.setup.locked, paths),
            TranscriptLine::Real => {
                self.setup.is_real = true;
                Ok(())
            }
            TranscriptLine::Literal(refused) => {
                self.setup.patterns = Patterns::Literal(refused);
                Ok(())
            }
            TranscriptLine::Workers(numbers) => put_all(&mut self.workers, numbers),
            TranscriptLine::Faults(fault, calls) => self.faults.push((fault, calls)),
            TranscriptLine::Command(words) => self.commands.push(words),
            TranscriptLine::Input(text) => self.setup.input.append(text),
            TranscriptLine::Out(text) => self.owed.out.append(text),
            TranscriptLine::Err(text) => self.owed.err.append(text),
            TranscriptLine::Status(status) => {
                self.owed.status = status;
                Ok(())
            }
            TranscriptLine::Holds(path, text) => self
                .owed
                .files
                .push((path, FilePart::Bytes(text))),
            TranscriptLine::HoldsFiles(files) => put_copies(&mut self.owed.files, files),
            TranscriptLine::Gone(paths) => put_all(&mut self.owed.gone, paths),
        }
    }

    fn put_comment(&mut self, text: Text) {
        if self.title.is_none() {
            self.title = Some(text);
        }
    }

    // Whether it is a transcript that can be run.
    fn check(&self) -> Result<(), Problem> {
        if self.commands.len() == 0 {
            return Err(Problem::Command);
        }
        let is_regular = matches!(&self.setup.patterns, Patterns::Regular);
        let files_fail = self
            .faults
            .as_slice()
            .iter()
            .any(|(fault, _)| fault.object == Object::Files);
        if self.setup.is_real && (files_fail || !is_regular) {
            return Err(Problem::Real);
        }
        Ok(())
    }
}

fn put_all(into: &mut List<Text>, texts: List<Text>) -> Result<(), Memory> {
    for text in texts.into_vec() {
        into.push(text)?;
    }
    Ok(())
}

fn put_copies(into: &mut List<(Text, FilePart)>, files: List<(Text, Text)>) -> Result<(), Memory> {
    for (path, name) in files.into_vec() {
        into.push((path, FilePart::Copy(name)))?;
    }
    Ok(())
}

/// Why a text is no file of transcripts.
#[derive(Clone, Copy)]
pub struct ParseFault {
    /// The number of the line, from 1.
    pub line: u64,
    /// What is wrong with it.
    pub problem: Problem,
}

/// The transcripts of a file. Empty lines set them apart, and comments alone are no transcript.
pub fn transcripts_of(alloc: Global, text: &str) -> Result<List<Transcript>, ParseFault> {
    let mut transcripts = List::new(alloc);
    put_transcripts(alloc, text, &mut transcripts)?;
    Ok(transcripts)
}

// Adds the transcripts of a file.
fn put_transcripts(
    alloc: Global,
    text: &str,
    transcripts: &mut List<Transcript>,
) -> Result<(), ParseFault> {
    let mut reader = TranscriptReader {
        alloc,
        transcripts,
        transcript: None,
        is_comment: true,
    };
    let outcome = reader.put_all(text);
    mem::drop(reader);
    outcome
}

fn located(line: u64, outcome: Result<(), Problem>) -> Result<(), ParseFault> {
    match outcome {
        Ok(()) => Ok(()),
        Err(problem) => Err(ParseFault { line, problem }),
    }
}

// The transcripts that are whole, and the one that has begun.
#[derive(Drop)]
struct TranscriptReader<'t> {
    alloc: Global,
    transcripts: &'t mut List<Transcript>,
    transcript: Option<Transcript>,
    // Whether the one that has begun has comments alone.
    is_comment: bool,
}

impl TranscriptReader<'_> {
    // Puts all lines of a file.
    fn put_all(&mut self, text: &str) -> Result<(), ParseFault> {
        let mut number: u64 = 0;
        for line in text.split('\n') {
            number = number.saturating_add(1);
            located(number, self.put(number, line))?;
        }
        located(number, self.close())
    }

    fn put(&mut self, number: u64, line: &str) -> Result<(), Problem> {
        if line.is_empty() {
            return self.close();
        }
        let line = line_of(self.alloc, line)?;
        self.put_line(number, line)?;
        Ok(())
    }

    // Puts the line into the transcript that has begun, or begins one.
    fn put_line(&mut self, number: u64, line: TranscriptLine) -> Result<(), Memory> {
        self.is_comment = self.is_comment && matches!(&line, TranscriptLine::Comment(_));
        let alloc = self.alloc;
        self.transcript
            .get_or_insert_with(|| Transcript::new(alloc, number))
            .put(line)
    }

    fn close(&mut self) -> Result<(), Problem> {
        let is_comment = self.is_comment;
        self.is_comment = true;
        let begun = self.transcript.take();
        if is_comment {
            mem::drop(begun);
            return Ok(());
        }
        match begun {
            Some(transcript) => self.put_whole(transcript),
            None => Ok(()),
        }
    }

    // Adds the transcript, if it can be run.
    fn put_whole(&mut self, transcript: Transcript) -> Result<(), Problem> {
        match transcript.check() {
            Ok(()) => Ok(self.transcripts.push(transcript)?),
            Err(problem) => {
                mem::drop(transcript);
                Err(problem)
            }
        }
    }
}
