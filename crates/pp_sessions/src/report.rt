//! What is printed of a file of transcripts.

use crate::comparing::RunDifference;
use crate::stage::Left;
use itoa::Buffer;
use pp_base::{Memory, Text};
use pp_transcripts::{Session, Transcript, Trial, put_escaped, put_words};
use std::alloc::Global;

/// How many lines of a text are printed, from the first that differs.
const SHOWN_LINES: usize = 40;

/// The printed text, and what was counted of the present file.
#[derive(Drop)]
pub struct SessionReport {
    pub text: Text,
    sessions: u64,
    differing: u64,
    all_as_owed: bool,
}

/// A run: the words, and the call that fails.
#[derive(Clone, Copy)]
pub struct Run<'a> {
    pub words: &'a [Text],
    pub trial: Option<Trial>,
}

impl SessionReport {
    pub fn new(alloc: Global) -> Self {
        SessionReport {
            text: Text::new(alloc),
            sessions: 0,
            differing: 0,
            all_as_owed: true,
        }
    }

    /// Whether all was as owed so far.
    pub fn all_as_owed(&self) -> bool {
        self.all_as_owed
    }

    /// Counts a run, and shows how it differs.
    pub fn count(
        &mut self,
        session: &Session,
        run: Run,
        left: &Left,
        difference: Option<RunDifference>,
    ) -> Result<(), Memory> {
        self.sessions = self.sessions.saturating_add(1);
        let Some(difference) = difference else {
            return Ok(());
        };
        self.differing = self.differing.saturating_add(1);
        self.put_run(session.transcript, run)?;
        self.put_difference(session, left, run, difference)
    }

    /// Closes the account of a file.
    pub fn close(&mut self, name: &Text) -> Result<(), Memory> {
        self.text.extend(name.as_slice())?;
        self.text.extend(b": ")?;
        if self.differing == 0 {
            self.put_number(self.sessions)?;
            self.text.extend(b" sessions as owed\n")?;
        } else {
            self.put_number(self.differing)?;
            self.text.extend(b" of ")?;
            self.put_number(self.sessions)?;
            self.text.extend(b" sessions differ\n")?;
            self.all_as_owed = false;
        }
        self.sessions = 0;
        self.differing = 0;
        Ok(())
    }

    /// Tells why a file, or a line of it, is not understood.
    pub fn refuse(&mut self, name: &Text, line: Option<u64>, why: &[u8]) -> Result<(), Memory> {
        self.all_as_owed = false;
        self.text.extend(name.as_slice())?;
        if let Some(line) = line {
            self.text.extend(b":")?;
            self.put_number(line)?;
        }
        self.text.extend(b": ")?;
        self.text.extend(why)?;
        self.text.extend(b"\n")
    }

    fn put_number(&mut self, number: u64) -> Result<(), Memory> {
        let mut digits = Buffer::new();
        self.text.extend(digits.format(number).as_bytes())
    }

    fn put_run(&mut self, transcript: &Transcript, run: Run) -> Result<(), Memory> {
        self.text.extend(b"# ")?;
        if let Some(title) = &transcript.title {
            self.text.extend(title.as_slice())?;
        }
        self.text.extend(b" (line ")?;
        self.put_number(transcript.line)?;
        self.text.extend(b")\n$ pprof")?;
        put_words(&mut self.text, run.words)?;
        self.text.extend(b"\n")?;
        match run.trial {
            Some(trial) => self.put_trial(trial),
            None => Ok(()),
        }
    }

    fn put_trial(&mut self, trial: Trial) -> Result<(), Memory> {
        self.text.extend(b"call ")?;
        self.put_number(trial.call)?;
        self.text.extend(b" of ")?;
        self.text.extend(trial.fault.name.as_bytes())?;
        self.text.extend(b" fails\n")
    }

    fn put_difference(
        &mut self,
        session: &Session,
        left: &Left,
        run: Run,
        difference: RunDifference,
    ) -> Result<(), Memory> {
        let owed = &session.transcript.owed;
        match difference {
            RunDifference::Out => self.put_both(b">", &owed.out, left.out.calm.bytes()),
            RunDifference::Err => self.put_both(b"!", &owed.err, left.err.calm.bytes()),
            RunDifference::Status => self.put_numbers(
                b"= ",
                u64::from(owed.status),
                u64::from(left.status),
            ),
            RunDifference::Calls => match run.trial {
                Some(trial) => {
                    self.put_numbers(
                        b"calls: ",
                        trial.call,
                        left.calls.of(trial.fault.object).number,
                    )
                }
                None => Ok(()),
            },
            RunDifference::OtherFile => self
                .text
                .extend(b"a file that no line names was written\n"),
            RunDifference::File(path) => {
                self.put_file(b"owed", path, session.after.content(path))?;
                self.put_file(b"left", path, left.files.content(path))
            }
        }
    }

    fn put_numbers(&mut self, tag: &[u8], owed: u64, left: u64) -> Result<(), Memory> {
        self.text.extend(b"owed:\n")?;
        self.text.extend(tag)?;
        self.put_number(owed)?;
        self.text.extend(b"\nleft:\n")?;
        self.text.extend(tag)?;
        self.put_number(left)?;
        self.text.extend(b"\n")
    }

    // Both texts from the first line in which they differ.
    fn put_both(&mut self, tag: &[u8], owed: &Text, left: &Text) -> Result<(), Memory> {
        let alike = lines_alike(owed.as_slice(), left.as_slice());
        self.text.extend(b"owed, after ")?;
        self.put_number(alike as u64)?;
        self.text.extend(b" lines alike:\n")?;
        self.put_lines(tag, owed.as_slice(), alike)?;
        self.text.extend(b"left:\n")?;
        self.put_lines(tag, left.as_slice(), alike)
    }

    fn put_lines(&mut self, tag: &[u8], text: &[u8], alike: usize) -> Result<(), Memory> {
        for line in text
            .split_inclusive(|byte| *byte == b'\n')
            .skip(alike)
            .take(SHOWN_LINES)
        {
            self.text.extend(tag)?;
            self.text.extend(b" ")?;
            match line.strip_suffix(b"\n") {
                Some(line) => put_escaped(&mut self.text, line)?,
                None => {
                    put_escaped(&mut self.text, line)?;
                    self.text.extend(b"\\")?;
                }
            }
            self.text.extend(b"\n")?;
        }
        Ok(())
    }

    fn put_file(
        &mut self,
        whose: &[u8],
        path: &Text,
        content: Option<&Text>,
    ) -> Result<(), Memory> {
        self.text.extend(whose)?;
        self.text.extend(b": ")?;
        put_escaped(&mut self.text, path.as_slice())?;
        match content {
            None => self.text.extend(b" is not there\n"),
            Some(content) => {
                self.text.extend(b"\n")?;
                self.put_lines(b"+", content.as_slice(), 0)
            }
        }
    }
}

// How many lines both texts begin with.
fn lines_alike(one: &[u8], other: &[u8]) -> usize {
    let lines = one.split_inclusive(|byte| *byte == b'\n');
    let others = other.split_inclusive(|byte| *byte == b'\n');
    lines.zip(others).take_while(|(a, b)| *a == *b).count()
}
