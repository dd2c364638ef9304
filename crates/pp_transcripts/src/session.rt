//! A transcript with the contents of its files.

use crate::contents::{Contents, is_among};
use crate::transcript::{FilePart, Transcript};
use pp_base::{FileRead, Files, List, Memory, Text};
use pp_real::RealFiles;
use std::alloc::Global;
use std::mem;

/// Why a session can't begin.
#[derive(Drop)]
pub enum Unready {
    /// No file has this name, or it can't be read.
    NoFile(Text),
    /// Want of memory.
    Memory,
}

impl From<Memory> for Unready {
    fn from(_: Memory) -> Self {
        Unready::Memory
    }
}

/// What the files hold before a session and what they owe to hold after it.
#[derive(Drop)]
pub struct Session<'t> {
    /// The transcript itself.
    pub transcript: &'t Transcript,
    /// What the files hold before it.
    pub before: Contents,
    /// What they owe to hold after it.
    pub after: Contents,
    /// All paths of the transcript.
    pub paths: List<Text>,
}

/// The folder of a file of transcripts.
#[derive(Drop)]
pub struct Folder<'a> {
    alloc: Global,
    files: RealFiles<'a, HostRuntime>,
    // What stands before a name.
    front: Text,
}

/// The most bytes of a file.
const FILE_LIMIT: u64 = 268_435_456;

impl<'a> Folder<'a> {
    /// The folder in which the file of the path lies.
    pub fn of(rt: &'a HostRuntime, alloc: Global, path: &Text) -> Result<Self, Memory> {
        let bytes = path.as_slice();
        let mut front = Text::new(alloc);
        for (place, byte) in bytes.iter().enumerate() {
            if *byte == b'/' {
                front = Text::from_slice(alloc, bytes.get(..=place).unwrap_or(bytes))?;
            }
        }
        Ok(Folder {
            alloc,
            files: RealFiles::new(rt),
            front,
        })
    }

    /// What the file of the path holds.
    pub fn read(&mut self, path: &Text) -> Result<Text, Unready> {
        let mut content = Text::new(self.alloc);
        match self.files.read(path, &mut content, FILE_LIMIT) {
            FileRead::Read => Ok(content),
            FileRead::Memory => Err(Unready::Memory),
            FileRead::Missing | FileRead::TooLong | FileRead::Failed => Err(Unready::NoFile(
                Text::from_slice(self.alloc, path.as_slice())?,
            )),
        }
    }

    /// What the transcript's files hold before and after.
    pub fn session<'t>(&mut self, transcript: &'t Transcript) -> Result<Session<'t>, Unready> {
        let mut session = Session {
            transcript,
            before: Contents::new(self.alloc),
            after: Contents::new(self.alloc),
            paths: List::new(self.alloc),
        };
        match self.fill(&mut session) {
            Ok(()) => Ok(session),
            Err(unready) => {
                mem::drop(session);
                Err(unready)
            }
        }
    }

    // Puts the contents and the paths into a session that has none yet.
    fn fill(&mut self, session: &mut Session) -> Result<(), Unready> {
        let transcript = session.transcript;
        let gone = transcript.owed.gone.as_slice();
        self.put_contents(&mut session.before, transcript.setup.files.as_slice())?;
        self.put_contents(&mut session.after, transcript.owed.files.as_slice())?;
        keep_others(&session.before, gone, &mut session.after)?;
        put_paths(self.alloc, session, gone)?;
        Ok(())
    }

    // Adds what the parts hold.
    fn put_contents(
        &mut self,
        contents: &mut Contents,
        parts: &[(Text, FilePart)],
    ) -> Result<(), Unready> {
        for (path, part) in parts {
            match part {
                FilePart::Bytes(bytes) => contents.append(path, bytes.as_slice())?,
                FilePart::Copy(name) => {
                    let content = self.named(name)?;
                    contents.append(path, content.as_slice())?;
                }
            }
        }
        Ok(())
    }

    // What the file of the name in this folder holds.
    fn named(&mut self, name: &Text) -> Result<Text, Unready> {
        let mut path = Text::from_slice(self.alloc, self.front.as_slice())?;
        path.extend(name.as_slice())?;
        self.read(&path)
    }
}

// A file that the transcript does not name at the end stays as it was.
fn keep_others(before: &Contents, gone: &[Text], after: &mut Contents) -> Result<(), Memory> {
    for (path, content) in before.entries() {
        if after.content(path).is_none() && !is_among(path, gone) {
            after.append(path, content.as_slice())?;
        }
    }
    Ok(())
}

// Adds all paths, those of the session's contents and those that are gone.
fn put_paths(alloc: Global, session: &mut Session, gone: &[Text]) -> Result<(), Memory> {
    for (path, _) in session.before.entries() {
        put_path(alloc, &mut session.paths, path)?;
    }
    for (path, _) in session.after.entries() {
        if session.before.content(path).is_none() {
            put_path(alloc, &mut session.paths, path)?;
        }
    }
    for path in gone {
        if session.before.content(path).is_none() {
            put_path(alloc, &mut session.paths, path)?;
        }
    }
    Ok(())
}

// Adds a copy of the path.
fn put_path(alloc: Global, paths: &mut List<Text>, path: &Text) -> Result<(), Memory> {
    paths.push(Text::from_slice(alloc, path.as_slice())?)
}
