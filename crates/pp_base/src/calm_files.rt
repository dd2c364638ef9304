//! Files in memory that never fail.

ghost use Rattle.std.specs.Prelude.{◌≡◌, [], Some, OnOk, OnErr, false};
ghost use Rattle.std.specs.Option.{option_copied};
ghost use Rattle.pp_base.specs.FileMap.{content_at, files_of, with_file, among};
ghost use Rattle.pp_base.specs.MemForms.{half_of, noted};

use crate::entries::{first_content, is_among, put_entry};
use crate::{FileRead, FileWrite, Files, List, Memory, Text};
use std::alloc::Global;
use std::marker::Model;

/// Files that never fail.
#[derive(Debug, Drop)]
pub struct CalmFiles {
    alloc: Global,
    entries: Vec<(Text, Text)>,
    locked: List<Text>,
    reads: List<Text>,
}

impl Model for CalmFiles {
    ghost use Rattle.pp_base.specs.FileMap.{files_of};
    ghost use Rattle.pp_base.specs.Held.{FilesHeld, files_code};

    ghost Value = { FilesHeld };

    ghost coded = { files_code };

    ghost view = { λ f. record {
      content = files_of f.entries.items;
      locked = f.locked;
      reads = f.reads;
    } };
}

impl CalmFiles {
    /// Files of these paths and contents, and the paths that can't be written. Of two entries with one path the first
    /// counts. It takes no memory, and keeps the allocator for what is written.
    pub fn new(alloc: Global, files: List<(Text, Text)>, locked: List<Text>) -> Self
        ensures { result ≡ record { content = files_of files; locked = locked; reads = [] } }
    {
        CalmFiles {
            alloc,
            entries: files.into_vec(),
            locked,
            reads: List::new(alloc),
        }
    }

    /// The content of the path, if it is there.
    pub fn content(&self, path: &Text) -> Option<&Text>
        ensures { option_copied result ≡ content_at self.now.content path.now }
    {
        first_content(&self.entries, path.as_slice())
    }

    /// The paths that were read, in order, each as often as it was read.
    pub fn reads(&self) -> &[Text]
        ensures { result.now ≡ self.now.reads }
    {
        self.reads.as_slice()
    }

    /// Whether the path can't be written.
    pub(crate) fn is_locked(&self, path: &Text) -> bool
        ensures { result ≡ among self.now.locked path.now }
    {
        is_among(self.locked.as_slice(), path.as_slice())
    }

    // Notes that the path is read.
    fn note(&mut self, path: &Text) -> Result<(), Memory>
        ensures ok { OnOk result (self.new ≡ noted self.old path.now) }
        ensures err { OnErr result (self.new ≡ self.old) }
    {
        let path = Text::from_slice(self.alloc, path.as_slice())?;
        self.reads.push(path)
    }

    // Makes the bytes the content of the path, whether it is locked or not.
    fn put(&mut self, path: &Text, bytes: &[u8]) -> Result<(), Memory>
        ensures ok { OnOk result (self.new ≡ record {
          content = with_file self.old.content path.now bytes.now;
          locked = self.old.locked;
          reads = self.old.reads;
        }) }
        ensures err { OnErr result (self.new ≡ self.old) }
    {
        put_entry(self.alloc, &mut self.entries, path.as_slice(), bytes)
    }

    /// What a write that breaks off leaves: the first half of the bytes, rounded down.
    pub(crate) fn put_half(&mut self, path: &Text, bytes: &[u8]) -> Result<(), Memory>
        ensures ok { OnOk result (self.new ≡ record {
          content = with_file self.old.content path.now (half_of bytes.now);
          locked = self.old.locked;
          reads = self.old.reads;
        }) }
        ensures err { OnErr result (self.new ≡ self.old) }
    {
        self.put(path, &bytes[..bytes.len() / 2])
    }
}

impl Files for CalmFiles {
    ghost content = { λ f. Some f.content };

    ghost locked = { λ f. Some f.locked };

    ghost reads = { λ f. Some f.reads };

    ghost faults = { λ _. 0 };

    fn read(&mut self, path: &Text, into: &mut Text, limit: u64) -> FileRead {
        into.clear();
        if self.note(path).is_err() {
            return FileRead::Memory;
        }
        let Some(bytes) = first_content(&self.entries, path.as_slice()) else {
            return FileRead::Missing;
        };
        if bytes.len() as u64 > limit {
            return FileRead::TooLong;
        }
        match into.extend(bytes.as_slice()) {
            Ok(()) => FileRead::Read,
            Err(_) => FileRead::Memory,
        }
    }

    fn write(&mut self, path: &Text, bytes: &[u8]) -> FileWrite {
        if self.is_locked(path) {
            return FileWrite::Locked;
        }
        match self.put(path, bytes) {
            Ok(()) => FileWrite::Written,
            Err(_) => FileWrite::Memory,
        }
    }
}
