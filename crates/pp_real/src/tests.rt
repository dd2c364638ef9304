//! Files over a system that stands in for the machine's: which path it is asked for, and which of its calls fail.

use crate::RealFiles;
use pp_base::{FileRead, FileWrite, Files, Text};
use std::alloc::Allocator;
use std::fs::{Files as FileSystem, Metadata, OpenFile, OpenOptions};
use std::io::{self, ErrorKind, Read, Seek, SeekFrom, Write};
use std::test::Fail;

// The one path of the system, what its file holds, and what may be written to it.
const PATH: &str = "in/here";

const HELD: &[u8] = b"held";

const NEW: &[u8] = b"new bytes";

// What the system does where the path is asked for.
#[derive(Clone, Copy, Debug, PartialEq, Eq)]
enum Way {
    Works,
    // The third byte that is read or written fails.
    IsCut,
    // Opening fails.
    IsShut,
    // Opening fails for want of memory.
    LacksMemory,
}

#[derive(Drop)]
struct OnePath {
    way: Way,
}

// An open file, of which bytes were read or written.
#[derive(Drop)]
struct OneFile {
    way: Way,
    done: usize,
}

fn unsupported<T>() -> io::Result<T> {
    Err(io::Error::from(ErrorKind::Unsupported))
}

impl OneFile {
    // A file that is cut fails from its third byte on.
    fn fails(&self) -> bool {
        self.way == Way::IsCut && self.done >= 2
    }
}

impl Read for OneFile {
    // One byte at a time.
    fn read(&mut self, buf: &mut [u8]) -> io::Result<usize> {
        if self.fails() {
            return Err(io::Error::from(ErrorKind::Other));
        }
        match (HELD.get(self.done), buf.first_mut()) {
            (Some(byte), Some(place)) => {
                *place = *byte;
                self.done = self.done.saturating_add(1);
                Ok(1)
            }
            _ => Ok(0),
        }
    }
}

impl Write for OneFile {
    // One byte at a time, and none but those that are due.
    fn write(&mut self, buf: &[u8]) -> io::Result<usize> {
        if self.fails() || buf.first() != NEW.get(self.done) {
            return Err(io::Error::from(ErrorKind::Other));
        }
        if buf.is_empty() {
            return Ok(0);
        }
        self.done = self.done.saturating_add(1);
        Ok(1)
    }

    fn flush(&mut self) -> io::Result<()> {
        Ok(())
    }
}

impl Seek for OneFile {
    fn seek(&mut self, _to: SeekFrom) -> io::Result<u64> {
        unsupported()
    }
}

impl OpenFile for OneFile {
    fn metadata(&self) -> io::Result<Metadata> {
        unsupported()
    }

    fn set_len(&self, _size: u64) -> io::Result<()> {
        unsupported()
    }

    fn sync_all(&self) -> io::Result<()> {
        unsupported()
    }

    fn sync_data(&self) -> io::Result<()> {
        unsupported()
    }
}

impl FileSystem for OnePath {
    type File = OneFile;

    type Dir = OneFile;

    // Opens the path to read it, or to write it anew.
    fn open_file(&self, how: &OpenOptions, path: &str) -> io::Result<OneFile> {
        let anew = how.asks_write() && how.asks_create() && how.asks_truncate();
        if path != PATH || how.asks_append() || how.asks_read() == anew {
            return Err(io::Error::from(ErrorKind::NotFound));
        }
        match self.way {
            Way::IsShut => Err(io::Error::from(ErrorKind::PermissionDenied)),
            Way::LacksMemory => Err(io::Error::from(ErrorKind::OutOfMemory)),
            Way::Works | Way::IsCut => Ok(OneFile {
                way: self.way,
                done: 0,
            }),
        }
    }

    fn open_dir(&self, _path: &str) -> io::Result<OneFile> {
        unsupported()
    }

    fn metadata(&self, _path: &str) -> io::Result<Metadata> {
        unsupported()
    }

    fn symlink_metadata(&self, _path: &str) -> io::Result<Metadata> {
        unsupported()
    }

    fn copy(&self, _from: &str, _to: &str) -> io::Result<u64> {
        unsupported()
    }

    fn rename(&self, _from: &str, _to: &str) -> io::Result<()> {
        unsupported()
    }

    fn remove_file(&self, _path: &str) -> io::Result<()> {
        unsupported()
    }

    fn create_dir(&self, _path: &str) -> io::Result<()> {
        unsupported()
    }

    fn remove_dir(&self, _path: &str) -> io::Result<()> {
        unsupported()
    }

    fn remove_dir_all<B: Allocator>(&self, _alloc: B, _path: &str) -> io::Result<()> {
        unsupported()
    }
}

#[test]
fn a_read_opens_its_path_and_tells_what_fails(rt: HostRuntime) -> Result<(), Fail> {
    for (path, way, limit, want, held) in [
        ("in/here", Way::Works, 4, FileRead::Read, "held"),
        ("in/here", Way::Works, 3, FileRead::TooLong, ""),
        ("here", Way::Works, 4, FileRead::Missing, ""),
        ("in/here", Way::IsShut, 4, FileRead::Missing, ""),
        ("in/here", Way::LacksMemory, 4, FileRead::Memory, ""),
        ("in/here", Way::IsCut, 4, FileRead::Failed, ""),
    ] {
        let system = OnePath { way };
        let mut files = RealFiles::new(&system);
        let name = Text::from_slice(rt.alloc(), path.as_bytes())?;
        let mut into = Text::from_slice(rt.alloc(), b"old")?;
        assert_eq!(rt;
            files.read(&name, &mut into, limit),
            want,
            "{path}, {way:?}"
        );
        assert_eq!(rt; into.as_slice(), held.as_bytes(), "{path}, {way:?}");
    }
    Ok(())
}

#[test]
fn a_write_makes_its_path_and_tells_what_fails(rt: HostRuntime) -> Result<(), Fail> {
    for (path, way, want) in [
        ("in/here", Way::Works, FileWrite::Written),
        ("here", Way::Works, FileWrite::Locked),
        ("in/here", Way::IsShut, FileWrite::Locked),
        ("in/here", Way::LacksMemory, FileWrite::Memory),
        ("in/here", Way::IsCut, FileWrite::Failed),
    ] {
        let system = OnePath { way };
        let mut files = RealFiles::new(&system);
        let name = Text::from_slice(rt.alloc(), path.as_bytes())?;
        assert_eq!(rt; files.write(&name, NEW), want, "{path}, {way:?}");
    }
    Ok(())
}
