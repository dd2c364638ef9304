//! Sources in memory.

ghost use Rattle.std.specs.Prelude.{◌≡◌, ◌<◌, ◌≤◌, Some, length};
ghost use Rattle.pp_base.specs.Fault.{Rose};
ghost use Rattle.pp_base.specs.Reads.{Takes};
ghost use Rattle.pp_base.specs.MemForms.{CalmTakes, MemTakes};

use crate::schedule::Schedule;
use crate::{List, Source, SourceRead, Text};
use std::marker::Model;

/// A source that gives at most `most` bytes a call, and never fails.
#[derive(Debug, Drop)]
pub struct CalmSource {
    bytes: Text,
    at: usize,
    most: u32,
}

impl Model for CalmSource {
    ghost use Rattle.std.specs.Prelude.{◌<◌, ◌≤◌, drop, length};
    ghost use Rattle.pp_base.specs.Held.{SourceHeld};

    ghost Value = { SourceHeld };

    ghost view = { λ s. record { left = drop s.at s.bytes; most = s.most } };

    ghost invariant = { λ s. (0 < s.most) × (s.at ≤ length s.bytes) };
}

impl CalmSource {
    /// A source of these bytes. It takes no memory.
    pub fn new(bytes: Text, most: u32) -> Self
        requires { 0 < most }
        ensures { result ≡ record { left = bytes; most = most } }
    {
        CalmSource { bytes, at: 0, most }
    }
}

impl Source for CalmSource {
    ghost left = { λ s. Some s.left };

    ghost faults = { λ _. 0 };

    /// Gives as many bytes as are left and fit the buffer, up to `most`.
    #[tactic(auto, using(crate::proofs::Pieces::copied_front, crate::proofs::Pieces::copied_bytes))]
    fn read(&mut self, buf: &mut [u8]) -> SourceRead
        requires { 0 < length buf.old }
        ensures bytes { Takes (Some self.old.left) (Some self.new.left) buf.new result }
        ensures later { 0 ≤ 0 }
        ensures failed { result ≡ SourceRead.Failed → Rose 0 0 }
        ensures exact { CalmTakes self.old self.new buf.new result }
    {
        let (_, rest) = self.bytes.as_slice().split_at(self.at);
        let count = rest.len().min(buf.len()).min(self.most as usize);
        if count == 0 {
            return SourceRead::End;
        }
        buf[..count].copy_from_slice(&rest[..count]);
        self.at += count;
        SourceRead::Got(count)
    }
}

/// A source that gives at most `most` bytes a call, and of which some calls fail: the first where `fails` has 0, the
/// next where it has 1, and so on.
#[derive(Debug, Drop)]
pub struct MemSource {
    calm: CalmSource,
    schedule: Schedule,
}

impl Model for MemSource {
    ghost use Rattle.pp_base.specs.Held.{MemSourceHeld};

    ghost Value = { MemSourceHeld };

    ghost view = { λ s. record { calm = s.calm; calls = s.schedule } };
}

impl MemSource {
    /// A source of these bytes. It takes no memory.
    pub fn new(bytes: Text, most: u32, fails: List<u32>) -> Self
        requires { 0 < most }
        ensures { result ≡ record {
          calm = record { left = bytes; most = most };
          calls = record { fails = fails; number = 0; faults = 0 };
        } }
    {
        MemSource {
            calm: CalmSource::new(bytes, most),
            schedule: Schedule::new(fails),
        }
    }
}

impl Source for MemSource {
    ghost left = { λ s. Some s.calm.left };

    ghost faults = { λ s. s.calls.faults };

    /// As the calm source reads, unless this call fails.
    fn read(&mut self, buf: &mut [u8]) -> SourceRead
        requires { 0 < length buf.old }
        ensures bytes { Takes (Some self.old.calm.left) (Some self.new.calm.left) buf.new result }
        ensures later { self.old.calls.faults ≤ self.new.calls.faults }
        ensures failed { result ≡ SourceRead.Failed
            → Rose self.old.calls.faults self.new.calls.faults }
        ensures exact { MemTakes self.old self.new buf.new result }
    {
        if self.schedule.next_fails() {
            return SourceRead::Failed;
        }
        self.calm.read(buf)
    }
}
