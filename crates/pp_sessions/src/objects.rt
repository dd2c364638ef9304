//! Objects in memory of which any call can be made to fail, in each way that it may.
ghost use Rattle.std.specs.Prelude.{◌≡◌, ◌≢◌, None};

use pp_base::{
    CalmFiles, CalmSink, CalmSource, FileRead, FileWrite, Files, Judgement, List, Matcher, Sink,
    SinkWrite, Source, SourceRead, Text,
};
use pp_transcripts::{Calls, Failure, is_among};

/// Files in memory.
#[derive(Drop)]
pub struct TrialFiles {
    pub calm: CalmFiles,
    pub calls: Calls,
    /// The paths that a session may write.
    pub known: List<Text>,
    /// How often another path was written.
    pub others: u64,
}

impl TrialFiles {
    // Writes the bytes, and counts another path.
    fn put(&mut self, path: &Text, bytes: &[u8]) -> FileWrite
        ensures calls { self.new.calls ≡ self.old.calls }
        ensures calm { result ≢ FileWrite.Failed }
    {
        let answer = self.calm.write(path, bytes);
        if answer == FileWrite::Written && !is_among(path, self.known.as_slice()) {
            self.others = self.others.saturating_add(1);
        }
        answer
    }
}

impl Files for TrialFiles {
    ghost content = { λ _. None };

    ghost locked = { λ _. None };

    ghost reads = { λ _. None };

    ghost faults = { λ f. f.calls.faults };

    fn read(&mut self, path: &Text, into: &mut Text, limit: u64) -> FileRead {
        if let Some(failure) = self.calls.count() {
            into.clear();
            return failed_read(failure);
        }
        self.calm.read(path, into, limit)
    }

    /// A write that fails leaves the first half of the bytes.
    fn write(&mut self, path: &Text, bytes: &[u8]) -> FileWrite {
        match self.calls.count() {
            None => self.put(path, bytes),
            Some(Failure::Fault) => {
                self.put(path, &bytes[..bytes.len() / 2]);
                FileWrite::Failed
            }
            Some(_) => FileWrite::Memory,
        }
    }
}

fn failed_read(failure: Failure) -> FileRead {
    match failure {
        Failure::Fault => FileRead::Failed,
        Failure::Memory | Failure::Refusal => FileRead::Memory,
    }
}

/// A source in memory. It has one way to fail.
#[derive(Drop)]
pub struct TrialSource {
    pub calm: CalmSource,
    pub calls: Calls,
}

impl Source for TrialSource {
    ghost left = { λ _. None };

    ghost faults = { λ s. s.calls.faults };

    fn read(&mut self, buf: &mut [u8]) -> SourceRead {
        match self.calls.count() {
            None => self.calm.read(buf),
            Some(_) => SourceRead::Failed,
        }
    }
}

/// A sink in memory.
#[derive(Drop)]
pub struct TrialSink {
    pub calm: CalmSink,
    pub calls: Calls,
}

impl Sink for TrialSink {
    ghost written = { λ _. None };

    ghost faults = { λ s. s.calls.faults };

    fn write(&mut self, bytes: &[u8]) -> SinkWrite {
        match self.calls.count() {
            None => self.calm.write(bytes),
            Some(Failure::Fault) => SinkWrite::Failed,
            Some(_) => SinkWrite::Memory,
        }
    }
}

/// A matcher. Where it fails, it refuses the pattern or has no memory.
#[derive(Drop)]
pub struct TrialMatcher<M: Matcher + Drop> {
    pub calm: M,
    pub calls: Calls,
}

impl<M: Matcher + Drop> Matcher for TrialMatcher<M> {
    ghost finds = { M.finds };

    ghost answers = { λ _. None };

    fn judge(&mut self, pattern: &Text, subjects: &List<Text>) -> Judgement {
        match self.calls.count() {
            None => self.calm.judge(pattern, subjects),
            Some(Failure::Refusal) => Judgement::Refused,
            Some(_) => Judgement::Memory,
        }
    }
}
