//! Which object of the outside fails in a run, how, and at which of its calls.

use crate::calls::{Calls, Failing, Failure};

/// An object of the outside.
#[derive(Clone, Copy, PartialEq, Eq)]
pub enum Object {
    /// The files.
    Files,
    /// Standard input.
    Input,
    /// Standard output.
    Out,
    /// Standard error.
    Err,
    /// The matcher of patterns.
    Matcher,
}

/// A kind of failure.
#[derive(Clone, Copy, PartialEq, Eq)]
pub struct Fault {
    /// Its name in transcripts.
    pub name: &'static str,
    /// The object of which one call fails.
    pub object: Object,
    /// How it fails.
    pub failure: Failure,
    /// Whether every write of standard error fails besides.
    pub is_muted: bool,
}

const fn one(name: &'static str, object: Object, failure: Failure) -> Fault {
    Fault {
        name,
        object,
        failure,
        is_muted: false,
    }
}

const fn one_muted(name: &'static str, object: Object) -> Fault {
    Fault {
        name,
        object,
        failure: Failure::Fault,
        is_muted: true,
    }
}

/// The kind of failure of the name.
pub fn fault_named(name: &str) -> Option<Fault> {
    let faults = [
        one("files", Object::Files, Failure::Fault),
        one("input", Object::Input, Failure::Fault),
        one("out", Object::Out, Failure::Fault),
        one("err", Object::Err, Failure::Fault),
        one("memory-files", Object::Files, Failure::Memory),
        one("memory-out", Object::Out, Failure::Memory),
        one("memory-err", Object::Err, Failure::Memory),
        one("memory-matcher", Object::Matcher, Failure::Memory),
        one("refused-matcher", Object::Matcher, Failure::Refusal),
        one_muted("files+err", Object::Files),
        one_muted("input+err", Object::Input),
    ];
    faults.iter().copied().find(|fault| fault.name == name)
}

impl Fault {
    /// The line that tells of it on standard error, and nothing where that fails.
    pub fn line(self) -> &'static [u8] {
        match (self.failure, self.object) {
            (Failure::Memory, _) => b"pprof: out of memory\n",
            _ if self.is_muted => b"",
            (_, Object::Files) => b"pprof: file fault\n",
            (_, Object::Input) => b"pprof: input fault\n",
            (_, Object::Out) => b"pprof: output fault\n",
            (_, Object::Err | Object::Matcher) => b"",
        }
    }

    /// The status of a run that it ends.
    pub fn status(self) -> u8 {
        match self.failure {
            Failure::Fault => 3,
            Failure::Memory => 4,
            Failure::Refusal => 1,
        }
    }
}

/// A run in which one call fails.
#[derive(Clone, Copy)]
pub struct Trial {
    /// What fails.
    pub fault: Fault,
    /// The number of the call that fails, from 0.
    pub call: u64,
}

/// The calls of each object.
#[derive(Clone, Copy)]
pub struct AllCalls {
    /// Of the files.
    pub files: Calls,
    /// Of standard input.
    pub input: Calls,
    /// Of standard output.
    pub out: Calls,
    /// Of standard error.
    pub err: Calls,
    /// Of the matcher.
    pub matcher: Calls,
}

impl AllCalls {
    /// The calls before a run.
    pub fn before(trial: Option<Trial>) -> Self {
        AllCalls {
            files: calls_before(trial, Object::Files),
            input: calls_before(trial, Object::Input),
            out: calls_before(trial, Object::Out),
            err: calls_before(trial, Object::Err),
            matcher: calls_before(trial, Object::Matcher),
        }
    }

    /// Those of the object.
    pub fn of(&self, object: Object) -> Calls {
        match object {
            Object::Files => self.files,
            Object::Input => self.input,
            Object::Out => self.out,
            Object::Err => self.err,
            Object::Matcher => self.matcher,
        }
    }
}

fn calls_before(trial: Option<Trial>, object: Object) -> Calls {
    match trial {
        Some(trial) if trial.fault.object == object => {
            Calls::new(Failing::One(trial.call), trial.fault.failure)
        }
        Some(trial) if trial.fault.is_muted && object == Object::Err => {
            Calls::new(Failing::All, Failure::Fault)
        }
        _ => Calls::new(Failing::None, Failure::Fault),
    }
}
