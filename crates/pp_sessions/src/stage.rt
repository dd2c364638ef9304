//! One run of the program over objects of the outside.

use crate::machine::Machine;
use crate::objects::{TrialFiles, TrialMatcher, TrialSink, TrialSource};
use crate::pipes::{PipeReader, PipeWriter};
use pp_base::{
    CalmFiles, CalmSink, CalmSource, FileRead, Files, List, Literal, Matcher, Memory, OpenGate,
    Sink, Source, Text,
};
use pp_engine::{Host, run};
use pp_keys::HashKeys;
use pp_real::{Input, Output, RealFiles};
use pp_regex::RegexMatcher;
use pp_transcripts::{AllCalls, Calls, Contents, Patterns, Session, Trial};
use std::alloc::Global;
use std::thread::Threads;
use std::{fs, mem, str};

/// The most bytes that a read of standard input gives.
const INPUT_PIECE: u32 = 5;

/// The most bytes that a write of standard output takes, in memory.
const OUT_PIECE: u32 = 4096;

/// The same in a session of which each call fails in turn.
const OUT_PIECE_OF_FAULTS: u32 = 16;

/// The most bytes that a write of standard error takes, in memory.
const ERR_PIECE: u32 = 16;

/// The most bytes that a writer behind the adapter takes.
const PIPE_PIECE: u32 = 3;

/// The most bytes of a file that is compared.
const FILE_LIMIT: u64 = 268_435_456;

// Files, standard input, both outputs and a matcher.
#[derive(Drop)]
struct Stage<F: Files + Drop, I: Source + Drop, O: Sink + Drop, E: Sink + Drop, M: Matcher + Drop> {
    files: F,
    input: I,
    out: O,
    err: E,
    matcher: M,
}

// The top call without its clauses, so that its callers need not carry them: the status of the run.
fn status_of<
    R: Threads + Sync,
    F: Files + Drop,
    I: Source + Drop,
    O: Sink + Drop,
    E: Sink + Drop,
    M: Matcher + Drop,
>(machine: &Machine<R>, words: &[Text], stage: &mut Stage<F, I, O, E, M>) -> u8 {
    let host = Host {
        rt: machine.threads,
        alloc: machine.alloc,
        keys: HashKeys::fixed(),
        gate: &OpenGate,
    };
    let ending = run(
        &host,
        words,
        &mut stage.files,
        &mut stage.input,
        &mut stage.out,
        &mut stage.err,
        &mut stage.matcher,
        &mut None,
    );
    ending.status
}

/// What a run leaves.
#[derive(Drop)]
pub struct Left {
    pub status: u8,
    pub out: TrialSink,
    pub err: TrialSink,
    /// The files at the paths of the session.
    pub files: Contents,
    /// How often a file was written at another path.
    pub others: u64,
    pub calls: AllCalls,
}

/// Runs the words of a session, of which one call may fail.
pub fn left_by<R: Threads + Sync>(
    machine: &Machine<R>,
    session: &Session,
    words: &[Text],
    trial: Option<Trial>,
) -> Result<Left, Memory> {
    let calls = AllCalls::before(trial);
    let alloc = machine.alloc;
    if session.transcript.setup.is_real {
        return left_on_machine(machine, session, words, calls);
    }
    match &session.transcript.setup.patterns {
        Patterns::Regular => {
            let matcher = RegexMatcher::new(alloc);
            left_in_memory(machine, session, words, calls, matcher)
        }
        Patterns::Literal(refused) => {
            let matcher = Literal::new(alloc, copied(alloc, refused)?);
            left_in_memory(machine, session, words, calls, matcher)
        }
    }
}

fn copied(alloc: Global, texts: &List<Text>) -> Result<List<Text>, Memory> {
    let mut copy = List::new(alloc);
    for text in texts.as_slice() {
        copy.push(Text::from_slice(alloc, text.as_slice())?)?;
    }
    Ok(copy)
}

type StageInMemory<M> = Stage<TrialFiles, TrialSource, TrialSink, TrialSink, TrialMatcher<M>>;

fn left_in_memory<R: Threads + Sync, M: Matcher + Drop>(
    machine: &Machine<R>,
    session: &Session,
    words: &[Text],
    calls: AllCalls,
    matcher: M,
) -> Result<Left, Memory> {
    let mut stage = stage_in_memory(machine.alloc, session, calls, matcher)?;
    let status = status_of(machine, words, &mut stage);
    left_on_stage(machine.alloc, session, status, stage)
}

// The stage before the run.
fn stage_in_memory<M: Matcher + Drop>(
    alloc: Global,
    session: &Session,
    calls: AllCalls,
    matcher: M,
) -> Result<StageInMemory<M>, Memory> {
    let files = files_in_memory(alloc, session, calls)?;
    let input = source_of(alloc, session, calls)?;
    Ok(Stage {
        files,
        input,
        out: out_in_memory(alloc, session, calls),
        err: TrialSink {
            calm: CalmSink::new(alloc, ERR_PIECE),
            calls: calls.err,
        },
        matcher: TrialMatcher {
            calm: matcher,
            calls: calls.matcher,
        },
    })
}

// What the run of the status left on the stage.
fn left_on_stage<M: Matcher + Drop>(
    alloc: Global,
    session: &Session,
    status: u8,
    stage: StageInMemory<M>,
) -> Result<Left, Memory> {
    match files_left(alloc, session, &stage.files.calm) {
        Ok(files) => Ok(Left {
            status,
            files,
            others: stage.files.others,
            calls: AllCalls {
                files: stage.files.calls,
                input: stage.input.calls,
                out: stage.out.calls,
                err: stage.err.calls,
                matcher: stage.matcher.calls,
            },
            out: stage.out,
            err: stage.err,
        }),
        Err(Memory) => {
            mem::drop(stage);
            Err(Memory)
        }
    }
}

fn out_in_memory(alloc: Global, session: &Session, calls: AllCalls) -> TrialSink {
    let calm = if session.transcript.faults.len() == 0 {
        CalmSink::new(alloc, OUT_PIECE)
    } else {
        CalmSink::new(alloc, OUT_PIECE_OF_FAULTS)
    };
    TrialSink {
        calm,
        calls: calls.out,
    }
}

fn files_in_memory(
    alloc: Global,
    session: &Session,
    calls: AllCalls,
) -> Result<TrialFiles, Memory> {
    let locked = copied(alloc, &session.transcript.setup.locked)?;
    Ok(TrialFiles {
        calm: CalmFiles::new(alloc, session.before.copied()?, locked),
        calls: calls.files,
        known: copied(alloc, &session.paths)?,
        others: 0,
    })
}

fn source_of(alloc: Global, session: &Session, calls: AllCalls) -> Result<TrialSource, Memory> {
    let input = Text::from_slice(alloc, session.transcript.setup.input.as_slice())?;
    Ok(TrialSource {
        calm: CalmSource::new(input, INPUT_PIECE),
        calls: calls.input,
    })
}

fn files_left(alloc: Global, session: &Session, files: &CalmFiles) -> Result<Contents, Memory> {
    let mut left = Contents::new(alloc);
    for path in session.paths.as_slice() {
        if let Some(content) = files.content(path) {
            left.append(path, content.as_slice())?;
        }
    }
    Ok(left)
}

fn left_on_machine<R: Threads + Sync>(
    machine: &Machine<R>,
    session: &Session,
    words: &[Text],
    calls: AllCalls,
) -> Result<Left, Memory> {
    let mut files = RealFiles::new(machine.host);
    for (path, content) in session.before.entries() {
        let _ = files.write(path, content.as_slice());
    }
    let left = left_over_pipes(machine, session, words, calls)?;
    let files = real_files_left(machine, session)?;
    for path in session.paths.as_slice() {
        remove(machine.host, path);
    }
    Ok(Left { files, ..left })
}

fn real_files_left<R: Threads + Sync>(
    machine: &Machine<R>,
    session: &Session,
) -> Result<Contents, Memory> {
    let alloc = machine.alloc;
    let mut files = RealFiles::new(machine.host);
    let mut left = Contents::new(alloc);
    for path in session.paths.as_slice() {
        let mut content = Text::new(alloc);
        if files.read(path, &mut content, FILE_LIMIT) == FileRead::Read {
            left.append(path, content.as_slice())?;
        }
    }
    Ok(left)
}

// Removes the file, where it lies in the folder of the run.
fn remove(rt: &HostRuntime, path: &Text) {
    if let Ok(name) = str::from_utf8(path.as_slice()) {
        if !name.starts_with('/') {
            let _ = fs::remove_file(rt, name);
        }
    }
}

fn pipe_of(alloc: Global, calls: Calls) -> TrialSink {
    TrialSink {
        calm: CalmSink::new(alloc, PIPE_PIECE),
        calls,
    }
}

// Standard input and both outputs below the adapters over a reader and a writer.
#[derive(Drop)]
struct Pipes {
    input: TrialSource,
    out: TrialSink,
    err: TrialSink,
}

fn left_over_pipes<R: Threads + Sync>(
    machine: &Machine<R>,
    session: &Session,
    words: &[Text],
    calls: AllCalls,
) -> Result<Left, Memory> {
    let mut pipes = Pipes {
        input: source_of(machine.alloc, session, calls)?,
        out: pipe_of(machine.alloc, calls.out),
        err: pipe_of(machine.alloc, calls.err),
    };
    let (status, matcher) = run_over_pipes(machine, words, &mut pipes, calls.matcher);
    Ok(Left {
        status,
        files: Contents::new(machine.alloc),
        others: 0,
        calls: AllCalls {
            files: calls.files,
            input: pipes.input.calls,
            out: pipes.out.calls,
            err: pipes.err.calls,
            matcher,
        },
        out: pipes.out,
        err: pipes.err,
    })
}

// The status, and the calls of the matcher.
fn run_over_pipes<R: Threads + Sync>(
    machine: &Machine<R>,
    words: &[Text],
    pipes: &mut Pipes,
    calls: Calls,
) -> (u8, Calls) {
    let mut stage = Stage {
        files: RealFiles::new(machine.host),
        input: Input::new(PipeReader {
            source: &mut pipes.input,
        }),
        out: Output::new(PipeWriter {
            sink: &mut pipes.out,
        }),
        err: Output::new(PipeWriter {
            sink: &mut pipes.err,
        }),
        matcher: TrialMatcher {
            calm: RegexMatcher::new(machine.alloc),
            calls,
        },
    };
    let status = status_of(machine, words, &mut stage);
    (status, stage.matcher.calls)
}
