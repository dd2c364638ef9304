//! All runs of a transcript: each command, with each number of workers, and with each call that fails.

use crate::comparing::{session_difference, trial_difference};
use crate::machine::Machine;
use crate::report::{Run, SessionReport};
use crate::stage::left_by;
use pp_base::{List, Memory, Text};
use pp_transcripts::{Fault, Session, Trial};
use std::alloc::Global;
use std::thread::Threads;

/// Runs all that the transcript asks for, and counts it.
pub fn run_all<R: Threads + Sync>(
    machine: &Machine<R>,
    session: &Session,
    report: &mut SessionReport,
) -> Result<(), Memory> {
    for words in session.transcript.commands.as_slice() {
        if session.transcript.workers.len() == 0 {
            run_words(machine, session, words.as_slice(), report)?;
        }
        for workers in session.transcript.workers.as_slice() {
            let words = with_workers(machine.alloc, workers, words.as_slice())?;
            run_words(machine, session, words.as_slice(), report)?;
        }
    }
    Ok(())
}

fn with_workers(alloc: Global, workers: &Text, words: &[Text]) -> Result<List<Text>, Memory> {
    let mut option = Text::from_slice(alloc, b"-workers=")?;
    option.extend(workers.as_slice())?;
    let mut all = List::new(alloc);
    all.push(option)?;
    for word in words {
        all.push(Text::from_slice(alloc, word.as_slice())?)?;
    }
    Ok(all)
}

fn run_words<R: Threads + Sync>(
    machine: &Machine<R>,
    session: &Session,
    words: &[Text],
    report: &mut SessionReport,
) -> Result<(), Memory> {
    run_whole(machine, session, words, report)?;
    for (fault, calls) in session.transcript.faults.as_slice() {
        run_trials(machine, session, words, *fault, *calls, report)?;
    }
    Ok(())
}

// Runs the words with no call that fails, and counts it.
fn run_whole<R: Threads + Sync>(
    machine: &Machine<R>,
    session: &Session,
    words: &[Text],
    report: &mut SessionReport,
) -> Result<(), Memory> {
    let left = left_by(machine, session, words, None)?;
    let run = Run { words, trial: None };
    report.count(session, run, &left, session_difference(session, &left))
}

// Each call fails in a run of its own, and then the one after the last.
fn run_trials<R: Threads + Sync>(
    machine: &Machine<R>,
    session: &Session,
    words: &[Text],
    fault: Fault,
    calls: u64,
    report: &mut SessionReport,
) -> Result<(), Memory> {
    for call in 0..=calls {
        run_trial(
            machine,
            session,
            words,
            Trial { fault, call },
            calls,
            report,
        )?;
    }
    Ok(())
}

// Runs the words with the call of the trial failing, where the session makes that many, and counts it.
fn run_trial<R: Threads + Sync>(
    machine: &Machine<R>,
    session: &Session,
    words: &[Text],
    trial: Trial,
    calls: u64,
    report: &mut SessionReport,
) -> Result<(), Memory> {
    let left = left_by(machine, session, words, Some(trial))?;
    let found = trial_difference(session, &left, trial, calls);
    let run = Run {
        words,
        trial: Some(trial),
    };
    report.count(session, run, &left, found)
}
