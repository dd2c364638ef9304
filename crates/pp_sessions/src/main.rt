//! The program `pp_sessions`: it runs transcripts of whole sessions, and compares what each leaves with what it owes.
//!
//! Its words are the names of files of transcripts. A session runs over files, streams and a matcher in memory, so that
//! each call of the outside can be made to fail; a transcript can ask for the machine's own files instead. For each file
//! it prints how many sessions were as owed, and each that was not. The status is 1 where one was not, or where a file
//! can't be understood.
#![tactic(auto)]

mod comparing;
mod machine;
mod objects;
mod pipes;
mod refusals;
mod report;
mod runs;
mod stage;

use machine::Machine;
use pp_base::{Memory, Text, write_all};
use pp_real::{Output, read_words};
use pp_transcripts::{Folder, Transcript, Unready, transcripts_of};
use report::SessionReport;
use runs::run_all;
use std::process::ExitCode;
use std::str;
use std::thread::Threads;

fn main(rt: HostRuntime) -> ExitCode {
    let mut report = SessionReport::new(rt.alloc());
    let machine = Machine {
        threads: &rt,
        host: &rt,
        alloc: rt.alloc(),
    };
    let is_whole = run_files(&machine, &mut report).is_ok();
    let mut out = Output::new(rt.stdout());
    let is_told = write_all(&mut out, report.text.as_slice()).is_ok();
    ExitCode::from(u8::from(!(is_whole && is_told && report.all_as_owed())))
}

fn run_files<R: Threads + Sync>(
    machine: &Machine<R>,
    report: &mut SessionReport,
) -> Result<(), Memory> {
    for name in &read_words(machine.host, machine.alloc)? {
        run_file(machine, name, report)?;
    }
    Ok(())
}

fn run_file<R: Threads + Sync>(
    machine: &Machine<R>,
    name: &Text,
    report: &mut SessionReport,
) -> Result<(), Memory> {
    let mut folder = Folder::of(machine.host, machine.alloc, name)?;
    match folder.read(name) {
        Ok(text) => run_text(machine, name, &text, &mut folder, report),
        Err(unready) => refuse(name, None, unready, report),
    }
}

fn run_text<R: Threads + Sync>(
    machine: &Machine<R>,
    name: &Text,
    text: &Text,
    folder: &mut Folder,
    report: &mut SessionReport,
) -> Result<(), Memory> {
    let Ok(text) = str::from_utf8(text.as_slice()) else {
        return report.refuse(name, None, b"not UTF-8");
    };
    let transcripts = match transcripts_of(machine.alloc, text) {
        Ok(transcripts) => transcripts,
        Err(fault) => {
            return report.refuse(name, Some(fault.line), fault.problem.text().as_bytes());
        }
    };
    for transcript in transcripts.as_slice() {
        run_transcript(machine, name, transcript, folder, report)?;
    }
    report.close(name)
}

fn run_transcript<R: Threads + Sync>(
    machine: &Machine<R>,
    name: &Text,
    transcript: &Transcript,
    folder: &mut Folder,
    report: &mut SessionReport,
) -> Result<(), Memory> {
    match folder.session(transcript) {
        Ok(session) => run_all(machine, &session, report),
        Err(unready) => refuse(name, Some(transcript.line), unready, report),
    }
}

fn refuse(
    name: &Text,
    line: Option<u64>,
    unready: Unready,
    report: &mut SessionReport,
) -> Result<(), Memory> {
    match unready {
        Unready::NoFile(path) => {
            let mut why = path;
            why.extend(b" can't be read")?;
            report.refuse(name, line, why.as_slice())
        }
        Unready::Memory => Err(Memory),
    }
}
