//! The program `pprof`: the machine's files and streams, and one call.
#![tactic(auto)]

use pp_base::OpenGate;
use pp_engine::{Host, run_program};
use pp_keys::HashKeys;
use pp_real::{Input, Output, RealFiles, read_words};
use pp_regex::RegexMatcher;
use std::mem;
use std::process::ExitCode;

fn main(rt: HostRuntime) -> ExitCode {
    let alloc = rt.alloc();
    let host = Host {
        rt: &rt,
        alloc,
        keys: HashKeys::random(&rt),
        gate: &OpenGate,
    };
    let mut profile = None;
    let code = run_program(
        &host,
        read_words(&rt, alloc),
        &mut RealFiles::new(&rt),
        &mut Input::new(rt.stdin()),
        &mut Output::new(rt.stdout()),
        &mut Output::new(rt.stderr()),
        &mut RegexMatcher::new(alloc),
        &mut profile,
    );
    // The process ends, and all its memory with it.
    mem::forget(profile);
    code
}
