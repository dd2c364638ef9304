//! What a run left against what the session owes.

use crate::refusals::{is_in_shell, is_refused_last, refusal_difference};
use crate::stage::Left;
use pp_base::Text;
use pp_transcripts::{Failure, Fault, Object, Session, Trial};

/// In what a run differs from what it owes.
#[derive(Clone, Copy)]
pub enum RunDifference<'a> {
    Status,
    Out,
    Err,
    /// The file of the path.
    File(&'a Text),
    /// A file was written at a path that the transcript does not name.
    OtherFile,
    /// How many calls of the object were made.
    Calls,
}

/// The first difference of a run without a failure.
pub fn session_difference<'a>(session: &'a Session, left: &Left) -> Option<RunDifference<'a>> {
    let owed = &session.transcript.owed;
    if left.err.calm.bytes().as_slice() != owed.err.as_slice() {
        Some(RunDifference::Err)
    } else if left.out.calm.bytes().as_slice() != owed.out.as_slice() {
        Some(RunDifference::Out)
    } else if left.status != owed.status {
        Some(RunDifference::Status)
    } else if left.others > 0 {
        Some(RunDifference::OtherFile)
    } else {
        Some(RunDifference::File(different_file(session, left)?))
    }
}

/// The path of the first file that does not hold what it owes.
pub fn different_file<'a>(session: &'a Session, left: &Left) -> Option<&'a Text> {
    session
        .paths
        .as_slice()
        .iter()
        .find(|path| is_different(session, left, path))
}

/// Whether the file of the path does not hold what it owes.
pub fn is_different(session: &Session, left: &Left, path: &Text) -> bool {
    !is_same(left.files.content(path), session.after.content(path))
}

/// Whether both are the same, or both are missing.
pub fn is_same(one: Option<&Text>, other: Option<&Text>) -> bool {
    match (one, other) {
        (Some(one), Some(other)) => one.as_slice() == other.as_slice(),
        (None, None) => true,
        _ => false,
    }
}

/// The first difference of a run with a failure. Where the call is one more than the session makes, nothing fails.
pub fn trial_difference<'a>(
    session: &'a Session,
    left: &Left,
    trial: Trial,
    calls: u64,
) -> Option<RunDifference<'a>> {
    let made = left.calls.of(trial.fault.object);
    if trial.call == calls {
        if made.number != calls {
            return Some(RunDifference::Calls);
        }
        return session_difference(session, left);
    }
    if made.faults == 0 {
        return Some(RunDifference::Calls);
    }
    failure_difference(session, left, trial.fault)
}

// The first difference of a run in which a call failed.
fn failure_difference<'a>(
    session: &'a Session,
    left: &Left,
    fault: Fault,
) -> Option<RunDifference<'a>> {
    let is_told = if fault.failure == Failure::Refusal && is_in_shell(left) {
        refusal_difference(session, left)
    } else {
        stop(session, left, fault)
    };
    match is_told {
        Some(difference) => Some(difference),
        None if left.others > 0 => Some(RunDifference::OtherFile),
        None => unowed_file(session, left),
    }
}

// A run that the failure ended: fronts of what the session owes, and the line of the failure.
fn stop<'a>(session: &'a Session, left: &Left, fault: Fault) -> Option<RunDifference<'a>> {
    let owed = &session.transcript.owed;
    if !is_told_last(owed.err.as_slice(), left.err.calm.bytes().as_slice(), fault) {
        Some(RunDifference::Err)
    } else if !owed
        .out
        .as_slice()
        .starts_with(left.out.calm.bytes().as_slice())
    {
        Some(RunDifference::Out)
    } else if left.status != fault.status() {
        Some(RunDifference::Status)
    } else {
        None
    }
}

// Whether standard error has a front of what is owed, and then the line of the failure.
fn is_told_last(owed: &[u8], left: &[u8], fault: Fault) -> bool {
    if fault.failure == Failure::Refusal {
        return is_refused_last(owed, left);
    }
    match left.strip_suffix(fault.line()) {
        Some(front) => owed.starts_with(front),
        None => false,
    }
}

// A file that holds neither what it held before nor a front of what it owes.
fn unowed_file<'a>(session: &'a Session, left: &Left) -> Option<RunDifference<'a>> {
    let path = session.paths.as_slice().iter().find(|path| {
        let content = left.files.content(path);
        !is_same(content, session.before.content(path))
            && !is_front(content, session.after.content(path))
    })?;
    Some(RunDifference::File(path))
}

fn is_front(left: Option<&Text>, owed: Option<&Text>) -> bool {
    match (left, owed) {
        (Some(left), Some(owed)) => owed.as_slice().starts_with(left.as_slice()),
        _ => false,
    }
}
