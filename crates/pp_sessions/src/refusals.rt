//! What a run left in which a pattern was refused.

use crate::comparing::{RunDifference, different_file, is_different, is_same};
use crate::stage::Left;
use pp_base::Text;
use pp_transcripts::Session;

const PROMPT: &[u8] = b"(pprof) ";

const REFUSED: &[u8] = b": pattern refused\n";

/// Whether the run came to a shell.
pub fn is_in_shell(left: &Left) -> bool {
    left.out.calm.bytes().as_slice().starts_with(PROMPT)
}

/// The first difference of a run in whose shell a pattern was refused. One report is left out, a line tells of the
/// refusal, and the session goes on. All else is as owed.
pub fn refusal_difference<'a>(session: &'a Session, left: &Left) -> Option<RunDifference<'a>> {
    let owed = &session.transcript.owed;
    if !is_refused_once(owed.err.as_slice(), left.err.calm.bytes().as_slice()) {
        Some(RunDifference::Err)
    } else if !is_out_whole(session, left)
        && !lacks_a_report(owed.out.as_slice(), left.out.calm.bytes().as_slice())
    {
        Some(RunDifference::Out)
    } else if left.status != owed.status {
        Some(RunDifference::Status)
    } else {
        unwritten_difference(session, left)
    }
}

fn is_out_whole(session: &Session, left: &Left) -> bool {
    left.out.calm.bytes().as_slice() == session.transcript.owed.out.as_slice()
}

// Where standard output lacks no report, a file was not written. Where none was due, the refusal is in the place of a line.
fn unwritten_difference<'a>(session: &'a Session, left: &Left) -> Option<RunDifference<'a>> {
    let is_whole = is_out_whole(session, left);
    match different_file(session, left) {
        Some(path) if is_whole && is_alone_unwritten(session, left, path) => None,
        Some(path) => Some(RunDifference::File(path)),
        None if is_whole && !has_as_many_lines(session, left) => Some(RunDifference::Err),
        None => None,
    }
}

// Whether the file holds what it held before, and all others hold what they owe.
fn is_alone_unwritten(session: &Session, left: &Left, path: &Text) -> bool {
    is_same(left.files.content(path), session.before.content(path))
        && different_files(session, left) == 1
}

fn different_files(session: &Session, left: &Left) -> usize {
    let paths = session.paths.as_slice().iter();
    paths
        .filter(|path| is_different(session, left, path))
        .count()
}

fn has_as_many_lines(session: &Session, left: &Left) -> bool {
    lines(left.err.calm.bytes().as_slice()) == lines(session.transcript.owed.err.as_slice())
}

/// Whether `left` ends in a line that tells of a refusal, behind a front of `owed`.
pub fn is_refused_last(owed: &[u8], left: &[u8]) -> bool {
    match left.split_inclusive(|byte| *byte == b'\n').last() {
        Some(line) => is_refusal(line) && is_front(owed, left.strip_suffix(line)),
        None => false,
    }
}

fn is_front(owed: &[u8], front: Option<&[u8]>) -> bool {
    match front {
        Some(front) => owed.starts_with(front),
        None => false,
    }
}

// Whether a line of `left` tells of a refusal, in the place of one line of `owed` at most. All others are as owed.
fn is_refused_once(owed: &[u8], left: &[u8]) -> bool {
    let mut place: usize = 0;
    for line in left.split_inclusive(|byte| *byte == b'\n') {
        let behind = place.saturating_add(line.len());
        let before = left.get(..place).unwrap_or(left);
        let after = left.get(behind..).unwrap_or(left);
        if is_refusal(line) && is_line(between(owed, before, after)) {
            return true;
        }
        place = behind;
    }
    false
}

fn is_refusal(line: &[u8]) -> bool {
    line.starts_with(b"pprof: ") && line.ends_with(REFUSED)
}

// What stands between a front and an end of the bytes.
fn between<'a>(bytes: &'a [u8], front: &[u8], end: &[u8]) -> Option<&'a [u8]> {
    bytes.strip_prefix(front)?.strip_suffix(end)
}

// Whether it is one line at most.
fn is_line(bytes: Option<&[u8]>) -> bool {
    match bytes {
        Some(bytes) => lines(bytes) <= 1,
        None => false,
    }
}

fn lines(bytes: &[u8]) -> usize {
    bytes.split_inclusive(|byte| *byte == b'\n').count()
}

// Whether `left` is `owed` without all that stands between one prompt and the next.
fn lacks_a_report(owed: &[u8], left: &[u8]) -> bool {
    (0..=left.len()).any(|place| lacks_a_report_at(owed, left, place))
}

// Whether the report would stand at this place of `left`.
fn lacks_a_report_at(owed: &[u8], left: &[u8], place: usize) -> bool {
    match left.split_at_checked(place) {
        Some((front, end)) => {
            front.ends_with(PROMPT)
                && end.starts_with(PROMPT)
                && is_report(between(owed, front, end))
        }
        None => false,
    }
}

// Whether no prompt stands in it.
fn is_report(bytes: Option<&[u8]>) -> bool {
    match bytes {
        Some(bytes) => !has_prompt(bytes),
        None => false,
    }
}

fn has_prompt(bytes: &[u8]) -> bool {
    bytes.windows(PROMPT.len()).any(|window| window == PROMPT)
}
