// Lines of inputs, however the source cuts them and fails.

use pp_base::{CalmSource, List, MemSource, Memory, Source, Text};
use pp_desk::{LineRead, LineReader};
use std::alloc::Global;
use std::test::Fail;

// How often a byte `a` is read, the bytes after them, and the lines, where the longest one stands for itself.
static INPUTS: [(usize, &[u8], &[&[u8]]); 9] = [
    (
        0,
        b"one\ntwo\r\n\n\r\nlast",
        &[b"one", b"two\r", b"", b"\r", b"last", b"END", b"END"],
    ),
    (65_536, b"\nq", &[b"LONGEST", b"q", b"END"]),
    (65_537, b"\nq", &[b"TOO LONG", b"q", b"END"]),
    (65_536, b"\r\nq", &[b"TOO LONG", b"q", b"END"]),
    (300_000, b"\nq\n", &[b"TOO LONG", b"q", b"END"]),
    (65_536, b"", &[b"LONGEST", b"END", b"END"]),
    (65_537, b"", &[b"TOO LONG", b"END", b"END"]),
    (16_777_215, b"", &[b"TOO LONG", b"END"]),
    (16_777_216, b"", &[b"INPUT TOO LONG", b"INPUT TOO LONG"]),
];

#[test]
fn inputs_are_cut_anywhere(rt: HostRuntime) -> Result<(), Fail> {
    for most in [1, 2, 3, 5, 17, 1_000, 65_537, 1_000_000] {
        for (length, rest, owed) in INPUTS {
            // Small pieces of long inputs take long.
            if length <= most as usize * 1_000 {
                let input = input_of(rt.alloc(), length, rest, most)?;
                assert!(rt; are_lines(rt.alloc(), input, owed)?, "{length} by {most}");
            }
        }
    }
    Ok(())
}

// A source that gives so many bytes at most.
fn input_of(alloc: Global, length: usize, rest: &[u8], most: u32) -> Result<CalmSource, Memory> {
    let mut bytes = Text::from_vec(vec![in alloc; b'a'; length]?);
    bytes.extend(rest)?;
    Ok(CalmSource::new(bytes, most.max(1)))
}

fn are_lines<I: Source + Drop>(alloc: Global, input: I, owed: &[&[u8]]) -> Result<bool, Memory> {
    let mut input = input;
    let mut reader = LineReader::new(alloc)?;
    let mut is_owed = true;
    for line in owed {
        is_owed = is_owed && shown(&reader.next_line(&mut input)) == *line;
    }
    Ok(is_owed)
}

fn shown(read: &LineRead) -> &[u8] {
    match read {
        LineRead::Line(line) if line.len() == 65_536 => b"LONGEST",
        LineRead::Line(line) => line.as_slice(),
        LineRead::TooLong => b"TOO LONG",
        LineRead::End => b"END",
        LineRead::InputTooLong => b"INPUT TOO LONG",
        LineRead::Failed => b"FAILED",
        LineRead::Memory => b"MEMORY",
    }
}

#[test]
fn a_read_fails(rt: HostRuntime) -> Result<(), Fail> {
    let fails = List::from_vec([1, 3].to_vec(rt.alloc())?);
    let bytes = Text::from_slice(rt.alloc(), b"ab\ncd")?;
    let input = MemSource::new(bytes, 2, fails);
    let owed: [&[u8]; 5] = [b"FAILED", b"ab", b"FAILED", b"cd", b"END"];
    assert!(rt; are_lines(rt.alloc(), input, &owed)?);
    Ok(())
}
