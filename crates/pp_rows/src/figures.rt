// The figures of a tree report in nanoseconds or counts, read from its text.

use crate::fixtures::fixture_files;
use crate::running::{report_of, shown};
use pp_base::{List, Memory, OpenGate, Text};
use std::alloc::Global;
use std::mem;
use std::test::Fail;
use std::thread::Threads;

// A node, without a caller, or an edge. An edge has no cum.
#[derive(Drop)]
pub(crate) struct FigureRow {
    pub(crate) caller: Text,
    pub(crate) name: Text,
    flat: i64,
    cum: i64,
}

// Each edge stands twice, as it is printed.
#[derive(Drop)]
pub(crate) struct Figures {
    pub(crate) total: i64,
    pub(crate) entries: List<FigureRow>,
}

// The figures of the tree report that these words ask for.
pub(crate) fn figures_of<R: Threads + Sync>(
    rt: &R,
    alloc: Global,
    words: &str,
) -> Result<Figures, Fail> {
    let report = report_of(rt, alloc, words, fixture_files(alloc)?, &OpenGate)?;
    Figures::read(alloc, shown(&report))
}

impl Figures {
    pub(crate) fn none(alloc: Global) -> Figures {
        Figures {
            total: 0,
            entries: List::new(alloc),
        }
    }

    // What the text of a tree report shows.
    pub(crate) fn read(alloc: Global, report: &str) -> Result<Figures, Fail> {
        let (_, after) = report.split_once("% of ").ok_or("no total")?;
        let (total, after) = after.split_once(" total\n").ok_or("no total")?;
        let (_, blocks) = after.split_once("| context\n").ok_or("no heading")?;
        let mut figures = Figures::none(alloc);
        figures.total = number(total);
        match figures.put_blocks(alloc, blocks) {
            Ok(()) => Ok(figures),
            Err(Memory) => {
                mem::drop(figures);
                Err(Memory.into())
            }
        }
    }

    fn put_blocks(&mut self, alloc: Global, blocks: &str) -> Result<(), Memory> {
        for block in blocks.split("-\n") {
            self.put_block(alloc, block)?;
        }
        Ok(())
    }

    // Adds a node, with its callers above it and its callees below.
    fn put_block(&mut self, alloc: Global, block: &str) -> Result<(), Memory> {
        let node = node_of(block);
        let mut is_below = false;
        for line in block.split('\n') {
            if let Some((numbers, name)) = line.split_once(" | ") {
                self.put(alloc, ends_of(name, node, is_below), numbers)?;
                is_below = is_below || !name.starts_with("  ");
            }
        }
        Ok(())
    }

    fn put(&mut self, alloc: Global, ends: (&str, &str), numbers: &str) -> Result<(), Memory> {
        let caller = Text::from_slice(alloc, ends.0.as_bytes())?;
        let name = Text::from_slice(alloc, ends.1.as_bytes())?;
        self.entries.push(FigureRow {
            caller,
            name,
            flat: number(word(numbers, 0)),
            cum: number(word(numbers, 3)),
        })
    }

    // Whether some flat or cum isn't 0.
    pub(crate) fn has_figures(&self) -> bool {
        let entries = self.entries.as_slice();
        entries
            .iter()
            .any(|entry| entry.flat != 0 || entry.cum != 0)
    }

    // Flat and cum of the entry, 0 where there is none.
    pub(crate) fn at(&self, caller: &[u8], name: &[u8]) -> (i64, i64) {
        for entry in self.entries.as_slice() {
            if entry.caller.as_slice() == caller && entry.name.as_slice() == name {
                return (entry.flat, entry.cum);
            }
        }
        (0, 0)
    }
}

// The caller and the callee on a line of the node, which has no caller where it is the node's own.
fn ends_of<'a>(name: &'a str, node: &'a str, is_below: bool) -> (&'a str, &'a str) {
    match name.strip_prefix("  ") {
        None => ("", name),
        Some(callee) if is_below => (node, callee),
        Some(caller) => (caller, node),
    }
}

// The name on the line that is no edge.
fn node_of(block: &str) -> &str {
    for line in block.split('\n') {
        if let Some((_, name)) = line.split_once(" | ") {
            if !name.starts_with("  ") {
                return name;
            }
        }
    }
    ""
}

// The word of this number, from 0, where spaces part the words.
fn word(line: &str, number: u32) -> &str {
    let mut left = number;
    for part in line.split(' ') {
        if !part.is_empty() {
            if left == 0 {
                return part;
            }
            left = left.wrapping_sub(1);
        }
    }
    ""
}

// A value that is printed in nanoseconds or without a unit.
fn number(value: &str) -> i64 {
    let digits = value.strip_suffix("ns").unwrap_or(value);
    digits.parse::<i64>().unwrap_or(0)
}
