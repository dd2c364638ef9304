//! The allocations of two days: what each column shows first, what grew, and what the parser takes on each day.
#![tactic(auto)]

use anyhow::Result;
use pp_base::{List, Text};
use pp_edit::set_label;
use pp_library::{Countable, Figure, FigureTable, figures, load, merge, report};
use pp_model::{Config, Report};
use pp_regex::RegexMatcher;
use std::alloc::Global;
use std::fs;
use std::io::Write;
use std::random::RandomSource;
use std::thread::Threads;

fn main(rt: HostRuntime) -> Result<()> {
    let alloc = rt.alloc();
    let mut matcher = RegexMatcher::new(alloc);
    let old = Text::from_vec(fs::read(&rt, "monday.pb")?);
    let new = Text::from_vec(fs::read(&rt, "tuesday.pb")?);
    let (text, saved) = days(&rt, alloc, old, new, &mut matcher)?;
    fs::write(&rt, "parser.pb", saved.as_slice())?;
    Ok(rt.stdout().write_all(text.as_slice())?)
}

// What is printed of the files of two days, and the profile that is saved.
fn days<R: Threads + Sync + RandomSource>(
    rt: &R,
    alloc: Global,
    old: Text,
    new: Text,
    matcher: &mut RegexMatcher,
) -> Result<(Text, Text)> {
    let old = load(rt, alloc, old, matcher)?;
    let new = load(rt, alloc, new, matcher)?;
    let mut out = Text::new(alloc);
    let mut config = Config::standard(alloc)?;
    for column in 0..new.profile().sample_type.len() {
        let column = format!(in alloc; "{column}")?;
        config.presentation.sample_index = Text::from_slice(alloc, column.as_bytes())?;
        let before = figures(rt, alloc, &old, &config, matcher)?;
        let after = figures(rt, alloc, &new, &config, matcher)?;
        put_column(alloc, &before, &after, &mut out)?;
    }

    // Both days as one profile, whose samples carry their days.
    let mut both = List::new(alloc);
    both.push(set_label(alloc, old.into_valid(), b"day", b"monday")?)?;
    both.push(set_label(alloc, new.into_valid(), b"day", b"tuesday")?)?;
    let both = merge(rt, alloc, both, matcher)?;

    // What goes through the parser is saved, and shown by days.
    config.filtering.focus = Text::from_slice(alloc, b"^json[.]")?;
    let saved = report(rt, alloc, &both, &Report::Proto, &config, matcher)?;
    config.presentation.tagroot = Text::from_slice(alloc, b"day")?;
    let top = report(rt, alloc, &both, &Report::Top, &config, matcher)?;
    out.append(top)?;
    Ok((out, saved))
}

// The first three functions of the new day, and those whose cum grew by more than a tenth.
fn put_column(alloc: Global, old: &FigureTable, new: &FigureTable, out: &mut Text) -> Result<()> {
    put_line(new.kind.as_slice(), out)?;
    for row in new.rows.as_slice().iter().take(3) {
        put_row(alloc, row, out)?;
    }
    put_line(b"grew:", out)?;
    for row in new.rows.as_slice() {
        let cum = cum_of(old, row.name.as_slice());
        if row.cum.saturating_sub(cum) > cum / 10 {
            put_row(alloc, row, out)?;
        }
    }
    Ok(())
}

fn cum_of(figures: &FigureTable, name: &[u8]) -> i64 {
    let mut rows = figures.rows.as_slice().iter();
    match rows.find(|row| row.name.as_slice() == name) {
        Some(row) => row.cum,
        None => 0,
    }
}

fn put_row(alloc: Global, row: &Figure, out: &mut Text) -> Result<()> {
    out.extend(format!(in alloc; "{:>10} {:>10}  ", row.flat, row.cum)?.as_bytes())?;
    put_line(row.name.as_slice(), out)
}

fn put_line(line: &[u8], out: &mut Text) -> Result<()> {
    out.extend(line)?;
    Ok(out.extend(b"\n")?)
}
