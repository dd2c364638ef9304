//! The report top, by the one call that makes any report that reads no source file.
use anyhow::{Result, ensure};
use pp_base::{List, Literal, Text};
use pp_library::{Countable, reads_sources};
use pp_model::{Config, Report};
use std::alloc::Global;
use std::thread::Threads;

/// Appends the report top without the frames of the server.
pub fn put_top<R: Threads + Sync>(
    rt: &R,
    alloc: Global,
    l: &Countable,
    out: &mut Text,
) -> Result<()> {
    let mut config = Config::standard(alloc)?;
    config.filtering.hide = Text::from_slice(alloc, b"server.serve")?;
    let text = text_of(rt, alloc, l, &Report::Top, &config);
    drop(config);
    Ok(out.extend(text?.as_slice())?)
}

// The text of a report, whose patterns are plain texts.
fn text_of<R: Threads + Sync>(
    rt: &R,
    alloc: Global,
    l: &Countable,
    report: &Report,
    config: &Config,
) -> Result<Text> {
    ensure!(!reads_sources(report), "source files take a desk");
    let mut matcher = Literal::new(alloc, List::new(alloc));
    let text = pp_library::report(rt, alloc, l, report, config, &mut matcher);
    drop(matcher);
    Ok(text?)
}
