//! A made-up server's samples: recorded with a header, labelled, made coarser, checked, counted, listed and reported. Each
//! step writes what it came to. Most calls here are those that no other program of the repository makes.
#![tactic(auto)]

mod checking;
mod counting;
mod edges;
mod labels;
mod listing;
mod recording;
mod reporting;
mod stack;
mod tree;

use anyhow::{Result, ensure};
use pp_base::Text;
use pp_keys::HashKeys;
use pp_library::Countable;
use pp_model::Compact;
use std::alloc::Global;
use std::io::Write;
use std::thread::Threads;

fn main(rt: HostRuntime) -> Result<()> {
    let text = tour(&rt, rt.alloc());
    Ok(rt.stdout().write_all(text?.as_slice())?)
}

fn tour<R: Threads + Sync>(rt: &R, alloc: Global) -> Result<Text> {
    let server = recorded(alloc)?;
    let mut out = Text::new(alloc);
    put_tables(alloc, &server, &mut out)?;
    put_reports(rt, alloc, &server, &mut out)?;
    Ok(out)
}

// The server's profile, with ids that are places plus 1.
fn recorded(alloc: Global) -> Result<Compact> {
    let server = recording::recorded(alloc)?;
    ensure!(pp_edit::is_countable(server.get()), "too large");
    Ok(pp_merge::merge_alone(alloc, HashKeys::fixed(), server)?)
}

// What stands in the tables, and what changes there.
fn put_tables(alloc: Global, server: &Compact, out: &mut Text) -> Result<()> {
    recording::put_header(alloc, server.get(), out)?;
    labels::put_labels(alloc, server, out)?;
    checking::put_sizes(alloc, server, out)?;
    checking::put_difference(alloc, server, out)?;
    checking::put_faults(alloc, server, out)
}

// What is read of the samples, each of which has a label.
fn put_reports<R: Threads + Sync>(
    rt: &R,
    alloc: Global,
    server: &Compact,
    out: &mut Text,
) -> Result<()> {
    let loaded = pp_edit::without_patterns(labels::with_block(alloc, server)?);
    ensure!(pp_edit::is_countable(loaded.profile.get()), "too large");
    let l = Countable { loaded, base: None };
    let put = put_each(rt, alloc, &l, out);
    drop(l);
    put
}

fn put_each<R: Threads + Sync>(rt: &R, alloc: Global, l: &Countable, out: &mut Text) -> Result<()> {
    stack::put_first(alloc, &l.loaded, out)?;
    counting::put_counted(rt, alloc, &l.loaded, out)?;
    reporting::put_top(rt, alloc, l, out)
}
