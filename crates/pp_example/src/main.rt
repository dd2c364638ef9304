//! Allocations of a made-up server: recorded, written to files, read back, merged, and shown in two ways.
#![tactic(auto)]

ghost use Rattle.std.specs.Prelude.{◌≡◌, ℕ, Option, IfOk};
ghost use Rattle.pp_model.specs.declared.verdicts.Verdicts.{Verdicts};
ghost use Rattle.pp_count.specs.Counted.{IsCountedOf};
ghost use Rattle.pp_model.specs.Defaults.{defaults};
ghost use Rattle.pp_model.specs.Sizes.{HasAtMost, IsCountable};
ghost use Rattle.pp_build.specs.Adding.{no_entries};
ghost use Rattle.pp_graph.specs.KeyRows.{CanShow};

use anyhow::{Result, ensure};
use pp_base::{List, Memory, OpenGate, Text};
use pp_keys::HashKeys;
use pp_model::{Config, Loaded, Valid};
use std::alloc::Global;
use std::io::Write;

fn main(rt: HostRuntime) -> Result<()> {
    let both = both_hours(&rt)?;
    let text = report(&rt, rt.alloc(), &both);
    drop(both);
    Ok(rt.stdout().write_all(text?.as_slice())?)
}

// Two hours as one profile.
fn both_hours(rt: &HostRuntime) -> Result<Loaded> {
    let mut hours = List::new(rt.alloc());
    hours.push(hour(rt, "hour-1.pb", 300)?)?;
    hours.push(hour(rt, "hour-2.pb", 500)?)?;
    let both = pp_edit::without_patterns(pp_merge::merge(rt.alloc(), HashKeys::random(rt), hours)?);
    Ok(both)
}

// An hour of `requests` requests, written to the file and read back.
fn hour(rt: &HostRuntime, path: &str, requests: u32) -> Result<Valid>
    ensures { IfOk result (HasAtMost 16777216) }
{
    let hour = recorded(rt.alloc(), requests)?;
    let written = pp_tables::write_profile(rt.alloc(), &hour);
    drop(hour);
    std::fs::write(rt, path, written?.as_slice())?;
    read(rt, path)
}

fn read(rt: &HostRuntime, path: &str) -> Result<Valid>
    ensures { IfOk result (HasAtMost 16777216) }
{
    let bytes = std::fs::read(rt, path)?;
    ensure!(bytes.len() <= 16_777_216, "{path} has more than 16 MiB");
    let profile = pp_tables::read_profile(rt.alloc(), &bytes)?;
    Ok(pp_check::check(rt.alloc(), profile)?)
}

fn recorded(alloc: Global, requests: u32) -> Result<Valid, Memory> {
    let mut b = pp_build::Builder::new(alloc)?;
    match record(&mut b, requests) {
        Ok(()) => Ok(b.finish()),
        Err(Memory) => {
            drop(b);
            Err(Memory)
        }
    }
}

fn record(b: &mut pp_build::Builder, requests: u32) -> Result<(), Memory>
    requires { b.old ≡ no_entries }
{
    b.column(b"alloc_space", b"bytes")?;
    let main = b.frame(b"main.main", b"main.go", 12)?;
    let serve = b.frame(b"server.serve", b"server.go", 40)?;
    let parse = b.frame(b"json.parse", b"parse.go", 7)?;
    b.sample(&[serve, main], &[i64::from(requests) * 1024], &[])?;
    b.sample(&[parse, serve, main], &[i64::from(requests) * 4096], &[])
}

fn report<R: std::thread::Threads + Sync>(rt: &R, alloc: Global, l: &Loaded) -> Result<Text> {
    ensure!(pp_edit::is_countable(l.profile.get()), "too large");
    let config = Config::standard(alloc)?;
    let text = report_under(rt, alloc, l, &config);
    drop(config);
    text
}

fn report_under<R: std::thread::Threads + Sync>(
    rt: &R,
    alloc: Global,
    l: &Loaded,
    config: &Config,
) -> Result<Text>
    requires countable { IsCountable l.now.profile }
    requires standard { config.now ≡ defaults }
{
    let column = pp_count::column_of(l, &config.presentation)?;
    let verdicts = pp_edit::no_verdicts(alloc);
    let counted = pp_count::count(
        rt,
        alloc,
        HashKeys::fixed(),
        l,
        &verdicts,
        config,
        column,
        &OpenGate,
    );
    drop(verdicts);
    let counted = counted?;
    let text = show_ranked(alloc, l, config, &counted);
    drop(counted);
    text
}

fn show_ranked(
    alloc: Global,
    l: &Loaded,
    config: &Config,
    counted: &pp_count::Counted,
) -> Result<Text>
    requires { (v : Verdicts) × (column : Option ℕ)
        × IsCountedOf l.now v config.now column counted.now }
{
    let ranked = pp_graph::rank(alloc, l, counted, config, 0)?;
    show(alloc, l, counted, &ranked)
}

// A line for each function, and the report.
fn show(alloc: Global, l: &Loaded, c: &pp_count::Counted, r: &pp_graph::Ranked) -> Result<Text>
    requires { CanShow l.now.profile c.now.sums r.now.order }
{
    let mut text = Text::from_slice(alloc, b"own bytes  with callees  function")?;
    put_lines(alloc, l, c, r, &mut text)?;
    put_report(alloc, l, c, r, &mut text)?;
    Ok(text)
}

// Their sums and their names.
fn put_lines(
    alloc: Global,
    l: &Loaded,
    c: &pp_count::Counted,
    r: &pp_graph::Ranked,
    text: &mut Text,
) -> Result<()>
    requires { CanShow l.now.profile c.now.sums r.now.order }
{
    for number in r.order.as_slice() {
        let own = c.sums.flat.as_slice()[*number as usize];
        let cum = c.sums.cum.as_slice()[*number as usize];
        text.extend(format!(in alloc; "\n{own:>9}")?.as_bytes())?;
        text.extend(format!(in alloc; "  {cum:>12}  ")?.as_bytes())?;
        pp_grain::write_name(l, &c.sums.names.key(*number), text)?;
    }
    Ok(())
}

// The report as the command prints it.
fn put_report(
    alloc: Global,
    l: &Loaded,
    c: &pp_count::Counted,
    r: &pp_graph::Ranked,
    text: &mut Text,
) -> Result<()>
    requires { CanShow l.now.profile c.now.sums r.now.order }
{
    text.extend(b"\n\n")?;
    let head = pp_units::Head {
        file: Text::from_slice(alloc, b"server")?,
        kind: Text::from_slice(alloc, b"alloc_space")?,
        duration: 0,
        total: c.total,
        unit: pp_units::pick_unit(alloc, c.total, b"bytes")?,
    };
    Ok(pp_top::write_top(alloc, l, c, r, &head, text)?)
}
