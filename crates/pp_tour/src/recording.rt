//! The samples of a server and their header, recorded call by call.
ghost use Rattle.std.specs.Prelude.{◌≡◌, length};
ghost use Rattle.pp_build.specs.Adding.{no_entries};

use anyhow::Result;
use pp_base::{Memory, Text};
use pp_build::{Builder, MappingId, SourceLine};
use pp_model::{Profile, Valid, text_of};
use std::alloc::Global;

/// Three samples of a server: of the parser at two addresses, and of the log.
pub fn recorded(alloc: Global) -> Result<Valid, Memory> {
    let mut b = Builder::new(alloc)?;
    match record(&mut b) {
        Ok(()) => Ok(b.finish()),
        Err(Memory) => {
            drop(b);
            Err(Memory)
        }
    }
}

fn record(b: &mut Builder) -> Result<(), Memory>
    requires { b.old ≡ no_entries }
{
    b.column(b"samples", b"count")?;
    b.column(b"cpu", b"nanoseconds")?;
    record_samples(b)?;
    record_header(b)
}

// The parser is one line at two addresses, in no mapping.
fn record_samples(b: &mut Builder) -> Result<(), Memory>
    requires { 2 ≡ length b.old.sample_type }
{
    let name = b.text(b"json.parse")?;
    let file = b.text(b"parse.go")?;
    let function = b.function(name, name, file, 5)?;
    let line = SourceLine {
        function,
        line: 7,
        column: 3,
    };
    let first = b.location(MappingId { number: 0 }, 0x10, &[line])?;
    let second = b.location(MappingId { number: 0 }, 0x14, &[line])?;
    let main = b.frame(b"main.main", b"main.go", 12)?;
    let serve = b.frame(b"server.serve", b"server.go", 40)?;
    let write = b.frame(b"log.write", b"log.go", 9)?;
    b.sample(&[first, serve, main], &[3, 30], &[])?;
    b.sample(&[second, serve, main], &[4, 40], &[])?;
    b.sample(&[write, serve, main], &[2, 20], &[])
}

// When and how the samples were taken, and what reports are told of them.
fn record_header(b: &mut Builder) -> Result<(), Memory> {
    let cpu = b.text(b"cpu")?;
    let nanoseconds = b.text(b"nanoseconds")?;
    let exit = b.text(b"runtime.goexit")?;
    let start = b.text(b"runtime.main")?;
    let samples = b.text(b"samples")?;
    let page = b.text(b"https://example.com/server")?;
    b.set_times(1_700_000_000_000_000_000, 2_000_000_000);
    b.set_period(cpu, nanoseconds, 10);
    b.set_frames(exit, start);
    b.set_names(samples, page);
    Ok(())
}

/// Appends what the header says: its numbers, and then its texts.
pub fn put_header(alloc: Global, p: &Profile, out: &mut Text) -> Result<()> {
    let (time, duration, period) = (p.time_nanos, p.duration_nanos, p.period);
    let line = format!(in alloc; "taken at {time} for {duration}, period {period}")?;
    out.extend(line.as_bytes())?;
    for index in [
        p.period_type.kind,
        p.drop_frames,
        p.keep_frames,
        p.default_sample_type,
        p.doc_url,
    ] {
        out.extend(b"\n  ")?;
        out.extend(text_of(p, index))?;
    }
    Ok(())
}
