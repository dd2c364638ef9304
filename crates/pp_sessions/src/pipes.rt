//! Streams of bytes in memory, for the adapters over a reader and a writer.

use crate::objects::{TrialSink, TrialSource};
use pp_base::{Sink, SinkWrite, Source, SourceRead};
use pp_real::{SteadyRead, SteadyWrite};
use std::io::{self, ErrorKind, Read, Write};

/// A reader of a source.
#[derive(Drop)]
pub struct PipeReader<'a> {
    pub source: &'a mut TrialSource,
}

impl Read for PipeReader<'_> {
    fn read(&mut self, buf: &mut [u8]) -> io::Result<usize> {
        if buf.is_empty() {
            return Ok(0);
        }
        match self.source.read(buf) {
            SourceRead::Got(count) => Ok(count),
            SourceRead::End => Ok(0),
            SourceRead::Failed => Err(ErrorKind::Other.into()),
        }
    }
}

impl SteadyRead for PipeReader<'_> {
    ghost use Rattle.std.specs.Prelude.{refl};

    ghost steady_read = { λ a b. refl };
}

/// A writer to a sink. Where the sink fails, the writer takes nothing, or the reader at its other end is gone.
#[derive(Drop)]
pub struct PipeWriter<'a> {
    pub sink: &'a mut TrialSink,
}

impl Write for PipeWriter<'_> {
    fn write(&mut self, bytes: &[u8]) -> io::Result<usize> {
        if bytes.is_empty() {
            return Ok(0);
        }
        match self.sink.write(bytes) {
            SinkWrite::Took(count) => Ok(count),
            SinkWrite::Failed if self.sink.calls.number % 2 == 0 => Ok(0),
            SinkWrite::Failed => Err(ErrorKind::BrokenPipe.into()),
            SinkWrite::Memory => Err(ErrorKind::OutOfMemory.into()),
        }
    }

    fn flush(&mut self) -> io::Result<()> {
        Ok(())
    }
}

impl SteadyWrite for PipeWriter<'_> {
    ghost use Rattle.std.specs.Prelude.{refl};

    ghost steady_write = { λ a b. refl };
}
