//! The objects of the outside, lent to one run.
ghost use Rattle.std.specs.Prelude.{◌≡◌, None, IfOk, IfErr, option_map};
ghost use Rattle.pp_desk.specs.Reader.{to_come, lines_from, unread_by, room_of};
ghost use Rattle.pp_desk.specs.Taking.{line_or_stop};

use crate::desk::Desk;
use crate::file_content::FileContent;
use crate::input_line::InputLine;
use crate::line_reader::{LineRead, LineReader};
use crate::stop::Stop;
use crate::window::WINDOW_LIMIT;
use pp_base::{
    FileRead, FileWrite, Files, Judgement, List, Matcher, Sink, Source, Text, WriteFault, write_all,
};
use std::alloc::Global;

/// Files, standard input, standard output, standard error and a matcher, each lent, and the place of the reader from
/// which the input's lines come. The reader is made where the first line is asked for.
#[derive(Drop)]
pub struct Objects<'f, 'i, 'o, 'e, 'm, 'r, F: Files, I: Source, O: Sink, E: Sink, M: Matcher> {
    /// The allocator of what is read.
    pub alloc: Global,
    /// The files.
    pub files: &'f mut F,
    /// Standard input.
    pub input: &'i mut I,
    /// Standard output.
    pub out: &'o mut O,
    /// Standard error.
    pub err: &'e mut E,
    /// The matcher.
    pub matcher: &'m mut M,
    /// The reader of the input's lines, once a line was asked for, and `None` before.
    pub reader: &'r mut Option<LineReader>,
}

impl<F: Files, I: Source, O: Sink, E: Sink, M: Matcher> Desk
    for Objects<'_, '_, '_, '_, '_, '_, F, I, O, E, M> {
    ghost finds = { M.finds };

    ghost world = { λ d. record {
      told = record {
        out = O.written d.out.now;
        err = E.written d.err.now;
        files = F.content d.files.now;
        locked = F.locked d.files.now;
        reads = F.reads d.files.now;
        lines = option_map (lines_from d.reader.now) (I.left d.input.now);
        unread = unread_by d.reader.now (I.left d.input.now);
        answers = M.answers d.matcher.now;
      };
      faults = record {
        file = F.faults d.files.now;
        input = I.faults d.input.now;
        out = O.faults d.out.now;
        err = E.faults d.err.now;
      };
      names = record {
        files = d.files.ghost_name;
        input = d.input.ghost_name;
        out = d.out.ghost_name;
        err = d.err.ghost_name;
        matcher = d.matcher.ghost_name;
      };
      intake = record { left = I.left d.input.now; room = room_of d.reader.now };
    } };

    fn write_out(&mut self, bytes: &[u8]) -> Result<(), Stop> {
        match write_all(self.out, bytes) {
            Ok(()) => Ok(()),
            Err(WriteFault::Failed(_)) => Err(Stop::Out),
            Err(WriteFault::Memory(_)) => Err(Stop::Memory),
        }
    }

    fn write_err(&mut self, bytes: &[u8]) -> Result<(), Stop> {
        match write_all(self.err, bytes) {
            Ok(()) => Ok(()),
            Err(WriteFault::Failed(_)) => Err(Stop::Err),
            Err(WriteFault::Memory(_)) => Err(Stop::Memory),
        }
    }

    fn read_file(&mut self, path: &Text, limit: u64) -> Result<FileContent, Stop> {
        let mut content = Text::new(self.alloc);
        match self.files.read(path, &mut content, limit) {
            FileRead::Read => Ok(FileContent::Whole(content)),
            FileRead::Missing => Ok(FileContent::Missing),
            FileRead::TooLong => Ok(FileContent::TooLong),
            FileRead::Failed => Err(Stop::File),
            FileRead::Memory => Err(Stop::Memory),
        }
    }

    fn write_file(&mut self, path: &Text, bytes: &[u8]) -> Result<bool, Stop> {
        match self.files.write(path, bytes) {
            FileWrite::Written => Ok(true),
            FileWrite::Locked => Ok(false),
            FileWrite::Failed => Err(Stop::File),
            FileWrite::Memory => Err(Stop::Memory),
        }
    }

    fn ask(&mut self, pattern: &Text, subjects: &List<Text>) -> Result<Option<List<bool>>, Stop> {
        match self.matcher.judge(pattern, subjects) {
            Judgement::Found(verdicts) => Ok(Some(verdicts)),
            Judgement::Refused => Ok(None),
            Judgement::Memory => Err(Stop::Memory),
        }
    }

    fn next_line(&mut self) -> Result<InputLine, Stop> {
        let mut reader = begun(self.alloc, self.reader.take())?;
        let answer = reader.next_line(self.input);
        prove!(reader.held_len() <= WINDOW_LIMIT);
        *self.reader = Some(reader);
        line_of(answer)
    }
}

// The reader, or a new one where none has begun.
fn begun(alloc: Global, reader: Option<LineReader>) -> Result<LineReader, Stop>
    ensures ok { IfOk result (λ begun. (left : _) → to_come begun left ≡ lines_from reader left) }
    ensures room { IfOk result (λ begun. begun.room ≡ room_of reader) }
    ensures err { IfErr result (λ stop. (stop ≡ Stop.Memory) × (reader ≡ None)) }
{
    match reader {
        Some(reader) => Ok(reader),
        None => Ok(LineReader::new(alloc)?),
    }
}

// The line of an answer, or what stopped the reader.
fn line_of(answer: LineRead) -> Result<InputLine, Stop>
    ensures { result ≡ line_or_stop answer }
{
    match answer {
        LineRead::Line(line) => Ok(InputLine::Line(line)),
        LineRead::TooLong => Ok(InputLine::TooLong),
        LineRead::End => Ok(InputLine::End),
        LineRead::InputTooLong => Ok(InputLine::InputTooLong),
        LineRead::Failed => Err(Stop::Input),
        LineRead::Memory => Err(Stop::Memory),
    }
}
