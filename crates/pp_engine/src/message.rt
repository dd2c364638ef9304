// The lines that the session itself tells on standard error.
ghost use Rattle.std.specs.Prelude.{◌≡◌, ◌++◌, IfOk};
ghost use Rattle.pp_engine.specs.Endings.{stop_line};
ghost use Rattle.pp_engine.specs.Messages.{usage_text, usage_line, line_fault_line, locked_line, input_too_long_line};

use itoa::Buffer;
use pp_base::{Memory, Text};
use pp_desk::Stop;
use pp_options::{UsageFault, UsageKind};
use pp_shell::LineFault;
use std::alloc::Global;

/// The line on the first word that is wrong.
#[tactic(auto, unfolding(crate::specs::Messages::usage_line))]
pub fn usage_line(alloc: Global, fault: UsageFault) -> Result<Text, Memory>
    ensures { IfOk result (λ line. line ≡ usage_line fault) }
{
    let mut digits = Buffer::new();
    let mut line = Text::new(alloc);
    line.extend(b"pprof: word ")?;
    line.extend(digits.format(fault.word).as_bytes())?;
    line.extend(b": ")?;
    line.extend(kind_text(fault.kind))?;
    Ok(line)
}

#[tactic(auto, unfolding(crate::specs::Messages::usage_text))]
fn kind_text(kind: UsageKind) -> &'static [u8]
    ensures { result.now ≡ usage_text kind }
{
    match kind {
        UsageKind::UnknownOption => b"unknown option\n",
        UsageKind::BadValue => b"bad value\n",
        UsageKind::MissingValue => b"missing value\n",
        UsageKind::TwoFormats => b"two formats\n",
        UsageKind::NoSource => b"no source\n",
        UsageKind::TooMany => b"too many sources\n",
        UsageKind::BaseTwice => b"both -base and -diff_base\n",
        UsageKind::NormalizeAlone => b"-normalize without a base\n",
    }
}

/// The line on a line of the shell.
#[tactic(auto, unfolding(crate::specs::Messages::line_fault_line))]
pub fn line_fault_line(alloc: Global, fault: &LineFault) -> Result<Text, Memory>
    ensures { IfOk result (λ line. line ≡ line_fault_line fault.now) }
{
    match fault {
        LineFault::UnknownCommand(word) => framed(alloc, b"pprof: unknown command: ", word, b"\n"),
        LineFault::BadAssignment(name) => framed(alloc, b"pprof: bad assignment: ", name, b"\n"),
        LineFault::MissingArgument(name) => framed(
            alloc,
            b"pprof: ",
            name,
            b" needs an argument\n",
        ),
        LineFault::EmptyRedirect => Text::from_slice(alloc, b"pprof: no file after >\n"),
        LineFault::PipeNotServed => Text::from_slice(alloc, b"pprof: pipes are not served\n"),
        LineFault::LineTooLong => Text::from_slice(alloc, b"pprof: line too long\n"),
    }
}

// The text between two others.
fn framed(alloc: Global, front: &[u8], text: &Text, back: &[u8]) -> Result<Text, Memory>
    ensures { IfOk result (λ line. line ≡ (front.now ++ text.now) ++ back.now) }
{
    let mut line = Text::new(alloc);
    line.extend(front)?;
    line.extend(text.as_slice())?;
    line.extend(back)?;
    Ok(line)
}

/// The line on a path that can't be written.
#[tactic(auto, unfolding(crate::specs::Messages::locked_line))]
pub fn locked_line(alloc: Global, path: &Text) -> Result<Text, Memory>
    ensures { IfOk result (λ line. line ≡ locked_line path.now) }
{
    framed(alloc, b"pprof: ", path, b": cannot be written\n")
}

/// The line on an input that is too long.
#[tactic(auto, unfolding(crate::specs::Messages::input_too_long_line))]
pub fn input_too_long_line() -> &'static [u8]
    ensures { result.now ≡ input_too_long_line }
{
    b"pprof: standard input is longer than 16777216 bytes\n"
}

/// The line on want of memory.
pub fn memory_line() -> &'static [u8]
    ensures { result.now ≡ stop_line Stop.Memory }
{
    b"pprof: out of memory\n"
}
