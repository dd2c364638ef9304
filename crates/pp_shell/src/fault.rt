//! What is wrong with a line.
ghost use Rattle.std.specs.Prelude.{◌≡◌};
ghost use Rattle.pp_shell.specs.declared.fault.LineRefusal.TheVariants as refusals;

use pp_base::{Memory as WantOfMemory, Text};
use thiserror::Error;

/// What is wrong with a line.
#[derive(Debug, Drop, Error)]
pub enum LineFault {
    /// The first word, which is no command.
    #[error("unknown command")]
    UnknownCommand(Text),
    /// The name of a variable that can't have the value, or stands without one.
    #[error("bad assignment")]
    BadAssignment(Text),
    /// The name of a command that needs a pattern.
    #[error("missing argument")]
    MissingArgument(Text),
    /// No file follows `>`.
    #[error("no file after >")]
    EmptyRedirect,
    /// A word begins with `|`.
    #[error("pipes are not served")]
    PipeNotServed,
    /// The line is longer than a line can be. Reading a line that is there never finds this.
    #[error("line too long")]
    LineTooLong,
}

/// Why a line asks for nothing that can be done.
#[derive(Debug, Drop, Error)]
pub enum LineRefusal {
    /// The line is wrong.
    #[error("{0}")]
    Fault(LineFault),
    /// Want of memory.
    #[error("out of memory")]
    Memory,
}

impl From<WantOfMemory> for LineRefusal {
    ghost from_gives = { λ _ e. e ≡ refusals.Memory };

    fn from(_: WantOfMemory) -> Self {
        LineRefusal::Memory
    }
}
