//! The words after a command.
ghost use Rattle.std.specs.Prelude.{◌≡◌, IfOk, IsTrue};
ghost use Rattle.pp_shell.specs.Arguments.{argument_of};
ghost use Rattle.pp_shell.specs.Answers.{AnswersLine};
ghost use Rattle.pp_shell.specs.Taking.{has_fair_rows};

use crate::fault::{LineFault, LineRefusal};
use pp_base::Text;
use pp_options::{is, whole_number};
use std::alloc::Global;

/// What a word after a command asks for.
#[derive(Debug, Drop)]
pub enum Argument {
    /// The largest number of rows: from 0 to 2^31-1.
    Rows(u32),
    /// The report in this file.
    Output(Text),
    /// The order by cum.
    ByCum,
    /// The pattern is added to ignore; the empty one adds nothing.
    Ignore(Text),
    /// The pattern is added to focus.
    Focus(Text),
}

/// What the word asks for, where it isn't `>` alone. `Err` where it begins with `|`, or there is no memory.
#[tactic(auto, unfolding(crate::specs::Arguments::argument_of))]
pub fn argument_of(alloc: Global, word: &[u8]) -> Result<Argument, LineRefusal>
    ensures argument { AnswersLine (argument_of word.now) result }
    ensures fair { IfOk result (λ argument. IsTrue (has_fair_rows argument)) }
{
    if let Some(rows) = whole_number(word, 0, i32::MAX as u64) {
        return Ok(Argument::Rows(rows as u32));
    }
    match word {
        [b'|', ..] => Err(LineRefusal::Fault(LineFault::PipeNotServed)),
        [b'>', path @ ..] => Ok(Argument::Output(Text::from_slice(alloc, path)?)),
        _ if is(word, b"-cum") || is(word, b"--cum") => Ok(Argument::ByCum),
        [b'-', pattern @ ..] => Ok(Argument::Ignore(Text::from_slice(alloc, pattern)?)),
        _ => Ok(Argument::Focus(Text::from_slice(alloc, word)?)),
    }
}
