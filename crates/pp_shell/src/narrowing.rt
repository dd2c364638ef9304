//! What the words after a command ask for together.
ghost use Rattle.std.specs.Prelude.{◌≡◌, [], map, IfOk, OnOk, IsTrue};
ghost use Rattle.pp_shell.specs.Arguments.{arguments, narrowing, together};
ghost use Rattle.pp_shell.specs.Answers.{AnswersLine};
ghost use Rattle.pp_shell.specs.Taking.{with_alternative, with_argument, next_argument, taken_after, TakesArgument, are_fair_rows, has_fair_rows};

use crate::argument::{Argument, argument_of};
use crate::fault::{LineFault, LineRefusal};
use pp_base::{Memory, Text};
use pp_options::is;
use std::alloc::Global;

/// What the words after a command ask for together.
#[derive(Debug, Drop)]
pub struct Narrowing {
    /// The number of rows, where one is given.
    pub rows: Option<u32>,
    /// Whether the order is by cum.
    pub by_cum: bool,
    /// The patterns for focus, joined by `|`; empty where there is none.
    pub focus: Text,
    /// The patterns for ignore, joined by `|`; empty where there is none.
    pub ignore: Text,
    /// The file that is written, where one is given.
    pub output: Option<Text>,
}

/// What the words ask for, or the fault of the first that is wrong. The last number of rows and the last file count.
pub fn narrowing_of(alloc: Global, words: &[&[u8]]) -> Result<Narrowing, LineRefusal>
    ensures narrowing { AnswersLine (together (arguments (map (λ w. w.now) words.now))) result }
    ensures fair { IfOk result (λ n. IsTrue (are_fair_rows n.rows)) }
{
    let mut narrowing = Narrowing::new(alloc);
    let mut taken = 0;
    while taken < words.len() {
        taken += 1 + narrowing.take_word(alloc, words[taken], &words[taken + 1..])?;
    }
    Ok(narrowing)
}

impl Narrowing {
    // Nothing is asked for yet.
    fn new(alloc: Global) -> Self
        ensures { result ≡ narrowing [] }
    {
        Narrowing {
            rows: None,
            by_cum: false,
            focus: Text::new(alloc),
            ignore: Text::new(alloc),
            output: None,
        }
    }

    // Takes the word, and the next one where it is the file of a `>`. Gives how many after the word
    // were taken.
    fn take_word(
        &mut self,
        alloc: Global,
        word: &[u8],
        after: &[&[u8]],
    ) -> Result<usize, LineRefusal>
        requires { IsTrue (are_fair_rows self.old.rows) }
        ensures taken { TakesArgument self.old self.new
            (next_argument word.now (map (λ w. w.now) after.now)) result }
        ensures count { IfOk result (λ n. n ≡ taken_after word.now (map (λ w. w.now) after.now)) }
        ensures fair { OnOk result (IsTrue (are_fair_rows self.new.rows)) }
    {
        if !is(word, b">") {
            let argument = argument_of(alloc, word)?;
            self.take(argument)?;
            return Ok(0);
        }
        let [path, ..] = after else {
            return Err(LineRefusal::Fault(LineFault::EmptyRedirect));
        };
        self.output = Some(Text::from_slice(alloc, path)?);
        Ok(1)
    }

    fn take(&mut self, argument: Argument) -> Result<(), Memory>
        requires argument { IsTrue (has_fair_rows argument) }
        requires rows { IsTrue (are_fair_rows self.old.rows) }
        ensures taken { OnOk result (self.new ≡ with_argument self.old argument) }
        ensures fair { OnOk result (IsTrue (are_fair_rows self.new.rows)) }
    {
        match argument {
            Argument::Rows(rows) => self.rows = Some(rows),
            Argument::Output(path) => self.output = Some(path),
            Argument::ByCum => self.by_cum = true,
            Argument::Ignore(pattern) => return add(pattern.as_slice(), &mut self.ignore),
            Argument::Focus(pattern) => return add(pattern.as_slice(), &mut self.focus),
        }
        Ok(())
    }
}

// Adds the pattern to the others; the empty one adds nothing.
fn add(pattern: &[u8], others: &mut Text) -> Result<(), Memory>
    ensures { OnOk result (others.new ≡ with_alternative others.old pattern.now) }
{
    if pattern.is_empty() {
        return Ok(());
    }
    if others.len() > 0 {
        others.extend(b"|")?;
    }
    others.extend(pattern)
}
