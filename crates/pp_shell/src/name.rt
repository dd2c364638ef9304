//! The names of commands.
ghost use Rattle.std.specs.Prelude.{◌≡◌, ◌≤◌, length, map, IfOk};
ghost use Rattle.std.specs.Char.{is_ascii_digit};
ghost use Rattle.pp_options.specs.Ends.{without_end};
ghost use Rattle.pp_options.specs.PlainNames.{names_in};
ghost use Rattle.pp_shell.specs.Commands.{plain_named, plain_names, without_digits, report_digits, with_digits};

use pp_base::Memory;
use pp_options::{Named, value_named};
use std::alloc::Global;

/// A command that takes no words.
#[derive(Clone, Copy, Debug, PartialEq, Eq)]
pub enum Plain {
    Quit,
    Options,
    Help,
}

/// The commands that take no words, by name.
pub static PLAINS: [Named<Plain>; 6] = [
    (b"q", Plain::Quit),
    (b"quit", Plain::Quit),
    (b"exit", Plain::Quit),
    (b"o", Plain::Options),
    (b"options", Plain::Options),
    (b"help", Plain::Help),
];

/// What each name of such a command stands for, in plain texts.
pub fn names_of_commands()
    ensures { names_in PLAINS ≡ plain_names }
{}

/// The command of the name, where it takes no words.
#[tactic(auto, unfolding(crate::specs::Commands::plain_named))]
pub fn plain_named(name: &[u8]) -> Option<Plain>
    ensures { result ≡ plain_named name.now }
{
    value_named(&PLAINS, name)
}

/// The word without the decimal digits at its end.
pub fn report_name(word: &[u8]) -> &[u8]
    ensures name { result.now ≡ without_digits word.now }
    ensures within { length result.now ≤ length word.now }
{
    let mut name = word;
    while let Some((last, before)) = name.split_last() {
        if !last.is_ascii_digit() {
            return name;
        }
        name = before;
    }
    name
}

/// The words, after the digits where there are any.
pub fn with_digits<'a>(
    alloc: Global,
    digits: &'a [u8],
    words: &[&'a [u8]],
) -> Result<Vec<&'a [u8]>, Memory>
    ensures { IfOk result (λ all. map (λ word. word.now) all.items
        ≡ with_digits digits.now (map (λ word. word.now) words.now)) }
{
    let mut all = Vec::new(alloc);
    if !digits.is_empty() {
        all.push(digits)?;
    }
    all.extend_from_slice(words)?;
    Ok(all)
}
