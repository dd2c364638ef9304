//! The lines of the shell.
ghost use Rattle.std.specs.Prelude.{◌≡◌, Ok, Err, map, option_map, IfSome, IsTrue};
ghost use Rattle.pp_options.specs.Settings.{setting_of, is_fitting, assigned};
ghost use Rattle.pp_shell.specs.declared.command.Command.TheVariants as commands;
ghost use Rattle.pp_shell.specs.declared.fault.LineFault.TheVariants as faults;
ghost use Rattle.pp_shell.specs.Commands.{command, report_command, report};
ghost use Rattle.pp_shell.specs.Lines.{line_command, assigned_variable, assigned_name, assigned_value, assigns, setting_alone};
ghost use Rattle.pp_shell.specs.Answers.{AnswersLine};

use crate::blank::{trimmed, words_in};
use crate::name::{Plain, plain_named, report_name, with_digits};
use crate::run::run;
use crate::{Command, LineFault, LineRefusal};
use pp_base::Text;
use pp_model::Config;
use pp_options::{
    Format, Setting, Variable, choice_named, format_named, setting_of, variable_named,
};
use pp_units::cut_at;
use std::alloc::Global;

/// What the line asks for, without its end, or what is wrong with it.
///
/// The configuration is the one that stands; it is copied and not changed.
#[tactic(auto, unfolding(crate::specs::Lines::line_command))]
pub fn read_line(alloc: Global, line: &[u8], config: &Config) -> Result<Command, LineRefusal>
    ensures { AnswersLine (line_command line.now config.now) result }
{
    let line = trimmed(line);
    if line.is_empty() {
        return Ok(Command::Nothing);
    }
    if let Some((variable, name, value)) = assignment_in(line) {
        return assign(alloc, variable, name, value, config);
    }
    if let Some(variable) = variable_named(line) {
        return assign_alone(alloc, variable, line, config);
    }
    if let Some(choice) = choice_named(line) {
        return changed(alloc, choice.setting(), config);
    }
    let words = words_in(alloc, line)?;
    command(alloc, words.as_slice(), config)
}

// The variable before the first `=` with its name, and the text after it.
fn assignment_in(line: &[u8]) -> Option<(Variable, &[u8], &[u8])>
    ensures variable { option_map (λ a. a.0) result ≡ assigned_variable line.now }
    ensures name { IfSome result (λ a. a.1.now ≡ assigned_name line.now) }
    ensures value { IfSome result (λ a. a.2.now ≡ assigned_value line.now) }
{
    let (before, after) = cut_at(line, b'=')?;
    let name = trimmed(before);
    let variable = variable_named(name)?;
    Some((variable, name, trimmed(after)))
}

fn assign(
    alloc: Global,
    variable: Variable,
    name: &[u8],
    value: &[u8],
    config: &Config,
) -> Result<Command, LineRefusal>
    ensures { AnswersLine (assigns name.now config.now (setting_of variable value.now)) result }
{
    let Some(setting) = setting_of(alloc, variable, value)? else {
        return bad_assignment(alloc, name);
    };
    changed(alloc, setting, config)
}

// A flag's name alone turns the flag on.
fn assign_alone(
    alloc: Global,
    variable: Variable,
    name: &[u8],
    config: &Config,
) -> Result<Command, LineRefusal>
    ensures { AnswersLine (assigns name.now config.now (setting_alone variable)) result }
{
    match variable {
        Variable::Flag(which) => changed(alloc, Setting::Flag(which, true), config),
        _ => bad_assignment(alloc, name),
    }
}

fn changed(alloc: Global, setting: Setting, config: &Config) -> Result<Command, LineRefusal>
    requires { IsTrue (is_fitting setting) }
    ensures { AnswersLine (Ok (commands.Set (assigned config.now setting))) result }
{
    let mut config = config.copy(alloc)?;
    setting.assign(&mut config);
    Ok(Command::Set(config))
}

fn bad_assignment(alloc: Global, name: &[u8]) -> Result<Command, LineRefusal>
    ensures { AnswersLine (Err (faults.BadAssignment name.now)) result }
{
    let name = Text::from_slice(alloc, name)?;
    Err(LineRefusal::Fault(LineFault::BadAssignment(name)))
}

// What the words of a line ask for that is no assignment.
#[tactic(auto, unfolding(crate::specs::Commands::command))]
fn command(alloc: Global, words: &[&[u8]], config: &Config) -> Result<Command, LineRefusal>
    ensures { AnswersLine (command (map (λ w. w.now) words.now) config.now) result }
{
    let [first, rest @ ..] = words else {
        return Ok(Command::Nothing);
    };
    match plain_named(first) {
        Some(Plain::Quit) => Ok(Command::Quit),
        Some(Plain::Options) => Ok(Command::Options),
        Some(Plain::Help) => Ok(Command::Help),
        None => report_command(alloc, first, rest, config),
    }
}

fn report_command(
    alloc: Global,
    first: &[u8],
    rest: &[&[u8]],
    config: &Config,
) -> Result<Command, LineRefusal>
    ensures { AnswersLine (report_command first.now (map (λ w. w.now) rest.now) config.now) result }
{
    let name = report_name(first);
    let Some(format) = format_named(name) else {
        return unknown_command(alloc, first);
    };
    let words = with_digits(alloc, &first[name.len()..], rest)?;
    report(alloc, format, name, words.as_slice(), config)
}

fn report(
    alloc: Global,
    format: Format,
    name: &[u8],
    words: &[&[u8]],
    config: &Config,
) -> Result<Command, LineRefusal>
    ensures { AnswersLine (report format name.now (map (λ w. w.now) words.now) config.now) result }
{
    match format {
        Format::Flag(flag) => run(alloc, flag.report(), words, config),
        Format::Pattern(format) => {
            let [pattern, rest @ ..] = words else {
                return missing_argument(alloc, name);
            };
            let pattern = Text::from_slice(alloc, pattern)?;
            run(alloc, format.report(pattern), rest, config)
        }
    }
}

fn unknown_command(alloc: Global, word: &[u8]) -> Result<Command, LineRefusal>
    ensures { AnswersLine (Err (faults.UnknownCommand word.now)) result }
{
    let word = Text::from_slice(alloc, word)?;
    Err(LineRefusal::Fault(LineFault::UnknownCommand(word)))
}

fn missing_argument(alloc: Global, name: &[u8]) -> Result<Command, LineRefusal>
    ensures { AnswersLine (Err (faults.MissingArgument name.now)) result }
{
    let name = Text::from_slice(alloc, name)?;
    Err(LineRefusal::Fault(LineFault::MissingArgument(name)))
}
