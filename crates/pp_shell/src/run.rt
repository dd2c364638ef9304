//! Reports with the settings of one command.
ghost use Rattle.std.specs.Prelude.{◌≡◌, map, IsTrue};
ghost use Rattle.pp_shell.specs.Commands.{run, narrowed, with_rows, with_order, with_pattern, with_few_rows, focus_variable, ignore_variable};
ghost use Rattle.pp_shell.specs.Answers.{AnswersLine};
ghost use Rattle.pp_shell.specs.Taking.{are_fair_rows};

use crate::narrowing::{Narrowing, narrowing_of};
use crate::{Command, LineRefusal};
use pp_base::Text;
use pp_model::{Config, Report, Sort};
use pp_options::{Setting, TextVariable};
use std::alloc::Global;

// How many rows a short report has, where nothing else is said.
const FEW_ROWS: i32 = 10;

/// The report, as the words after it want it: `config` with the changes of this one command. `Err` is the first fault
/// of the words.
pub fn run(
    alloc: Global,
    report: Report,
    words: &[&[u8]],
    config: &Config,
) -> Result<Command, LineRefusal>
    ensures { AnswersLine (run report (map (λ word. word.now) words.now) config.now) result }
{
    let narrowing = narrowing_of(alloc, words)?;
    let mut config = config.copy(alloc)?;
    let to = narrow(&report, narrowing, &mut config);
    Ok(Command::Run { report, config, to })
}

// Makes the settings of one command, and gives its file.
fn narrow(report: &Report, narrowing: Narrowing, config: &mut Config) -> Option<Text>
    requires { IsTrue (are_fair_rows narrowing.rows) }
    ensures config { config.new ≡ narrowed report.now narrowing config.old }
    ensures output { result ≡ narrowing.output }
{
    put_rows(narrowing.rows, config);
    put_order(narrowing.by_cum, config);
    put_pattern(focus_variable(report), narrowing.focus, config);
    put_pattern(ignore_variable(report), narrowing.ignore, config);
    put_few_rows(report, config);
    narrowing.output
}

fn put_rows(rows: Option<u32>, config: &mut Config)
    requires { IsTrue (are_fair_rows rows) }
    ensures { config.new ≡ with_rows rows config.old }
{
    if let Some(rows) = rows {
        Setting::Nodecount(rows as i32).assign(config);
    }
}

fn put_order(by_cum: bool, config: &mut Config)
    ensures { config.new ≡ with_order by_cum config.old }
{
    if by_cum {
        Setting::Sort(Sort::Cum).assign(config);
    }
}

// A pattern takes the place of the variable's own.
fn put_pattern(which: TextVariable, pattern: Text, config: &mut Config)
    ensures { config.new ≡ with_pattern which pattern config.old }
{
    if pattern.len() > 0 {
        Setting::Text(which, pattern).assign(config);
    }
}

fn put_few_rows(report: &Report, config: &mut Config)
    ensures { config.new ≡ with_few_rows report.now config.old }
{
    if report.is_short() && config.presentation.nodecount == -1 {
        Setting::Nodecount(FEW_ROWS).assign(config);
    }
}

// The variable that patterns replace.
fn focus_variable(report: &Report) -> TextVariable
    ensures { result ≡ focus_variable report.now }
{
    if report.is_of_labels() {
        TextVariable::Tagfocus
    } else {
        TextVariable::Focus
    }
}

fn ignore_variable(report: &Report) -> TextVariable
    ensures { result ≡ ignore_variable report.now }
{
    if report.is_of_labels() {
        TextVariable::Tagignore
    } else {
        TextVariable::Ignore
    }
}
