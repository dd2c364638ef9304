//! Variables with their values.
ghost use Rattle.std.specs.Prelude.{◌≡◌, ◌≤◌, option_map, IfOk, IfSome, IsTrue};
ghost use Rattle.pp_options.specs.Settings.{setting_of, is_fitting, is_unit, is_reserved, text_value, assigned, with_flag, with_fraction, with_text};
ghost use Rattle.pp_options.specs.Values.{whole_number};
ghost use Rattle.pp_options.specs.declared.setting.Setting.TheVariants as settings;

use crate::text::is;
use crate::value::{grain_named, nodecount_of, sort_named, truth_of, whole_number};
use crate::{FlagVariable, FractionVariable, TextVariable, Variable};
use pp_base::{Fraction, Memory, Text};
use pp_model::{Config, Grain, Presentation, Sort};
use pp_units::read_fraction;
use std::alloc::Global;

/// A variable with a value that it is to have.
#[derive(Debug, Drop)]
pub enum Setting {
    Sort(Sort),
    Granularity(Grain),
    Flag(FlagVariable, bool),
    /// From -1 on.
    Nodecount(i32),
    Fraction(FractionVariable, Fraction),
    Text(TextVariable, Text),
    /// From 1 to 2^63-1.
    DivideBy(u64),
    /// From 1 to 64.
    Workers(u32),
}

/// The variable with the value that the text spells. `None` where it can't have that value.
#[tactic(auto, unfolding(crate::specs::Settings::setting_of))]
pub fn setting_of(
    alloc: Global,
    variable: Variable,
    value: &[u8],
) -> Result<Option<Setting>, Memory>
    ensures value { IfOk result (λ found. found ≡ setting_of variable value.now) }
    ensures fitting { IfOk result (λ found. IfSome found (λ s. IsTrue (is_fitting s))) }
{
    match variable {
        Variable::Sort => Ok(sort_named(value).map(Setting::Sort)),
        Variable::Granularity => Ok(grain_named(value).map(Setting::Granularity)),
        Variable::Flag(flag) => Ok(truth_of(value).map(|on| Setting::Flag(flag, on))),
        Variable::Nodecount => Ok(nodecount_of(value).map(Setting::Nodecount)),
        Variable::Fraction(which) => {
            Ok(read_fraction(value).map(|part| Setting::Fraction(which, part)))
        }
        Variable::Text(which) => text_setting(alloc, which, value),
        Variable::DivideBy => Ok(whole_number(value, 1, i64::MAX as u64).map(Setting::DivideBy)),
        Variable::Workers => Ok(workers_of(value).map(Setting::Workers)),
    }
}

// A unit can't be one of the two words that ask other programs to pick it.
fn text_setting(alloc: Global, which: TextVariable, value: &[u8]) -> Result<Option<Setting>, Memory>
    ensures value { IfOk result
        (λ found. found ≡ option_map (settings.Text which) (text_value which value.now)) }
    ensures fitting { IfOk result (λ found. IfSome found (λ s. IsTrue (is_fitting s))) }
{
    if is_unit(which) && is_reserved(value) {
        return Ok(None);
    }
    let text = Text::from_slice(alloc, value)?;
    Ok(Some(Setting::Text(which, text)))
}

fn is_unit(which: TextVariable) -> bool
    ensures { result ≡ is_unit which }
{
    matches!(which, TextVariable::Unit)
}

fn is_reserved(unit: &[u8]) -> bool
    ensures { result ≡ is_reserved unit.now }
{
    is(unit, b"auto") || is(unit, b"minimum")
}

fn workers_of(value: &[u8]) -> Option<u32>
    ensures value { result ≡ whole_number 1 64 value.now }
    ensures least { IfSome result (λ n. 1 ≤ n) }
    ensures most { IfSome result (λ n. n ≤ 64) }
{
    let workers = whole_number(value, 1, 64)?;
    Some(workers as u32)
}

impl Setting {
    /// Gives the variable its value.
    #[tactic(auto, unfolding(crate::specs::Settings::assigned))]
    pub fn assign(self, config: &mut Config)
        requires { IsTrue (is_fitting self) }
        ensures { config.new ≡ assigned config.old self }
    {
        match self {
            Setting::Sort(sort) => config.presentation.sort = sort,
            Setting::Granularity(grain) => config.grouping.grain = grain,
            Setting::Flag(which, on) => put_flag(config, which, on),
            Setting::Nodecount(rows) => config.presentation.nodecount = rows,
            Setting::Fraction(which, part) => put_fraction(&mut config.presentation, which, part),
            Setting::Text(which, text) => put_text(config, which, text),
            Setting::DivideBy(divisor) => config.presentation.divide_by = divisor,
            Setting::Workers(workers) => config.environment.workers = workers,
        }
    }
}

fn put_flag(config: &mut Config, which: FlagVariable, on: bool)
    ensures { config.new ≡ with_flag config.old which on }
{
    match which {
        FlagVariable::Noinlines => config.grouping.noinlines = on,
        FlagVariable::Showcolumns => config.grouping.showcolumns = on,
        FlagVariable::PathTree => config.presentation.path_tree = on,
        FlagVariable::RelativePercentages => config.presentation.relative_percentages = on,
    }
}

fn put_fraction(shown: &mut Presentation, which: FractionVariable, part: Fraction)
    ensures { shown.new ≡ with_fraction shown.old which part }
{
    match which {
        FractionVariable::Nodefraction => shown.nodefraction = part,
        FractionVariable::Edgefraction => shown.edgefraction = part,
    }
}

fn put_text(config: &mut Config, which: TextVariable, text: Text)
    ensures { config.new ≡ with_text config.old which text }
{
    match which {
        TextVariable::Focus => config.filtering.focus = text,
        TextVariable::Ignore => config.filtering.ignore = text,
        TextVariable::Show => config.filtering.show = text,
        TextVariable::Hide => config.filtering.hide = text,
        TextVariable::ShowFrom => config.filtering.show_from = text,
        TextVariable::PruneFrom => config.filtering.prune_from = text,
        TextVariable::Tagfocus => config.filtering.tagfocus = text,
        TextVariable::Tagignore => config.filtering.tagignore = text,
        TextVariable::Tagshow => config.filtering.tagshow = text,
        TextVariable::Taghide => config.filtering.taghide = text,
        TextVariable::Tagroot => config.presentation.tagroot = text,
        TextVariable::Tagleaf => config.presentation.tagleaf = text,
        TextVariable::SampleIndex => config.presentation.sample_index = text,
        TextVariable::Unit => config.presentation.unit = text,
        TextVariable::SourcePath => config.environment.source_path = text,
        TextVariable::TrimPath => config.environment.trim_path = text,
    }
}
