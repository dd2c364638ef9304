//! What one word asks for, or an option together with the word that is its value.
ghost use Rattle.std.specs.Prelude.{◌≡◌, option_map, Err, IfOk, IfSome, IsTrue};
ghost use Rattle.pp_options.specs.declared.usage.UsageRefusal.TheVariants as refusals;
ghost use Rattle.pp_options.specs.Items.{word_fault, AnswersAt, is_fair_item, is_true_word, setting_of_choice, chosen, selected_type, report_with, item_with, valued_item, flag_item, option_item, item_of};
ghost use Rattle.pp_options.specs.Conditions.{is_fair_number, has_pattern};
ghost use Rattle.pp_options.specs.Settings.{is_fitting};
ghost use Rattle.pp_options.specs.Values.{whole_number};

use crate::name::option_named;
use crate::spelling::{is_option, name_in, value_in};
use crate::value::{truth_of, whole_number};
use crate::{
    Choice, Format, OptionName, SampleType, Setting, TextVariable, UsageFault, UsageKind,
    UsageRefusal, setting_of,
};
use pp_base::{Memory, Text};
use pp_model::{BaseKind, Report};
use std::alloc::Global;

/// What is asked for.
#[derive(Debug, Drop)]
pub enum Item {
    /// A source of this path.
    Source(Text),
    /// A base of this path.
    Base(BaseKind, Text),
    /// A synthetic source with this number of samples.
    Gen(u32),
    /// That the sources are scaled to the bases, or are not.
    Normalize(bool),
    /// A report.
    Format(Report),
    /// That a variable has a value.
    Set(Setting),
}

/// What the word asks for. `at` is its number, from 1, and `next` the next word, where this one takes it as its value.
/// `Err` is the word's own fault, whatever the words before it are, or want of memory.
#[tactic(auto, unfolding(crate::specs::Items::item_of))]
pub fn item_of(
    alloc: Global,
    at: u64,
    word: &[u8],
    next: Option<&[u8]>,
) -> Result<Item, UsageRefusal>
    ensures item { AnswersAt at (item_of word.now (option_map (λ x. x.now) next.entry)) result }
    ensures fair { IfOk result (λ item. IsTrue (is_fair_item item)) }
{
    if !is_option(word) {
        let path = Text::from_slice(alloc, word)?;
        return Ok(Item::Source(path));
    }
    let Some(name) = option_named(name_in(word)) else {
        return refuse(UsageKind::UnknownOption, at);
    };
    option_item(alloc, at, name, value_in(word).or(next))
}

// What the option asks for, with its value where there is one.
fn option_item(
    alloc: Global,
    at: u64,
    name: OptionName,
    value: Option<&[u8]>,
) -> Result<Item, UsageRefusal>
    ensures item { AnswersAt at (option_item name (option_map (λ x. x.now) value.entry)) result }
    ensures fair { IfOk result (λ item. IsTrue (is_fair_item item)) }
{
    match value {
        Some(value) => valued_item(alloc, at, name, value),
        None => flag_item(alloc, at, name),
    }
}

// A flag alone is one with the value `true`.
fn flag_item(alloc: Global, at: u64, name: OptionName) -> Result<Item, UsageRefusal>
    ensures item { AnswersAt at (flag_item name) result }
    ensures fair { IfOk result (λ item. IsTrue (is_fair_item item)) }
{
    if name.needs_value() {
        return refuse(UsageKind::MissingValue, at);
    }
    valued_item(alloc, at, name, b"true")
}

fn valued_item(alloc: Global, at: u64, name: OptionName, value: &[u8]) -> Result<Item, UsageRefusal>
    ensures item { AnswersAt at (valued_item name value.now) result }
    ensures fair { IfOk result (λ item. IsTrue (is_fair_item item)) }
{
    let Some(item) = item_with(alloc, name, value)? else {
        return refuse(UsageKind::BadValue, at);
    };
    Ok(item)
}

// What the option asks for with the value; `None` where it can't have the value.
#[tactic(auto, unfolding(crate::specs::Items::item_with))]
fn item_with(alloc: Global, name: OptionName, value: &[u8]) -> Result<Option<Item>, Memory>
    ensures item { IfOk result (λ item. item ≡ item_with name value.now) }
    ensures fair { IfOk result (λ item. IfSome item (λ i. IsTrue (is_fair_item i))) }
{
    match name {
        OptionName::Variable(variable) => Ok(setting_of(alloc, variable, value)?.map(Item::Set)),
        OptionName::Choice(choice) => Ok(chosen(choice, value).map(Item::Set)),
        OptionName::SampleType(kind) => Ok(selected(alloc, kind, value)?.map(Item::Set)),
        OptionName::Format(format) => Ok(report_with(alloc, format, value)?.map(Item::Format)),
        OptionName::Base(kind) => Ok(Some(Item::Base(kind, Text::from_slice(alloc, value)?))),
        OptionName::Gen => Ok(samples_of(value).map(Item::Gen)),
        OptionName::Normalize => Ok(truth_of(value).map(Item::Normalize)),
    }
}

fn chosen(choice: Choice, value: &[u8]) -> Option<Setting>
    ensures value { result ≡ chosen choice value.now }
    ensures fitting { IfSome result (λ s. IsTrue (is_fitting s)) }
{
    if is_true_word(value) {
        Some(choice.setting())
    } else {
        None
    }
}

// A sample type, whose word alone names it, can only be selected.
fn selected(alloc: Global, kind: SampleType, value: &[u8]) -> Result<Option<Setting>, Memory>
    ensures value { IfOk result (λ found. found ≡ selected_type kind value.now) }
    ensures fitting { IfOk result (λ found. IfSome found (λ s. IsTrue (is_fitting s))) }
{
    if !is_true_word(value) {
        return Ok(None);
    }
    let name = Text::from_slice(alloc, kind.name())?;
    Ok(Some(Setting::Text(TextVariable::SampleIndex, name)))
}

fn is_true_word(word: &[u8]) -> bool
    ensures { result ≡ is_true_word word.now }
{
    truth_of(word).unwrap_or(false)
}

impl Choice {
    /// The variable with the value that is chosen.
    pub fn setting(self) -> Setting
        ensures value { result ≡ setting_of_choice self }
        ensures fitting { IsTrue (is_fitting result) }
    {
        match self {
            Choice::Sort(sort) => Setting::Sort(sort),
            Choice::Granularity(grain) => Setting::Granularity(grain),
        }
    }
}

// A format takes a pattern that isn't empty, or it is a flag that can only be true.
fn report_with(alloc: Global, format: Format, value: &[u8]) -> Result<Option<Report>, Memory>
    ensures report { IfOk result (λ report. report ≡ report_with format value.now) }
    ensures patterned { IfOk result (λ report. IsTrue (has_pattern report)) }
{
    match format {
        Format::Flag(flag) if is_true_word(value) => Ok(Some(flag.report())),
        Format::Pattern(format) if !value.is_empty() => {
            let pattern = Text::from_slice(alloc, value)?;
            Ok(Some(format.report(pattern)))
        }
        Format::Flag(_) | Format::Pattern(_) => Ok(None),
    }
}

// The number of samples that are made.
fn samples_of(value: &[u8]) -> Option<u32>
    ensures value { result ≡ whole_number 1 1000000 value.now }
    ensures fair { IfSome result (λ n. IsTrue (is_fair_number n)) }
{
    let samples = whole_number(value, 1, 1_000_000)?;
    Some(samples as u32)
}

/// The refusal of the word of the number, from 1.
pub fn refuse<T>(kind: UsageKind, at: u64) -> Result<T, UsageRefusal>
    ensures { result ≡ Err (refusals.Fault (word_fault kind at)) }
{
    Err(UsageRefusal::Fault(UsageFault { kind, word: at }))
}
