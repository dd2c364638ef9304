//! The list of variables with their values.
ghost use Rattle.std.specs.Prelude.{◌≡◌, ◌++◌, ◌<◌, map, OnOk, OnErr, decimal};
ghost use Rattle.std.specs.Fmt.{signed_decimal};
ghost use Rattle.std.specs.List.{flat_map};
ghost use Rattle.pp_base.specs.Grew.{Grew};
ghost use Rattle.pp_options.specs.Tables.{row_of};
ghost use Rattle.pp_options.specs.Listing.{options_text, option_line, variable_text, sort_text, grain_text, truth_text, flag_in, fraction_in, text_in, fraction_text, decimals_text, without_zeros};

use crate::table::{OptionRow, Row};
use crate::variable::VARIABLES;
use crate::{FlagVariable, FractionVariable, TextVariable, Variable};
use itoa::Buffer;
use pp_base::{Fraction, Memory, Text, whole_or_nothing};
use pp_model::{Config, Grain, Presentation, Sort};

/// Appends a line of the form `NAME=VALUE` for each variable, in the order of `VARIABLES`.
#[tactic(auto, unfolding(crate::specs::Listing::options_text))]
pub fn write_options(config: &Config, out: &mut Text) -> Result<(), Memory>
    ensures ok { OnOk result (out.new ≡ out.old ++ options_text config.now) }
    ensures err { OnErr result (out.new ≡ out.old) }
{
    let start = out.len();
    let put = put_lines(config, &VARIABLES, out);
    whole_or_nothing(out, start, put)
}

// Without memory the text has gained some of it.
fn put_lines(config: &Config, rows: &[OptionRow<Variable>], out: &mut Text) -> Result<(), Memory>
    ensures ok { OnOk result
        (out.new ≡ out.old ++ flat_map (option_line config.now) (map row_of rows.now)) }
    ensures err { OnErr result (Grew out.old out.new) }
{
    for row in rows {
        put_line(config, row, out)?;
    }
    Ok(())
}

// Without memory the text has gained some of it.
fn put_line(config: &Config, row: &OptionRow<Variable>, out: &mut Text) -> Result<(), Memory>
    ensures ok { OnOk result (out.new ≡ out.old ++ option_line config.now (row_of row.now)) }
    ensures err { OnErr result (Grew out.old out.new) }
{
    let Row::Option(name, variable) = row else {
        return Ok(());
    };
    out.extend(name)?;
    out.extend(b"=")?;
    put_value(config, *variable, out)?;
    out.extend(b"\n")
}

fn put_value(config: &Config, variable: Variable, out: &mut Text) -> Result<(), Memory>
    ensures ok { OnOk result (out.new ≡ out.old ++ variable_text config.now variable) }
    ensures err { OnErr result (out.new ≡ out.old) }
{
    match variable {
        Variable::Sort => out.extend(sort_text(config.presentation.sort)),
        Variable::Granularity => out.extend(grain_text(config.grouping.grain)),
        Variable::Flag(which) => out.extend(truth_text(flag_in(config, which))),
        Variable::Nodecount => put_rows(config.presentation.nodecount, out),
        Variable::Fraction(which) => put_fraction(fraction_in(&config.presentation, which), out),
        Variable::Text(which) => out.extend(text_in(config, which).as_slice()),
        Variable::DivideBy => put_number(config.presentation.divide_by, out),
        Variable::Workers => put_number(u64::from(config.environment.workers), out),
    }
}

fn put_number(number: u64, out: &mut Text) -> Result<(), Memory>
    ensures ok { OnOk result (out.new ≡ out.old ++ decimal number) }
    ensures err { OnErr result (out.new ≡ out.old) }
{
    out.extend(Buffer::new().format(number).as_bytes())
}

fn put_rows(rows: i32, out: &mut Text) -> Result<(), Memory>
    ensures ok { OnOk result (out.new ≡ out.old ++ signed_decimal rows) }
    ensures err { OnErr result (out.new ≡ out.old) }
{
    out.extend(Buffer::new().format(rows).as_bytes())
}

// The nine decimals are those of the billionths and a billion together, without its first digit.
fn put_fraction(part: Fraction, out: &mut Text) -> Result<(), Memory>
    ensures ok { OnOk result (out.new ≡ out.old ++ fraction_text part) }
    ensures err { OnErr result (out.new ≡ out.old) }
{
    match part.billionths {
        0 => out.extend(b"0"),
        1_000_000_000 => out.extend(b"1"),
        billionths => put_decimals(billionths, out),
    }
}

#[tactic(auto, using(std::proofs::lemmas::Fmt::decimal_nonempty))]
fn put_decimals(billionths: u32, out: &mut Text) -> Result<(), Memory>
    requires { billionths < 1_000_000_000 }
    ensures ok { OnOk result (out.new ≡ out.old ++ decimals_text billionths) }
    ensures err { OnErr result (out.new ≡ out.old) }
{
    let mut buffer = Buffer::new();
    let digits = buffer.format(1_000_000_000 + billionths).as_bytes();
    let start = out.len();
    let put = put_both(b"0.", without_zeros(&digits[1..]), out);
    whole_or_nothing(out, start, put)
}

/// Appends one text and then another. Without memory the text has gained some of it.
pub fn put_both(first: &[u8], second: &[u8], out: &mut Text) -> Result<(), Memory>
    ensures ok { OnOk result (out.new ≡ out.old ++ (first.now ++ second.now)) }
    ensures err { OnErr result (Grew out.old out.new) }
{
    out.extend(first)?;
    out.extend(second)
}

// The digits up to the last that isn't 0.
fn without_zeros(digits: &[u8]) -> &[u8]
    ensures { result.now ≡ without_zeros digits.now }
{
    let mut kept = digits;
    while let Some((last, before)) = kept.split_last() {
        if *last != b'0' {
            return kept;
        }
        kept = before;
    }
    kept
}

// How the order is spelled.
fn sort_text(sort: Sort) -> &'static [u8]
    ensures { result.now ≡ sort_text sort }
{
    match sort {
        Sort::Flat => b"flat",
        Sort::Cum => b"cum",
    }
}

// How the granularity is spelled.
fn grain_text(grain: Grain) -> &'static [u8]
    ensures { result.now ≡ grain_text grain }
{
    match grain {
        Grain::Functions => b"functions",
        Grain::FileFunctions => b"filefunctions",
        Grain::Files => b"files",
        Grain::Lines => b"lines",
        Grain::Addresses => b"addresses",
    }
}

fn truth_text(on: bool) -> &'static [u8]
    ensures { result.now ≡ truth_text on }
{
    if on { b"true" } else { b"false" }
}

fn flag_in(config: &Config, which: FlagVariable) -> bool
    ensures { result ≡ flag_in config.now which }
{
    match which {
        FlagVariable::Noinlines => config.grouping.noinlines,
        FlagVariable::Showcolumns => config.grouping.showcolumns,
        FlagVariable::PathTree => config.presentation.path_tree,
        FlagVariable::RelativePercentages => config.presentation.relative_percentages,
    }
}

fn fraction_in(shown: &Presentation, which: FractionVariable) -> Fraction
    ensures { result ≡ fraction_in shown.now which }
{
    match which {
        FractionVariable::Nodefraction => shown.nodefraction,
        FractionVariable::Edgefraction => shown.edgefraction,
    }
}

fn text_in(config: &Config, which: TextVariable) -> &Text
    ensures { result.now ≡ text_in config.now which }
{
    match which {
        TextVariable::Focus => &config.filtering.focus,
        TextVariable::Ignore => &config.filtering.ignore,
        TextVariable::Show => &config.filtering.show,
        TextVariable::Hide => &config.filtering.hide,
        TextVariable::ShowFrom => &config.filtering.show_from,
        TextVariable::PruneFrom => &config.filtering.prune_from,
        TextVariable::Tagfocus => &config.filtering.tagfocus,
        TextVariable::Tagignore => &config.filtering.tagignore,
        TextVariable::Tagshow => &config.filtering.tagshow,
        TextVariable::Taghide => &config.filtering.taghide,
        TextVariable::Tagroot => &config.presentation.tagroot,
        TextVariable::Tagleaf => &config.presentation.tagleaf,
        TextVariable::SampleIndex => &config.presentation.sample_index,
        TextVariable::Unit => &config.presentation.unit,
        TextVariable::SourcePath => &config.environment.source_path,
        TextVariable::TrimPath => &config.environment.trim_path,
    }
}
