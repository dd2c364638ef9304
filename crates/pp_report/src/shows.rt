//! What a report shows: its column of values, and the unit that is asked for.
ghost use Rattle.std.specs.Prelude.{◌≡◌, ◌<◌, ◌^◌, length, IfOk, option_map};
ghost use Rattle.std.specs.Result.{result_map_both};
ghost use Rattle.pp_model.specs.Conditions.{IsColumnOf};
ghost use Rattle.pp_units.specs.Shown.{shown};
ghost use Rattle.pp_count.specs.Column.{column_of};
ghost use Rattle.pp_report.specs.Heads.{type_of_column, kind_text, unit_text, wanted_unit};
ghost use Rattle.pp_report.specs.Prepared.{showing_for, in_column, in_unit, showing};

use crate::ReportRefusal;
use pp_base::Memory;
use pp_count::column_of;
use pp_model::{Loaded, Presentation, Profile, Report, ValueType, text_of};
use pp_units::{Unit, each_unit, forced_unit};
use std::alloc::Global;

/// What a report shows: no column where it shows no values.
#[derive(Drop)]
pub struct Shows {
    /// The place of the sample type, None where there is none.
    pub column: Option<u32>,
    /// How values are printed, where a unit is asked for.
    pub unit: Option<Unit>,
}

/// What the report shows, or why it is refused before any pattern is asked.
pub fn shows_for(
    alloc: Global,
    l: &Loaded,
    report: &Report,
    presentation: &Presentation,
) -> Result<Result<Shows, ReportRefusal>, Memory>
    requires { length l.now.profile.sample_type < 2 ^ 32 }
    ensures value { IfOk result (λ answer. result_map_both showing (λ refusal. refusal) answer
        ≡ showing_for report.now l.now.profile presentation.now) }
    ensures bound { IfOk result (λ answer. IfOk answer
        (λ shows. IsColumnOf l.now.profile shows.column)) }
{
    if !report.shows_values() {
        return Ok(Ok(Shows {
            column: None,
            unit: None,
        }));
    }
    values_shown(alloc, l, presentation)
}

// What a report of values shows.
fn values_shown(
    alloc: Global,
    l: &Loaded,
    presentation: &Presentation,
) -> Result<Result<Shows, ReportRefusal>, Memory>
    requires { length l.now.profile.sample_type < 2 ^ 32 }
    ensures value { IfOk result (λ answer. result_map_both showing (λ refusal. refusal) answer
        ≡ in_column l.now.profile presentation.now
        (column_of l.now.profile presentation.now.sample_index)) }
    ensures bound { IfOk result (λ answer. IfOk answer
        (λ shows. IsColumnOf l.now.profile shows.column)) }
{
    let Ok(column) = column_of(l, presentation) else {
        return Ok(Err(ReportRefusal::BadSampleIndex));
    };
    let values = unit_text(l.profile.get(), column);
    let Some(unit) = wanted_unit(alloc, presentation.unit.as_slice(), values)? else {
        return Ok(Err(ReportRefusal::UnitMismatch));
    };
    Ok(Ok(Shows { column, unit }))
}

// The unit that is asked for, if one is; None where it measures something else than the values.
fn wanted_unit(alloc: Global, wanted: &[u8], values: &[u8]) -> Result<Option<Option<Unit>>, Memory>
    ensures { IfOk result (λ found.
        option_map (option_map shown) found ≡ wanted_unit wanted.now values.now) }
{
    if wanted.is_empty() {
        return Ok(Some(None));
    }
    if wanted == b"each".as_slice() {
        return Ok(Some(Some(each_unit(alloc, values)?)));
    }
    match forced_unit(alloc, wanted, values)? {
        Some(unit) => Ok(Some(Some(unit))),
        None => Ok(None),
    }
}

/// The name of the column's type, and nothing without a column.
pub fn kind_text(p: &Profile, column: Option<u32>) -> &[u8]
    ensures { result.now ≡ kind_text p.now column }
{
    match type_of(p, column) {
        Some(kind) => text_of(p, kind.kind),
        None => &[],
    }
}

/// The unit of the column's values, and nothing without a column.
pub fn unit_text(p: &Profile, column: Option<u32>) -> &[u8]
    ensures { result.now ≡ unit_text p.now column }
{
    match type_of(p, column) {
        Some(kind) => text_of(p, kind.unit),
        None => &[],
    }
}

// The sample type of the column, if there is one.
fn type_of(p: &Profile, column: Option<u32>) -> Option<ValueType>
    ensures { result ≡ type_of_column p.now column }
{
    p.sample_type.as_slice().get(column? as usize).copied()
}
