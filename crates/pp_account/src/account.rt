//! The whole report.
ghost use Rattle.std.specs.Prelude.{◌≡◌, ◌++◌, IfOk, OnOk, OnErr};
ghost use Rattle.pp_model.specs.Finders.{Finders};
ghost use Rattle.pp_units.specs.Head.{facts};
ghost use Rattle.pp_count.specs.Seeing.{HoldsFilters};
ghost use Rattle.pp_account.specs.Account.{account_text};
ghost use Rattle.pp_account.specs.Lines.{account_lines, AreNodesOf};

use crate::nodes::{NodePortions, node_portions};
use crate::portions::Portions;
use crate::rows::{put_heading, put_node_rows, put_sample_rows};
use crate::samples::portions_of;
use pp_base::{Memory, Text};
use pp_count::Survey;
use pp_graph::rank_all;
use pp_units::{Head, write_head};
use std::alloc::Global;

/// Appends the account report: the lines of the head, and then rows of samples and of keys. Samples have a row for all,
/// one for those that each filter is the first to drop, and one for those that are left. Keys have a row for those that
/// occur, that are too light, that the limit leaves out and that are shown. `limit` is the most keys that are shown, 0
/// for no limit. `Err` is want of memory, and `out` is then as it was.
pub fn write_account(
    alloc: Global,
    survey: &Survey<'_>,
    limit: u32,
    head: &Head,
    out: &mut Text,
) -> Result<(), Memory>
    ensures ok { (f : Finders) →
        HoldsFilters survey.now.l.now survey.now.v.now survey.now.config.now.filtering f →
        OnOk result (out.new ≡ out.old ++ account_text survey.now.l.now.profile f
        survey.now.config.now survey.now.column limit (facts head.now)) }
    ensures err { OnErr result (out.new ≡ out.old) }
{
    let portions = portions_of(alloc, survey)?;
    let nodes = survey_nodes(alloc, survey, limit)?;
    let mut text = Text::new(alloc);
    put_account(alloc, survey, &portions, &nodes, head, &mut text)?;
    out.append(text)
}

// Where the keys of the report end.
fn survey_nodes(alloc: Global, survey: &Survey<'_>, limit: u32) -> Result<NodePortions, Memory>
    ensures { (f : Finders) →
        HoldsFilters survey.now.l.now survey.now.v.now survey.now.config.now.filtering f →
        IfOk result (AreNodesOf survey.now.l.now.profile f survey.now.config.now survey.now.column limit) }
{
    let (counted, config) = (survey.counted, survey.config);
    let ranked = rank_all(alloc, survey.l, counted, config, 0)?;
    node_portions(
        alloc,
        counted,
        ranked.order.as_slice(),
        config.presentation.nodefraction,
        limit,
    )
}

// The whole text.
fn put_account(
    alloc: Global,
    survey: &Survey<'_>,
    portions: &Portions,
    nodes: &NodePortions,
    head: &Head,
    out: &mut Text,
) -> Result<(), Memory>
    ensures { (f : Finders) →
        HoldsFilters survey.now.l.now survey.now.v.now survey.now.config.now.filtering f →
        IfOk result (λ _. out.new ≡ out.old
        ++ account_lines f survey.now.config.now.filtering portions.now nodes.now
        (facts head.now)) }
{
    write_head(alloc, head, out)?;
    put_heading(b"samples", out)?;
    put_sample_rows(alloc, survey, portions, head, out)?;
    put_heading(b"nodes", out)?;
    put_node_rows(alloc, nodes, head, out)
}
