//! The text of a call tree.
ghost use Rattle.std.specs.Prelude.{◌≡◌, ◌++◌, ◌<◌, ◌^◌, ℕ, pos, codes, map, All, Option, IfOk, OnOk, OnErr};
ghost use Rattle.std.specs.List.{repeat};
ghost use Rattle.pp_model.specs.declared.profile.Profile.{Profile as Tables};
ghost use Rattle.pp_model.specs.declared.verdicts.Verdicts.{Verdicts};
ghost use Rattle.pp_model.specs.Finders.{Finders};
ghost use Rattle.pp_units.specs.Head.{facts};
ghost use Rattle.pp_units.specs.Rows.{showing_line, dropped_line, dropped_nodes, name_end};
ghost use Rattle.pp_units.specs.Shown.{shown};
ghost use Rattle.pp_grain.specs.Keys.{IsKeyOf};
ghost use Rattle.pp_count.specs.Seeing.{HoldsFilters};
ghost use Rattle.pp_calltree.specs.Laid.{node_row};
ghost use Rattle.pp_calltree.specs.Shown.{flat_sizes};
ghost use Rattle.pp_calltree.specs.Text.{calltree_text, flats_sum, indented, node_line, node_lines, path_nodes_text};
ghost use Rattle.pp_calltree.specs.Tree.{IsTreeOf};

use crate::branching::plus;
use crate::shown::shown_nodes;
use crate::tree::{PathNode, PathNodes};
use pp_base::{Gate, Memory, Text};
use pp_count::Survey;
use pp_grain::write_name;
use pp_model::{Config, Loaded};
use pp_units::{HEADING, Head, put_dropped_nodes, write_head};
use std::alloc::Global;
use std::thread::Threads;

/// Appends the text of the tree: the lines of the head, the heading, and a row for each node that is shown. A name has
/// two spaces before it for each key above its own. Nodes whose cum is less than `nodefraction` of the head's total are
/// left out with all below them. `Err` is want of memory, and `out` is then as it was.
pub fn write_calltree<R: Threads + Sync, G: Gate>(
    rt: &R,
    alloc: Global,
    survey: &Survey<'_>,
    head: &Head,
    gate: &G,
    out: &mut Text,
) -> Result<(), Memory>
    ensures ok { (f : Finders) →
        HoldsFilters survey.now.l.now survey.now.v.now survey.now.config.now.filtering f →
        OnOk result (out.new ≡ out.old ++ calltree_text survey.now.l.now.profile f
        survey.now.config.now survey.now.column (facts head.now)) }
    ensures err { OnErr result (out.new ≡ out.old) }
{
    let nodes = PathNodes::build(rt, alloc, survey, gate)?;
    write_path_nodes(alloc, survey.l, &nodes, survey.config, head, out)
}

// The text of the tree of these nodes.
fn write_path_nodes(
    alloc: Global,
    l: &Loaded,
    t: &PathNodes,
    config: &Config,
    head: &Head,
    out: &mut Text,
) -> Result<(), Memory>
    requires keys { All (λ n. IsKeyOf l.now.profile n.key) t.now }
    requires fits { flat_sizes t.now < 2 ^ 63 }
    ensures ok { (v : Verdicts) (column : Option ℕ) (f : Finders) →
        IsTreeOf l.now v config.now column t.now → HoldsFilters l.now v config.now.filtering f →
        OnOk result (out.new
        ≡ out.old ++ calltree_text l.now.profile f config.now column (facts head.now)) }
    ensures err { OnErr result (out.new ≡ out.old) }
{
    let shown = shown_nodes(alloc, t, head.total, config.presentation.nodefraction)?;
    let dropped = t.len() - shown.len();
    let mut text = Text::new(alloc);
    put_tree(alloc, l, &shown, dropped, head, &mut text)?;
    out.append(text)
}

// The text of these nodes. `dropped` is how many are left out.
fn put_tree(
    alloc: Global,
    l: &Loaded,
    nodes: &PathNodes,
    dropped: u64,
    head: &Head,
    out: &mut Text,
) -> Result<(), Memory>
    requires keys { All (λ n. IsKeyOf l.now.profile n.key) nodes.now }
    requires fits { flat_sizes nodes.now < 2 ^ 63 }
    ensures { IfOk result (λ _. out.new ≡ out.old
        ++ path_nodes_text (facts head.now) dropped (map (node_row l.now.profile) nodes.now)) }
{
    write_head(alloc, head, out)?;
    put_summary(l, nodes, dropped, head, out)?;
    out.extend(HEADING)?;
    put_rows(alloc, l, nodes, head, out)
}

// What the nodes account for, and how many are left out.
fn put_summary(
    l: &Loaded,
    nodes: &PathNodes,
    dropped: u64,
    head: &Head,
    out: &mut Text,
) -> Result<(), Memory>
    requires { flat_sizes nodes.now < 2 ^ 63 }
    ensures { IfOk result (λ _. out.new ≡ out.old
        ++ (showing_line (shown head.now.unit) head.now.total
        (flats_sum (map (node_row l.now.profile) nodes.now)) ++ dropped_line dropped_nodes dropped)) }
{
    head.put_showing(sum_flats(nodes), out)?;
    put_dropped_nodes(dropped, out)
}

// What the flats of the nodes add up to.
fn sum_flats(nodes: &PathNodes) -> i64
    requires { flat_sizes nodes.now < 2 ^ 63 }
    ensures { (p : Tables) → result ≡ flats_sum (map (node_row p) nodes.now) }
{
    let mut sum = 0;
    for n in 0..nodes.len() {
        sum = plus(sum, nodes.node(n).flat);
    }
    sum
}

// A line for each node.
fn put_rows(
    alloc: Global,
    l: &Loaded,
    nodes: &PathNodes,
    head: &Head,
    out: &mut Text,
) -> Result<(), Memory>
    requires keys { All (λ n. IsKeyOf l.now.profile n.key) nodes.now }
    requires fits { flat_sizes nodes.now < 2 ^ 63 }
    ensures { IfOk result (λ _. out.new ≡ out.old
        ++ node_lines (shown head.now.unit) head.now.total (pos 0)
        (map (node_row l.now.profile) nodes.now)) }
{
    let mut scratch = Text::new(alloc);
    let mut sum = 0;
    for n in 0..nodes.len() {
        let node = nodes.node(n);
        sum = plus(sum, node.flat);
        put_row(l, head, &node, sum, &mut scratch, out)?;
    }
    Ok(())
}

// "%10s %8s %8s %10s %8s  %s": flat, flat%, sum%, cum, cum% and the name behind its spaces, where the flats up to it
// have this sum.
fn put_row(
    l: &Loaded,
    head: &Head,
    node: &PathNode,
    sum: i64,
    scratch: &mut Text,
    out: &mut Text,
) -> Result<(), Memory>
    requires { IsKeyOf l.now.profile node.now.key }
    ensures { IfOk result (λ _. out.new ≡ out.old
        ++ node_line (shown head.now.unit) head.now.total sum (node_row l.now.profile node.now)) }
{
    head.put_columns(node.flat, sum, node.cum, scratch, out)?;
    put_name(l, node, out)
}

fn put_name(l: &Loaded, node: &PathNode, out: &mut Text) -> Result<(), Memory>
    requires { IsKeyOf l.now.profile node.now.key }
    ensures { IfOk result (λ _. out.new ≡ out.old
        ++ name_end (indented (node_row l.now.profile node.now))) }
{
    out.extend(b"  ")?;
    put_indented(l, node, out)?;
    out.extend(b"\n")
}

fn put_indented(l: &Loaded, node: &PathNode, out: &mut Text) -> Result<(), Memory>
    requires { IsKeyOf l.now.profile node.now.key }
    ensures { IfOk result (λ _. out.new ≡ out.old ++ indented (node_row l.now.profile node.now)) }
{
    put_spaces(node.depth, out)?;
    write_name(l, &node.key, out)
}

// Two spaces for each key above.
fn put_spaces(depth: u64, out: &mut Text) -> Result<(), Memory>
    ensures { IfOk result (λ _. out.new ≡ out.old ++ repeat depth (codes "  ")) }
{
    for _above in 0..depth {
        out.extend(b"  ")?;
    }
    Ok(())
}
