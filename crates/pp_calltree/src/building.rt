//! The call tree of a report's samples, and its paths with sums.
ghost use Rattle.std.specs.Prelude.{◌≡◌, ℕ, List as Seq, length, map, Option, IfOk};
ghost use Rattle.std.specs.List.Sorted.{IsPermutation};
ghost use Rattle.std.proofs.Props.{props};
ghost use Rattle.pp_model.specs.declared.config.Config.{Config as Options};
ghost use Rattle.pp_model.specs.declared.loaded.Loaded.{Loaded as Read};
ghost use Rattle.pp_model.specs.declared.verdicts.Verdicts.{Verdicts as Found};
ghost use Rattle.pp_model.specs.Finders.{Finders};
ghost use Rattle.pp_count.specs.Seeing.{HoldsFilters};
ghost use Rattle.pp_count.specs.Scope.{samples_in_scope};
ghost use Rattle.pp_count.specs.Counts.{written_names};
ghost use Rattle.pp_calltree.specs.CallPaths.{ArePathsOf};
ghost use Rattle.pp_calltree.specs.Gathered.{samples_of_paths, AreGathered, ChoosesKept, IsScopeOf};
ghost use Rattle.pp_calltree.specs.Links.{nodes_by};
ghost use Rattle.pp_calltree.specs.Paths.{below, IsRising};
ghost use Rattle.pp_calltree.specs.Tree.{IsTreeOf, flats_at};
ghost use Rattle.pp_calltree.specs.Walk.{IsWalkOf};

use crate::gathering::gather_paths;
use crate::laying::lay_out;
use crate::listing::{PathSum, list_paths};
use crate::path::{Path, cut_paths, sort_paths};
use crate::paths::{Paths, gather_range};
use crate::tree::{CallTree, NumberedNode, PathNodes};
use pp_base::{Gate, List, Memory};
use pp_count::{Scope, Survey};
use pp_grain::Names;
use std::alloc::Global;
use std::mem;
use std::thread::Threads;

/// The paths of the samples that put keys into a report.
#[derive(Drop)]
pub struct ReportPaths<'a> {
    // How the samples are seen.
    scope: Scope<'a>,
    paths: Paths,
    ghost gathered: { AreGathered scope paths } by { Prim.hlevel props },
}

/// The paths of a call tree whose sums aren't 0.
#[derive(Drop)]
pub struct PathSums<'a> {
    /// The keys, by number.
    pub names: &'a Names,
    /// Parents before children.
    pub paths: Vec<PathSum<'a>>,
}

impl<'a> ReportPaths<'a> {
    /// Gathers the paths of the counted samples, in pieces on as many lanes as the configuration has workers. `Err` is
    /// want of memory.
    pub fn gather<R: Threads + Sync, G: Gate>(
        rt: &R,
        alloc: Global,
        survey: &Survey<'a>,
        gate: &G,
    ) -> Result<ReportPaths<'a>, Memory>
        ensures same { IfOk result (λ r. IsScopeOf survey.now.l.now survey.now.v.now
            survey.now.config.now survey.now.column r.scope) }
    {
        let scope = scope_of(survey);
        let count = survey.counted.kept.len() as u32;
        let paths = gather_paths(rt, alloc, &scope, count, gate)?;
        Ok(ReportPaths { scope, paths })
    }

    // Gathers them without other threads.
    fn gather_alone(alloc: Global, survey: &Survey<'a>) -> Result<ReportPaths<'a>, Memory>
        ensures same { IfOk result (λ r. IsScopeOf survey.now.l.now survey.now.v.now
            survey.now.config.now survey.now.column r.scope) }
    {
        let scope = scope_of(survey);
        let paths = gather_range(alloc, &scope, 0, survey.counted.kept.len() as u32)?;
        Ok(ReportPaths { scope, paths })
    }

    /// The paths whose sums aren't 0, each once, as the call tree has its nodes: parents before children, and siblings,
    /// as roots, by absolute cum falling, then by absolute flat falling, then by the order of keys. `Err` is want of
    /// memory.
    pub fn sums(&self, alloc: Global) -> Result<PathSums<'_>, Memory>
        ensures { (l : Read) (v : Found) (config : Options) (column : Option ℕ) →
            IsScopeOf l v config column self.now.scope →
            IfOk result (λ r. ArePathsOf l v config column r.names.now r.paths.items) }
    {
        let scope = self.scope;
        let names = &scope.table.names;
        let sorted = self.sorted(alloc)?;
        let paths = list_paths(alloc, scope.l.profile.get(), names, &sorted)?;
        Ok(PathSums { names, paths })
    }

    // The nodes of the paths' tree, by the numbers of their keys.
    fn nodes(&self, alloc: Global) -> Result<List<NumberedNode>, Memory>
        ensures { (l : Read) (v : Found) (config : Options) (column : Option ℕ) →
            IsScopeOf l v config column self.now.scope →
            IfOk result (λ nodes. IsTreeOf l v config column
            (nodes_by self.now.scope.table.now.names nodes)) }
    {
        let scope = self.scope;
        let sorted = self.sorted(alloc)?;
        let nodes = lay_out(alloc, scope.l.profile.get(), &scope.table.names, &sorted);
        mem::drop(sorted);
        nodes
    }

    // The paths in the order of their keys.
    fn sorted(&self, alloc: Global) -> Result<Vec<Path<'_>>, Memory>
        ensures rises { IfOk result (λ paths. IsRising (below 0 paths.items)) }
        ensures same { IfOk result (λ paths. IsPermutation
            (samples_of_paths self.now.paths) (below 0 paths.items)) }
    {
        let mut paths = cut_paths(alloc, &self.paths.keys, &self.paths.parts)?;
        sort_paths(&mut paths)?;
        Ok(paths)
    }
}

impl<'a> CallTree<'a> {
    /// Builds the tree of the counted samples that put keys into the report. `Err` is want of memory.
    ///
    /// Siblings, and roots, stand by absolute cum falling, then by absolute flat falling, then by the order of keys.
    pub fn build(alloc: Global, survey: &Survey<'a>) -> Result<CallTree<'a>, Memory>
        ensures tree { IfOk result (IsTreeOf survey.now.l.now survey.now.v.now survey.now.config.now
            survey.now.column) }

        // First children and next siblings walk the paths of the samples that put keys into the report.
        ensures walk { (f : Finders) →
            HoldsFilters survey.now.l.now survey.now.v.now survey.now.config.now.filtering f →
            IfOk result (IsWalkOf survey.now.l.now.profile f survey.now.config.now
            survey.now.column) }

        // For each name of the sums, the flats of its nodes add up to its flat.
        ensures flats { (f : Finders) →
            HoldsFilters survey.now.l.now survey.now.v.now survey.now.config.now.filtering f →
            IfOk result (λ t. map (flats_at survey.now.l.now.profile t)
            (written_names survey.now.l.now.profile survey.now.counted.now.sums)
            ≡ survey.now.counted.now.sums.flat) }
    {
        let gathered = ReportPaths::gather_alone(alloc, survey)?;
        let tree = PathNodes::of(alloc, gathered)?;
        let parents = tree.parents(alloc)?;
        let nexts = tree.nexts(alloc)?;
        Ok(CallTree {
            tree,
            parents,
            nexts,
        })
    }
}

impl<'a> PathNodes<'a> {
    /// The nodes of the tree that `CallTree::build` gives, without links. `Err` is want of memory.
    pub fn build<R: Threads + Sync, G: Gate>(
        rt: &R,
        alloc: Global,
        survey: &Survey<'a>,
        gate: &G,
    ) -> Result<PathNodes<'a>, Memory>
        ensures { IfOk result (IsTreeOf survey.now.l.now survey.now.v.now survey.now.config.now
            survey.now.column) }
    {
        let gathered = ReportPaths::gather(rt, alloc, survey, gate)?;
        PathNodes::of(alloc, gathered)
    }

    // The nodes of these paths, which are spent.
    fn of(alloc: Global, gathered: ReportPaths<'a>) -> Result<PathNodes<'a>, Memory>
        ensures { (l : Read) (v : Found) (config : Options) (column : Option ℕ) →
            IsScopeOf l v config column gathered.entry.scope →
            IfOk result (IsTreeOf l v config column) }
    {
        let scope = gathered.scope;
        let nodes = gathered.nodes(alloc);
        mem::drop(gathered);
        Ok(PathNodes {
            names: &scope.table.names,
            nodes: nodes?,
        })
    }
}

// How the kept samples are seen, each key by its number in the report's table.
fn scope_of<'a>(survey: &Survey<'a>) -> Scope<'a>
    ensures kept { ChoosesKept result }
    ensures count { length (samples_in_scope result) ≡ length survey.now.counted.now.kept }
    ensures same { IsScopeOf survey.now.l.now survey.now.v.now survey.now.config.now
        survey.now.column result }
{
    Scope {
        l: survey.l,
        v: survey.v,
        config: survey.config,
        grouping: survey.config.grouping,
        filters: survey.filters(),
        column: survey.column,
        table: survey.table(),
        over: None,
        chosen: Some(survey.counted.kept.as_slice()),
    }
}
