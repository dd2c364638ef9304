//! The samples counted, and what is read of the counts.
ghost use Rattle.std.specs.Prelude.{◌≡◌};
ghost use Rattle.pp_model.specs.Conditions.{HasVerdicts};
ghost use Rattle.pp_model.specs.Defaults.{defaults};
ghost use Rattle.pp_model.specs.Sizes.{IsCountable};

use crate::edges::put_edges;
use crate::listing::put_samples;
use crate::tree::put_tree;
use anyhow::Result;
use pp_base::{OpenGate, Text};
use pp_count::{Survey, column_of, count};
use pp_keys::HashKeys;
use pp_model::{Config, Loaded, Verdicts};
use std::alloc::Global;
use std::thread::Threads;

/// Appends the edges between functions, the call tree, and the samples one by one.
pub fn put_counted<R: Threads + Sync>(
    rt: &R,
    alloc: Global,
    l: &Loaded,
    out: &mut Text,
) -> Result<()>
    requires { IsCountable l.now.profile }
{
    let config = Config::standard(alloc)?;
    let verdicts = pp_edit::no_verdicts(alloc);
    let put = put_under(rt, alloc, l, &verdicts, &config, out);
    drop(verdicts);
    drop(config);
    put
}

fn put_under<R: Threads + Sync>(
    rt: &R,
    alloc: Global,
    l: &Loaded,
    v: &Verdicts,
    config: &Config,
    out: &mut Text,
) -> Result<()>
    requires countable { IsCountable l.now.profile }
    requires verdicts { HasVerdicts l.now.profile v.now }
    requires standard { config.now ≡ defaults }
{
    let column = column_of(l, &config.presentation)?;
    let keys = HashKeys::fixed();
    let counted = count(rt, alloc, keys, l, v, config, column, &OpenGate)?;
    let survey = Survey {
        l,
        v,
        config,
        column,
        counted: &counted,
    };
    let put = put_survey(rt, alloc, &survey, out);
    drop(counted);
    put
}

fn put_survey<R: Threads + Sync>(
    rt: &R,
    alloc: Global,
    survey: &Survey<'_>,
    out: &mut Text,
) -> Result<()> {
    put_edges(rt, alloc, survey, out)?;
    put_tree(alloc, survey, out)?;
    put_samples(rt, alloc, survey, out)
}
