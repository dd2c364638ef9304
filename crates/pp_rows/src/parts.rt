// Parts of pieces, counted one by one and joined, beside samples that are added up one by one.
ghost use Rattle.std.specs.Prelude.{◌≡◌, ◌<◌, length, IfOk};
ghost use Rattle.pp_model.specs.declared.profile.Profile.{Profile};
ghost use Rattle.pp_model.specs.Conditions.{HasVerdicts};
ghost use Rattle.pp_model.specs.Defaults.{defaults};
ghost use Rattle.pp_model.specs.Sizes.{IsCountable};
ghost use Rattle.pp_count.specs.Counted.{CanCount};
ghost use Rattle.pp_count.specs.Table.{IsKeyTable};

use crate::counting::ChainSums;
use crate::running::words_of;
use pp_base::{CalmFiles, CalmSink, CalmSource, List, Memory, Text};
use pp_count::{KeyTable, Part, column_of, count_piece, join_parts, key_table};
use pp_desk::{Objects, Stop};
use pp_keys::HashKeys;
use pp_load::{LoadRefusal, load};
use pp_model::{Config, Loaded, Verdicts};
use pp_options::{Plan, read_words};
use pp_regex::RegexMatcher;
use std::alloc::Global;
use std::mem;
use std::test::Fail;
use std::thread::Threads;

type Loading = Result<Result<Loaded, LoadRefusal>, Stop>;

#[test]
fn parts_join_to_the_whole(rt: HostRuntime) -> Result<(), Fail> {
    assert!(rt; are_joined(&rt, rt.alloc(), "-top -gen=1500", &ChainSums::of(1500))?);
    Ok(())
}

// Whether two pieces of the profile that these words make come to these sums, once they are joined.
fn are_joined<R: Threads + Sync>(
    rt: &R,
    alloc: Global,
    words: &str,
    sums: &ChainSums,
) -> Result<bool, Fail> {
    let words = words_of(alloc, words)?;
    let plan = read_words(alloc, words.as_slice()).ok().ok_or("no plan")?;
    let answer = plan_has_sums(rt, alloc, &plan, sums);
    mem::drop(plan);
    answer
}

fn plan_has_sums<R: Threads + Sync>(
    rt: &R,
    alloc: Global,
    plan: &Plan,
    sums: &ChainSums,
) -> Result<bool, Fail> {
    let mut files = CalmFiles::new(alloc, List::new(alloc), List::new(alloc));
    let mut input = CalmSource::new(Text::new(alloc), 1);
    let mut out = CalmSink::new(alloc, 16);
    let mut err = CalmSink::new(alloc, 16);
    let mut matcher = RegexMatcher::new(alloc);
    let mut reader = None;
    let mut desk = Objects {
        alloc,
        files: &mut files,
        input: &mut input,
        out: &mut out,
        err: &mut err,
        matcher: &mut matcher,
        reader: &mut reader,
    };
    let loading = load(rt, alloc, HashKeys::fixed(), plan, &mut desk);
    let answer = have_sums(alloc, &loading, sums);
    mem::drop(loading);
    answer
}

fn have_sums(alloc: Global, loading: &Loading, sums: &ChainSums) -> Result<bool, Fail>
    requires { IfOk loading.now (λ loading. IfOk loading (λ l. IsCountable l.profile)) }
{
    let Ok(Ok(l)) = loading else {
        return Err("not loaded".into());
    };
    if l.profile.get().sample.len() <= 1024 {
        return Err("no second piece".into());
    }
    let config = Config::standard(alloc)?;
    let answer = has_sums_under(alloc, l, &config, sums);
    mem::drop(config);
    answer
}

fn has_sums_under(
    alloc: Global,
    l: &Loaded,
    config: &Config,
    sums: &ChainSums,
) -> Result<bool, Fail>
    requires countable { IsCountable l.now.profile }
    requires standard { config.now ≡ defaults }
    requires pieces { 1024 < length l.now.profile.sample }
{
    let Ok(column) = column_of(l, &config.presentation) else {
        return Err("no column".into());
    };
    let table = key_table(alloc, HashKeys::fixed(), l, config.grouping)?;
    let verdicts = no_verdicts(alloc);
    let part = joined_part(alloc, l, &verdicts, config, column, &table);
    mem::drop(verdicts);
    let part = part?;
    let is_whole = are_all(part.kept.as_slice(), l.profile.get().sample.len());
    Ok(is_whole && are_sums(l, &table, &part, sums))
}

// Whether the numbers are those of all samples.
fn are_all(kept: &[u32], samples: usize) -> bool {
    for (place, number) in kept.iter().enumerate() {
        if *number as usize != place {
            return false;
        }
    }
    kept.len() == samples
}

// Whether each key that occurs has the sums of its function's name.
fn are_sums(l: &Loaded, table: &KeyTable, part: &Part, sums: &ChainSums) -> bool {
    for sum in part.sums.as_slice() {
        if sums.of_name(name_of(l, table, sum.key)) != Some((sum.flat, sum.cum)) {
            return false;
        }
    }
    part.sums.len() == 9
}

// The first two pieces, each counted by itself.
fn joined_part(
    alloc: Global,
    l: &Loaded,
    v: &Verdicts,
    config: &Config,
    column: Option<u32>,
    table: &KeyTable,
) -> Result<Part, Memory>
    requires can { CanCount l.now.profile v.now config.now.filtering column }
    requires table { IsKeyTable l.now.profile config.now.grouping table.now }
    requires pieces { 1024 < length l.now.profile.sample }
{
    let mut parts = List::new(alloc);
    let first = count_piece(alloc, l, v, config, column, table, 0)?;
    parts.push(first)?;
    let second = count_piece(alloc, l, v, config, column, table, 1)?;
    parts.push(second)?;
    join_parts(alloc, parts)
}

// The name of the key's function.
fn name_of<'a>(l: &'a Loaded, table: &KeyTable, key: u64) -> &'a [u8] {
    if key >= table.names.len() {
        return b"no key";
    }
    let function = table.names.key(key).function as usize;
    match l.profile.get().text.as_slice().get(function) {
        None => b"no text",
        Some(name) => name.as_slice(),
    }
}

// No pattern is in force.
fn no_verdicts(alloc: Global) -> Verdicts
    ensures { (p : Profile) → HasVerdicts p result }
{
    Verdicts {
        focus: None,
        ignore: None,
        hide: None,
        show: None,
        show_from: None,
        prune_from: None,
        tagshow: None,
        taghide: None,
        own: None,
        tag: List::new(alloc),
        tagfocus: List::new(alloc),
        tagignore: List::new(alloc),
    }
}
