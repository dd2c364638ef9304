//! A call at each item of a list, on several threads.
ghost use Rattle.std.specs.Prelude.{◌+◌, length};
ghost use Rattle.std.specs.Fork.{AcceptsAt, ChangesAt, AcceptsEach, ChangesEach};
ghost use denote.Param.Send.{IsSend, IsSync};
ghost use Rattle.pp_steal.specs.Spread.{AllFrom, ChangesFrom};

use std::thread;
use std::thread::Threads;

/// Calls `f` with each place of `items` and the item there, on at most `threads` threads, each over one part of the list.
///
/// The caller's thread starts all others, one after another. Were they to start each other, several would start at one
/// moment, and a system often puts two such on one processor. The caller goes over the last part itself, and over each
/// part for which no thread can be made. Fewer than 2 threads are the caller's alone.
pub fn for_each_on<R: Threads + Sync, T: Send, F: Fn(usize, &mut T) + Sync>(
    rt: &R,
    items: &mut [T],
    threads: usize,
    f: &F,
)
    requires accepts { AcceptsEach F.Fn f.now items.old }
    ensures { ChangesEach F.Fn f.now items.old items.new }
{
    each_from(rt, f, 0, threads, items);
}

// `for_each_on` over the items of a list from the place `from` on.
#[cycle(spreading)]
fn each_from<R: Threads + Sync, T: Send, F: Fn(usize, &mut T) + Sync>(
    rt: &R,
    f: &F,
    from: usize,
    threads: usize,
    items: &mut [T],
)
    requires { AllFrom (AcceptsAt F.Fn f.now) from items.old }
    ensures { ChangesFrom (ChangesAt F.Fn f.now) from items.old items.new }
{
    if threads < 2 || items.len() < 2 {
        each_here(f, from, items);
        return;
    }
    let size = items.len().div_ceil(threads);
    let (part, rest) = items.split_at_mut(size);
    beside(rt, f, from, part, threads - 1, rest);
}

// Calls `f` with the items of `part`, which begins at `from`, on another thread, and with `rest`, which follows, as
// `each_from` does.
#[cycle(spreading)]
fn beside<R: Threads + Sync, T: Send, F: Fn(usize, &mut T) + Sync>(
    rt: &R,
    f: &F,
    from: usize,
    part: &mut [T],
    threads: usize,
    rest: &mut [T],
)
    requires part { AllFrom (AcceptsAt F.Fn f.now) from part.old }
    requires rest { AllFrom (AcceptsAt F.Fn f.now) (from + length part.old) rest.old }
    ensures part { ChangesFrom (ChangesAt F.Fn f.now) from part.old part.new }
    ensures rest { ChangesFrom (ChangesAt F.Fn f.now) (from + length part.old) rest.old rest.new }
{
    let next = from + part.len();
    let mut there = ||
        requires { IsSync F.row × IsSend T.row × AllFrom (AcceptsAt F.Fn f.now) from part.now }
        ensures { ChangesFrom (ChangesAt F.Fn f.entry.now) from part.entry.now part.exit.now }
    { each_here(f, from, part) };
    let mut here = ||
        requires { IsSync R.row × IsSync F.row × IsSend T.row × AllFrom (AcceptsAt F.Fn f.now) next rest.now }
        ensures { ChangesFrom (ChangesAt F.Fn f.entry.now) next rest.entry.now rest.exit.now }
    { each_from(rt, f, next, threads, rest) };
    thread::join_mut(rt, &mut there, &mut here);
}

// Calls `f` with the items of a part of a list, which begins at the place `from`.
fn each_here<T, F: Fn(usize, &mut T)>(f: &F, from: usize, part: &mut [T])
    requires { AllFrom (AcceptsAt F.Fn f.now) from part.old }
    ensures { ChangesFrom (ChangesAt F.Fn f.now) from part.old part.new }
{
    for index in 0..part.len() {
        one_here(f, from + index, &mut part[index]);
    }
}

// Calls `f` with the item at `place`.
fn one_here<T, F: Fn(usize, &mut T)>(f: &F, place: usize, item: &mut T)
    requires { AcceptsAt F.Fn f.now place item.old }
    ensures { ChangesAt F.Fn f.now place item.old item.new }
{
    f(place, item);
}
