//! The paths of a report's samples.
ghost use Rattle.std.specs.Prelude.{◌≡◌, ℕ, ◌+◌, ◌<◌, ◌≤◌, ◌^◌, ◌++◌, ◌∷◌, [], length, reverse, take, drop, List as Seq, IfOk};
ghost use Rattle.pp_count.specs.Column.{selected};
ghost use Rattle.pp_count.specs.Scope.{IsSoundScope, samples_in_scope};
ghost use Rattle.pp_count.specs.Sums.{Seen};
ghost use Rattle.pp_calltree.specs.CallTree.{rooted};
ghost use Rattle.pp_calltree.specs.Paths.{rooted_if, AreKeptAs, HasPaths};

use crate::path::PathPart;
use pp_base::{List, Memory};
use pp_count::{Scope, sample_at, see, selected};
use pp_model::Sample;
use std::alloc::Global;

/// The paths of samples, one behind the other.
#[derive(Drop)]
pub struct Paths {
    /// The key numbers of all paths, each root first.
    pub keys: Vec<u32>,
    /// Which of these each path has, in order.
    pub parts: Vec<PathPart>,
}

impl Paths {
    /// No paths.
    pub fn none(alloc: Global) -> Paths
        ensures { AreKeptAs result [] }
    {
        Paths {
            keys: Vec::new(alloc),
            parts: Vec::new(alloc),
        }
    }

    /// Adds the paths of the samples that follow.
    pub fn join(&mut self, more: &Paths) -> Result<(), Memory>
        ensures { (a : Seq (Seen ℕ)) (b : Seq (Seen ℕ)) → AreKeptAs self.old a → AreKeptAs more.now b →
            IfOk result (λ _. AreKeptAs self.new (a ++ b)) }
    {
        self.keys.extend_from_slice(&more.keys)?;
        self.parts.extend_from_slice(&more.parts)?;
        Ok(())
    }

    // Adds a sample of this value with these keys, leaf first.
    fn add(&mut self, value: i64, keys: &[u64]) -> Result<(), Memory>
        ensures { (samples : Seq (Seen ℕ)) → AreKeptAs self.old samples →
            IfOk result (λ _. AreKeptAs self.new
            (samples ++ rooted (record { value = value; keys = keys.now }) ∷ [])) }
    {
        put_rooted(keys, &mut self.keys)?;
        self.parts.push(PathPart {
            value,
            len: keys.len(),
        })?;
        Ok(())
    }
}

// Adds the keys at the end, the last one first.
fn put_rooted(keys: &[u64], out: &mut Vec<u32>) -> Result<(), Memory>
    ensures { IfOk result (λ _. out.new.items ≡ out.old.items ++ reverse keys.now) }
{
    let mut left = keys.len();
    while left > 0 {
        left -= 1;
        out.push(number(keys[left])?)?;
    }
    Ok(())
}

/// The paths of `count` of the samples that the scope chooses, from the place `first` on. Those of value 0 have none.
pub fn gather_range(alloc: Global, scope: &Scope, first: u32, count: u32) -> Result<Paths, Memory>
    requires sound { IsSoundScope scope.now }
    requires few { length (samples_in_scope scope.now) < 2 ^ 32 }
    requires within { first + count ≤ length (samples_in_scope scope.now) }
    ensures { IfOk result (HasPaths scope.now (take count (drop first (samples_in_scope scope.now)))) }
{
    let mut stack = List::new(alloc);
    let mut keys = Vec::new(alloc);
    let mut paths = Paths::none(alloc);
    for index in 0..count {
        let sample = sample_at(scope, (first + index) as usize);
        if see(scope, sample, &mut stack, &mut keys)? {
            add_sample(scope, &mut paths, sample, &keys)?;
        }
    }
    Ok(paths)
}

// Adds a sample with these keys, leaf first.
fn add_sample(scope: &Scope, paths: &mut Paths, sample: &Sample, keys: &[u64]) -> Result<(), Memory>
    requires { IsSoundScope scope.now }
    ensures { (samples : Seq (Seen ℕ)) → AreKeptAs paths.old samples →
        IfOk result (λ _. AreKeptAs paths.new (samples ++ rooted_if
        (selected scope.now.column scope.now.config.now.presentation.divide_by sample.now)
        keys.now)) }
{
    let value = selected(
        scope.l,
        sample,
        scope.column,
        scope.config.presentation.divide_by,
    );
    add_path(paths, value, keys)
}

// Adds a sample of this value with these keys, leaf first. One of value 0 has no path.
fn add_path(paths: &mut Paths, value: i64, keys: &[u64]) -> Result<(), Memory>
    ensures { (samples : Seq (Seen ℕ)) → AreKeptAs paths.old samples →
        IfOk result (λ _. AreKeptAs paths.new (samples ++ rooted_if value keys.now)) }
{
    if value == 0 {
        return Ok(());
    }
    paths.add(value, keys)
}

/// The number, where it is below 2^32. No more nodes or keys than that have room.
pub fn number(n: u64) -> Result<u32, Memory>
    ensures { IfOk result (λ r. r ≡ n) }
{
    if n > u32::MAX as u64 {
        return Err(Memory);
    }
    Ok(n as u32)
}
