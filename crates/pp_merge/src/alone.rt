//! A profile that is merged alone.
ghost use Rattle.std.specs.Prelude.{◌≡◌, [], IfOk};
ghost use Rattle.pp_model.specs.Words.{IsCountable};
ghost use Rattle.pp_merge.specs.Merge.{merged};

use crate::merging::{merge, merge_plain_on};
use crate::refusal::MergeRefusal;
use pp_base::{List, Memory};
use pp_keys::HashKeys;
use pp_model::{Compact, Valid};
use pp_steal::Resources;
use std::alloc::Global;
use std::thread::Threads;

/// The profile merged alone: equal things once, the values of equal samples added up, and what no sample with a value
/// names left out. One profile agrees with itself and its columns can be added up, so nothing is refused.
pub fn merge_alone(alloc: Global, hash_keys: HashKeys, p: Valid) -> Result<Compact, Memory>
    requires { IsCountable p }
    ensures { IfOk result (λ q. q ≡ merged p []) }
{
    let mut list = List::new(alloc);
    list.push(p)?;
    match merge(alloc, hash_keys, list) {
        Ok(q) => Ok(q),
        Err(MergeRefusal::Memory) => Err(Memory),
        Err(MergeRefusal::Incompatible { .. }) => unreachable!(),
        Err(MergeRefusal::TotalTooLarge { .. }) => unreachable!(),
    }
}

/// The profile that `merge_alone` gives, made by `with.workers` lanes. It does not tell how many there were.
pub fn merge_alone_on<R: Threads + Sync>(
    with: &Resources<'_, R>,
    p: Valid,
) -> Result<Compact, Memory>
    requires { IsCountable p }
    ensures { IfOk result (λ q. q ≡ merged p []) }
{
    let mut list = List::new(with.alloc);
    list.push(p)?;
    match merge_plain_on(with, list) {
        Ok(q) => Ok(q),
        Err(MergeRefusal::Memory) => Err(Memory),
        Err(MergeRefusal::Incompatible { .. }) => unreachable!(),
        Err(MergeRefusal::TotalTooLarge { .. }) => unreachable!(),
    }
}
