// Rules 4 to 9: the ids of mappings, functions and locations are not 0, and distinct.
ghost use Rattle.std.specs.Prelude.{◌≡◌, ◌<◌, ◌^◌, [], length, map, nat_lt, IfOk, IfSome, IfNone};
ghost use Rattle.pp_model.specs.Rules.{first_failing, first_repeated};
ghost use Rattle.pp_check.specs.Known.{Knows};
ghost use Rattle.pp_check.specs.FirstFault.{id_faults};
ghost use Rattle.pp_check.specs.Finds.{first_fault_of, AnswersFault};

use crate::fault::{CheckRefusal, Table, refuse};
use crate::known::IdSet;
use pp_base::Memory;
use pp_keys::HashKeys;
use pp_model::HasId;
use std::alloc::Global;

/// The ids of `items`, or the first fault of them: by the rule of number `rule`, an id that is 0, and by the next rule an
/// id that stands earlier.
pub fn known_ids<T: HasId>(
    alloc: Global,
    keys: HashKeys,
    rule: u8,
    table: Table,
    items: &[T],
) -> Result<IdSet, CheckRefusal>
    requires numbers { rule < 255 }
    requires indexed { length items.now < 2 ^ 32 }
    ensures faults { AnswersFault (first_fault_of (id_faults rule table (map T.id_of items.now))) result }
    ensures known { IfOk result (λ known. Knows known (map T.id_of items.now)) }
{
    refuse(rule, table, zero_id(items))?;
    let mut known = IdSet::new(alloc, keys);
    refuse(rule + 1, table, repeated_id(items, &mut known)?)?;
    Ok(known)
}

// The least index of an id that is 0.
fn zero_id<T: HasId>(items: &[T]) -> Option<usize>
    ensures fault { result ≡ first_failing (λ id. nat_lt 0 id) (map T.id_of items.now) }
    ensures within { IfSome result (λ index. index < length items.now) }
{
    items.iter().map(|item| item.id()).position(|id| !is_id(id))
}

// Whether the number may be an id.
fn is_id(id: u64) -> bool
    ensures { result ≡ nat_lt 0 id }
{
    0 < id
}

// The least index of an id that stands earlier. Where there is none, all ids are known afterwards.
fn repeated_id<T: HasId>(items: &[T], known: &mut IdSet) -> Result<Option<usize>, Memory>
    requires { Knows known.old [] }
    ensures fault { IfOk result (λ found. found ≡ first_repeated (map T.id_of items.now)) }
    ensures within { IfOk result (λ found. IfSome found (λ index. index < length items.now)) }
    ensures known { IfOk result (λ found. IfNone found (Knows known.new (map T.id_of items.now))) }
{
    for (index, item) in items.iter().enumerate() {
        let id = item.id();
        let added = known.insert(id)?;
        if !added {
            return Ok(Some(index));
        }
    }
    Ok(None)
}
