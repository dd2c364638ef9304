//! Functions that stand once.
ghost use Rattle.std.specs.Prelude.{◌≡◌, IfOk};
ghost use Rattle.pp_share.specs.Shared.{with_shared_functions};
ghost use Rattle.pp_share.specs.FunctionKeys.{function_key};

use crate::change::change_each;
use crate::first_sight::{Keyed, keep_firsts};
use crate::ids::Ids;
use crate::renumbering::Renumbering;
use pp_base::Memory;
use pp_keys::HashKeys;
use pp_model::{Function, Profile};
use std::alloc::Global;
use std::mem;

/// What tells a function apart where texts stand once: three text indices, and the first line.
#[derive(Clone, Copy, Debug, PartialEq, Eq, Hash)]
pub struct FunctionKey {
    /// The text index of the name in the form for people.
    pub name: i64,
    /// The text index of the name as the linker has it.
    pub system_name: i64,
    /// The text index of the path of the source file.
    pub filename: i64,
    /// The line in that file where the function begins; 0 where it isn't known.
    pub start_line: i64,
}

impl Keyed<FunctionKey> for Function {
    ghost key_of = { function_key };

    fn key(&self) -> FunctionKey {
        FunctionKey {
            name: self.name,
            system_name: self.system_name,
            filename: self.filename,
            start_line: self.start_line,
        }
    }
}

/// The profile, whose texts stand once, with each function once, in the order of first sight.
pub fn share_functions(
    alloc: Global,
    hash_keys: HashKeys,
    mut p: Profile,
) -> Result<Profile, Memory>
    ensures { IfOk result (λ r. r ≡ with_shared_functions p) }
{
    let (functions, ids) = keep_firsts(alloc, hash_keys, p.function.as_slice())?;
    p.function = functions;
    let by = Renumbering {
        text: Ids::Same,
        mapping: Ids::Same,
        function: Ids::By(ids),
        location: Ids::Same,
    };
    change_each(&mut p.location, &by);
    mem::drop(by);
    Ok(p)
}
