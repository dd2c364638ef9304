//! Lists of keys, as options spell them.
ghost use Rattle.std.specs.Prelude.{◌≡◌, ◌++◌, [], ◌∷◌, IfOk, OnOk, if◌then◌else◌};
ghost use Rattle.pp_stack.specs.Filters.{has_no_items};
ghost use Rattle.pp_pseudo.specs.KeyList.{key_list};

use pp_base::{List, Memory, Text};
use pp_units::cut_at;
use std::alloc::Global;

/// The parts of the text between commas, in order, without the empty ones. `Err` is want of memory.
pub fn key_list(alloc: Global, text: &[u8]) -> Result<List<Text>, Memory>
    ensures { IfOk result (λ keys. keys ≡ key_list text.now) }
{
    let mut keys = List::new(alloc);
    let mut rest = text;
    while let Some((part, after)) = cut_at(rest, b',') {
        push_key(alloc, part, &mut keys)?;
        rest = after;
    }
    push_key(alloc, rest, &mut keys)?;
    Ok(keys)
}

// Adds the part, unless it is empty.
fn push_key(alloc: Global, part: &[u8], keys: &mut List<Text>) -> Result<(), Memory>
    ensures { OnOk result
        (keys.new ≡ (if has_no_items part.now then keys.old else keys.old ++ part.now ∷ [])) }
{
    if part.is_empty() {
        return Ok(());
    }
    keys.push(Text::from_slice(alloc, part)?)
}
