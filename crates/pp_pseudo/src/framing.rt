//! The profile that a report is made of: the loaded one, or the same with the frames from labels that are asked for.
ghost use Rattle.std.specs.Prelude.{◌≡◌, IfOk, unwrap_or};
ghost use Rattle.pp_model.specs.Sizes.{IsCountable};
ghost use Rattle.pp_pseudo.specs.Basis.{framed_by, framed_for};

use crate::keys::key_list;
use crate::tagging::with_tags;
use pp_base::{List, Memory, Text};
use pp_keys::HashKeys;
use pp_model::{Loaded, Presentation};
use std::alloc::Global;

/// The profile with the frames that `tagroot` and `tagleaf` ask for, None where these name no key. `Err` is want of
/// memory.
pub fn framed_for(
    alloc: Global,
    hash_keys: HashKeys,
    l: &Loaded,
    presentation: &Presentation,
) -> Result<Option<Loaded>, Memory>
    requires { IsCountable l.now.profile }
    ensures framed { IfOk result
        (λ framed. unwrap_or framed l.now ≡ framed_for l.now presentation.now) }
    ensures countable { IfOk result (λ framed. IsCountable (unwrap_or framed l.now).profile) }
{
    let roots = key_list(alloc, presentation.tagroot.as_slice())?;
    let leaves = key_list(alloc, presentation.tagleaf.as_slice())?;
    framed_by(alloc, hash_keys, l, &roots, &leaves)
}

// The profile with the frames of these keys, None where there is no key.
fn framed_by(
    alloc: Global,
    hash_keys: HashKeys,
    l: &Loaded,
    roots: &List<Text>,
    leaves: &List<Text>,
) -> Result<Option<Loaded>, Memory>
    requires { IsCountable l.now.profile }
    ensures framed { IfOk result (λ framed.
        unwrap_or framed l.now ≡ framed_by l.now roots.now leaves.now) }
    ensures countable { IfOk result (λ framed. IsCountable (unwrap_or framed l.now).profile) }
{
    if roots.len() == 0 && leaves.len() == 0 {
        return Ok(None);
    }
    Ok(Some(with_tags(alloc, hash_keys, l, roots, leaves)?))
}

/// The profile with frames from labels, and where there is none the loaded one.
pub fn basis<'a>(framed: &'a Option<Loaded>, l: &'a Loaded) -> &'a Loaded
    ensures { result.now ≡ unwrap_or framed.now l.now }
{
    match framed {
        Some(framed) => framed,
        None => l,
    }
}
