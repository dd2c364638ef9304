//! Assignments.
ghost use Rattle.std.specs.Prelude.{◌≡◌, OnErr};
ghost use Rattle.pp_options.specs.Assigning.{Sets};
ghost use Rattle.pp_options.specs.declared.assigning.SetRefusal.TheVariants as refusals;

use crate::{setting_of, variable_named};
use pp_base::Memory as WantOfMemory;
use pp_model::Config;
use std::alloc::Global;
use thiserror::Error;

/// Why a variable was not given a value.
#[derive(Clone, Copy, Debug, PartialEq, Eq, Error)]
pub enum SetRefusal {
    /// No variable has the name.
    #[error("no such variable")]
    UnknownName,
    /// The variable can't have the value.
    #[error("bad value")]
    BadValue,
    /// Want of memory.
    #[error("out of memory")]
    Memory,
}

impl From<WantOfMemory> for SetRefusal {
    ghost from_gives = { λ _ e. e ≡ refusals.Memory };

    fn from(_: WantOfMemory) -> Self {
        SetRefusal::Memory
    }
}

/// Gives the variable of the name the value that the text spells. On a refusal nothing changes.
#[tactic(auto, unfolding(crate::specs::Assigning::set))]
pub fn set(alloc: Global, config: &mut Config, name: &[u8], value: &[u8]) -> Result<(), SetRefusal>
    ensures set { Sets config.old name.now value.now config.new result }
    ensures err { OnErr result (config.new ≡ config.old) }
{
    let Some(variable) = variable_named(name) else {
        return Err(SetRefusal::UnknownName);
    };
    let Some(setting) = setting_of(alloc, variable, value)? else {
        return Err(SetRefusal::BadValue);
    };
    setting.assign(config);
    Ok(())
}
