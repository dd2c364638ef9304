//! A profile without its samples, of which only the places are noted.
ghost use Rattle.std.specs.Prelude.{◌<◌, ◌^◌, length, IfOk};
ghost use Rattle.pp_tables.specs.Skim.{IsSkimmed};

use crate::ReadRefusal;
use crate::extent::{Extent, push_extent};
use crate::message::{Message, fill};
use pp_base::List;
use pp_model::Profile;
use pp_wire::Field;
use std::alloc::Global;

/// A profile, and where its samples lie.
#[derive(Drop)]
pub(crate) struct Skimmed {
    /// The profile without its samples.
    pub(crate) profile: Profile,
    /// The payloads of the samples, in order. Nothing was asked of their bytes.
    pub(crate) samples: List<Extent>,
}

impl Message for Skimmed {
    ghost use Rattle.pp_tables.specs.Skim.{skim_rules, no_skim, skim_put, skim_after, skim_none, skim_more};

    ghost rules = { skim_rules };

    ghost empty = { no_skim };

    ghost put = { skim_put };

    ghost filled = { skim_after };

    fn none(alloc: Global) -> Self {
        Skimmed {
            profile: Profile::none(alloc),
            samples: List::new(alloc),
        }
    }

    fn take(&mut self, alloc: Global, field: &Field<'_>) -> Result<(), ReadRefusal> {
        match field.number {
            // repeated Sample sample = 2;
            2 => push_extent(&mut self.samples, field),
            _ => self.profile.take(alloc, field),
        }
    }

    ghost filled_none = { skim_none };

    ghost filled_more = { skim_more };
}

/// Reads all fields of a file's bytes but the samples, and notes where these lie.
pub(crate) fn skim(alloc: Global, bytes: &[u8]) -> Result<Skimmed, ReadRefusal>
    requires { length bytes.now < 2 ^ 32 }
    ensures { IfOk result (IsSkimmed bytes.now) }
{
    let mut skimmed = Skimmed::none(alloc);
    fill(alloc, &mut skimmed, bytes, 0)?;
    Ok(skimmed)
}
