// The first rule that a profile breaks.
ghost use Rattle.std.specs.Prelude.{◌≡◌, ◌<◌, ◌^◌, IfSome};
ghost use Rattle.pp_check.specs.declared.fault.CheckRefusal.TheVariants as refusals;
ghost use Rattle.pp_check.specs.Finds.{rule_fault, FindsFault};

use pp_base::Memory as WantOfMemory;
use std::alloc::{AllocError, AllocFailed};
use thiserror::Error;

/// A table of a profile. The header, which is no list, counts as a table with the index 0.
#[derive(Clone, Copy, Debug, PartialEq, Eq)]
pub enum Table {
    /// The texts (`string_table`).
    Texts,
    /// The text indices that stand once: of the period type, the two patterns, the default type and the address of the
    /// documentation.
    Header,
    /// The text indices of the comments.
    Comments,
    /// The sample types.
    SampleTypes,
    /// The samples, their values and labels included.
    Samples,
    /// The mappings.
    Mappings,
    /// The functions.
    Functions,
    /// The locations, their lines included.
    Locations,
}

/// The first table rule that fails, from 1 to 12, with the table and the least index at which it fails.
#[derive(Clone, Copy, Debug, PartialEq, Eq, Error)]
#[error("table rule {rule} fails at index {index}")]
pub struct TableFault {
    /// The number of the rule, from 1 to 12.
    pub rule: u8,
    /// The table that the rule was tried on.
    pub table: Table,
    /// The least index at which the rule fails, from 0.
    pub index: u32,
}

/// Why a profile was not accepted.
#[derive(Clone, Copy, Debug, PartialEq, Eq, Error)]
pub enum CheckRefusal {
    /// A table rule fails.
    #[error("{0}")]
    Fault(TableFault),
    /// Want of memory.
    #[error("out of memory")]
    Memory,
}

impl From<TableFault> for CheckRefusal {
    ghost from_gives = { λ fault e. e ≡ refusals.Fault fault };

    fn from(fault: TableFault) -> Self {
        CheckRefusal::Fault(fault)
    }
}

impl From<WantOfMemory> for CheckRefusal {
    ghost from_gives = { λ _ e. e ≡ refusals.Memory };

    fn from(_: WantOfMemory) -> Self {
        CheckRefusal::Memory
    }
}

/// Refuses a profile whose rule fails somewhere.
pub fn refuse(rule: u8, table: Table, found: Option<usize>) -> Result<(), TableFault>
    requires { IfSome found (λ index. index < 2 ^ 32) }
    ensures { FindsFault (rule_fault rule table found) result }
{
    match found {
        Some(index) => Err(TableFault {
            rule,
            table,
            index: index as u32,
        }),
        None => Ok(()),
    }
}
