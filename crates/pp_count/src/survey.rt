//! What a report looks at.
ghost use Rattle.std.proofs.Props.{props};
ghost use Rattle.pp_count.specs.Counted.{CanCount, IsCountedOf};
ghost use Rattle.pp_count.specs.Filters.{AreFilters};
ghost use Rattle.pp_count.specs.Table.{IsKeyTable};

use crate::counted::Counted;
use crate::filters::Filters;
use crate::table::KeyTable;
use pp_keys::HashKeys;
use pp_model::{Config, Loaded, Verdicts};

/// What a report looks at. It is made once for a report, after its samples are counted, and only read.
#[derive(Clone, Copy)]
pub struct Survey<'a> {
    /// The profile.
    pub l: &'a Loaded,
    /// What the report's patterns find in it.
    pub v: &'a Verdicts,
    /// The options.
    pub config: &'a Config,
    /// The column of values that is counted.
    pub column: Option<u32>,
    /// What the samples come to.
    pub counted: &'a Counted,
    pub ghost can: { CanCount l.now.profile v.now config.now.filtering column } by { Prim.hlevel props },
    pub ghost counts: { IsCountedOf l.now v.now config.now column counted.now } by { Prim.hlevel props },
}

impl<'a> Survey<'a> {
    /// The filters of the report, ready for its samples.
    pub fn filters(&self) -> &'a Filters
        ensures { AreFilters self.now.l.now.profile self.now.v.now self.now.config.now.filtering
            result.now }
    {
        &self.counted.filters
    }

    /// The key numbers of the report's lines of each location.
    pub fn table(&self) -> &'a KeyTable
        ensures { IsKeyTable self.now.l.now.profile self.now.config.now.grouping result.now }
    {
        &self.counted.table
    }

    /// What tables of the report are hashed by.
    pub fn hash_keys(&self) -> HashKeys {
        self.counted.table.names.hash_keys()
    }
}
