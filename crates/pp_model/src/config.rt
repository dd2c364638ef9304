//! The variables that a session keeps, in groups by what reads them.
ghost use Rattle.std.specs.Prelude.{◌≡◌, IfOk};

use crate::{Environment, Filtering, Grouping, Presentation};
use pp_base::Memory;
use std::alloc::Global;

/// All variables. An empty text means that its variable isn't in force.
#[derive(Debug, Drop)]
pub struct Config {
    /// What a key is.
    pub grouping: Grouping,
    /// What is kept of samples, frames and labels.
    pub filtering: Filtering,
    /// Which values and rows are shown, and how.
    pub presentation: Presentation,
    /// What the machine lends: threads, and places of source files.
    pub environment: Environment,
}

impl Config {
    ghost use Rattle.pp_model.specs.Defaults.{defaults};

    /// Each variable at its default.
    pub fn standard(alloc: Global) -> Result<Config, Memory>
        ensures { IfOk result (λ config. config ≡ defaults) }
    {
        Ok(Config {
            grouping: Grouping::standard(),
            filtering: Filtering::standard(alloc),
            presentation: Presentation::standard(alloc),
            environment: Environment::standard(alloc),
        })
    }

    /// A copy of all variables.
    pub fn copy(&self, alloc: Global) -> Result<Config, Memory>
        ensures { IfOk result (λ config. config ≡ self.now) }
    {
        let filtering = self.filtering.copy(alloc)?;
        let presentation = self.presentation.copy(alloc)?;
        let environment = self.environment.copy(alloc)?;
        Ok(Config {
            grouping: self.grouping,
            filtering,
            presentation,
            environment,
        })
    }
}
