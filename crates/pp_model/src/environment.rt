//! What the machine lends a session. No figure depends on it.
ghost use Rattle.std.specs.Prelude.{◌≡◌, ◌≤◌, IfOk};

use pp_base::{Memory, Text};
use std::alloc::Global;

/// The default of `workers`.
pub const WORKERS: u32 = 4;

/// The variables that say how many threads work and where source files lie. An empty text means that its variable isn't
/// in force.
#[derive(Debug, Drop)]
pub struct Environment {
    /// Where source files are looked for, joined by colons.
    pub source_path: Text,
    /// What is taken off the front of source paths, joined by colons.
    pub trim_path: Text,
    /// How many threads may work, from 1 to 64.
    pub workers: u32,
    pub ghost workers_from: { 1 ≤ workers },
    pub ghost workers_to: { workers ≤ 64 },
}

impl Environment {
    ghost use Rattle.pp_model.specs.Defaults.{standard_environment};

    /// Each variable at its default.
    pub fn standard(alloc: Global) -> Environment
        ensures { result ≡ standard_environment }
    {
        Environment {
            source_path: Text::new(alloc),
            trim_path: Text::new(alloc),
            workers: WORKERS,
        }
    }

    /// A copy of these variables.
    pub fn copy(&self, alloc: Global) -> Result<Environment, Memory>
        ensures { IfOk result (λ copy. copy ≡ self.now) }
    {
        let source_path = Text::from_slice(alloc, self.source_path.as_slice())?;
        let trim_path = Text::from_slice(alloc, self.trim_path.as_slice())?;
        Ok(Environment {
            source_path,
            trim_path,
            workers: self.workers,
        })
    }
}
