//! Which values and rows are shown, in which order and unit.
ghost use Rattle.std.specs.Prelude.{◌≡◌, ◌<◌, ◌≤◌, ◌≤ℤ◌, ◌^◌, negsuc, IfOk};

use pp_base::{Fraction, Memory, Text};
use std::alloc::Global;

/// The default of `nodefraction`, in billionths: one part in 200.
pub const NODE_FRACTION: u32 = 5_000_000;

/// The default of `edgefraction`, in billionths: one part in 1,000.
pub const EDGE_FRACTION: u32 = 1_000_000;

/// What rows are sorted by.
#[derive(Clone, Copy, Debug, PartialEq, Eq)]
pub enum Sort {
    /// The sum over the samples whose leaf has the key.
    Flat,
    /// The sum over the samples that have the key at any frame.
    Cum,
}

/// The variables that say what is shown. An empty text means that its variable isn't in force.
#[derive(Debug, Drop)]
pub struct Presentation {
    /// Which figure of a key its row is ordered by; the greater absolute value comes first.
    pub sort: Sort,
    /// Whether the tree report tells functions apart by their path from the root.
    pub path_tree: bool,
    /// The most rows of a report, 0 for no limit, and -1 for the report's own number.
    pub nodecount: i32,
    /// The least part of the total that the cum of a row has, by absolute values.
    pub nodefraction: Fraction,
    /// The least part of the total that an edge has, by absolute values.
    pub edgefraction: Fraction,
    /// The name of the sample type that reports show, or its place.
    pub sample_index: Text,
    /// The unit that values are printed in.
    pub unit: Text,
    /// Whether percentages are of what the filters left, and not of the whole profile.
    pub relative_percentages: bool,
    /// What each value is divided by, from 1 to 2^63-1.
    pub divide_by: u64,
    /// The label names whose values are shown as frames at the root, joined by commas.
    pub tagroot: Text,
    /// The label names whose values are shown as frames at the leaf, joined by commas.
    pub tagleaf: Text,
    pub ghost nodecount_from: { negsuc 0 ≤ℤ nodecount },
    pub ghost divisor_from: { 1 ≤ divide_by },
    pub ghost divisor_below: { divide_by < 2 ^ 63 },
}

impl Presentation {
    ghost use Rattle.pp_model.specs.Defaults.{standard_presentation};

    /// Each variable at its default.
    pub fn standard(alloc: Global) -> Presentation
        ensures { result ≡ standard_presentation }
    {
        Presentation {
            sort: Sort::Flat,
            path_tree: false,
            nodecount: -1,
            nodefraction: Fraction {
                billionths: NODE_FRACTION,
            },
            edgefraction: Fraction {
                billionths: EDGE_FRACTION,
            },
            sample_index: Text::new(alloc),
            unit: Text::new(alloc),
            relative_percentages: false,
            divide_by: 1,
            tagroot: Text::new(alloc),
            tagleaf: Text::new(alloc),
        }
    }

    /// A copy of these variables.
    pub fn copy(&self, alloc: Global) -> Result<Presentation, Memory>
        ensures { IfOk result (λ copy. copy ≡ self.now) }
    {
        let sample_index = Text::from_slice(alloc, self.sample_index.as_slice())?;
        let unit = Text::from_slice(alloc, self.unit.as_slice())?;
        let tagroot = Text::from_slice(alloc, self.tagroot.as_slice())?;
        let tagleaf = Text::from_slice(alloc, self.tagleaf.as_slice())?;
        Ok(Presentation {
            sort: self.sort,
            path_tree: self.path_tree,
            nodecount: self.nodecount,
            nodefraction: self.nodefraction,
            edgefraction: self.edgefraction,
            sample_index,
            unit,
            relative_percentages: self.relative_percentages,
            divide_by: self.divide_by,
            tagroot,
            tagleaf,
        })
    }
}
