//! A fraction of a total.

ghost use Rattle.std.specs.Prelude.{◌≤◌};

/// A fraction from 0 to 1, in billionths.
#[derive(Clone, Copy, Debug, PartialEq, Eq)]
pub struct Fraction {
    /// From 0 to 1,000,000,000.
    pub billionths: u32,
    ghost at_most_one: { billionths ≤ 1_000_000_000 },
}
