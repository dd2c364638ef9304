//! What units measure.
ghost use Rattle.std.specs.Prelude.{◌≡◌};
ghost use Rattle.pp_units.specs.Shown.{smallest};
ghost use Rattle.pp_units.specs.Scales.{family, falling};

use crate::scale::{Scale, scale_of};

/// What a unit measures.
#[derive(Clone, Copy, Debug, PartialEq, Eq)]
pub enum Family {
    /// Nanoseconds to hours.
    Time,
    /// Bytes to petabytes, by powers of 1024.
    Bytes,
    /// Counts, which have no unit.
    Plain,
    /// Any other unit, of which nothing is known but its text.
    Other,
}

static TIMES: [Scale; 5] = [
    Scale::Hours,
    Scale::Seconds,
    Scale::Milliseconds,
    Scale::Microseconds,
    Scale::Nanoseconds,
];

static SIZES: [Scale; 6] = [
    Scale::Petabytes,
    Scale::Terabytes,
    Scale::Gigabytes,
    Scale::Megabytes,
    Scale::Kilobytes,
    Scale::SingleBytes,
];

static COUNTS: [Scale; 1] = [Scale::Counts];

impl Family {
    // The units of the family, the largest first.
    pub(crate) fn falling(self) -> &'static [Scale]
        ensures { result.now ≡ falling self }
    {
        match self {
            Family::Time => &TIMES,
            Family::Bytes => &SIZES,
            Family::Plain => &COUNTS,
            Family::Other => &[],
        }
    }

    pub(crate) fn smallest(self) -> Scale
        ensures { result ≡ smallest self }
    {
        match self {
            Family::Time => Scale::Nanoseconds,
            Family::Bytes => Scale::SingleBytes,
            Family::Plain | Family::Other => Scale::Counts,
        }
    }
}

/// What the unit measures. Its letters may be of either case.
pub fn family_of(unit: &[u8]) -> Family
    ensures { result ≡ family unit.now }
{
    match scale_of(unit) {
        Some(scale) => scale.family(),
        None => Family::Other,
    }
}
