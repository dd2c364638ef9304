//! A profile with the verdicts of its own two patterns.
ghost use Rattle.std.specs.Prelude.{◌≡◌, length};
ghost use Rattle.std.specs.Option.{ForSome};

use crate::valid::Compact;
use pp_base::List;

/// A profile that reports are made of. A verdict says whether a pattern finds the text of that index.
#[derive(Debug, Drop)]
pub struct Loaded {
    /// The tables, in which ids are places from 1 and no text stands twice.
    pub profile: Compact,
    /// What `drop_frames` finds, where it is in force.
    pub drop: Option<List<bool>>,
    /// What `keep_frames` finds, where it is in force.
    pub keep: Option<List<bool>>,
    pub ghost drop_fits: { ForSome drop (λ found. length found ≡ length profile.text) },
    pub ghost keep_fits: { ForSome keep (λ found. length found ≡ length profile.text) },
}
