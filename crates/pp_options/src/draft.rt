//! What the words before a place ask for.
ghost use Rattle.std.specs.Prelude.{◌≡◌, ◌+◌, ◌≤◌, length, is_some, nat_lt, IsTrue};
ghost use Rattle.std.specs.List.{list_all};
ghost use Rattle.pp_options.specs.Conditions.{is_fair, has_pattern};

use crate::Origin;
use pp_base::{List, Text};
use pp_model::{BaseKind, Config, Report};

/// What the words before a place ask for; as a `Plan`, but that there may be no origin yet.
#[derive(Debug, Drop)]
pub struct Draft {
    /// The sources in the order of their words.
    pub origins: List<Origin>,
    /// The paths of the bases in the order of their words.
    pub bases: List<Text>,
    /// How the bases are taken off; there exactly where there is a base.
    pub base_kind: Option<BaseKind>,
    /// What the last `-normalize` said, and false before the first.
    pub normalize: bool,
    /// The number of the first word that asks to normalize.
    pub normalized_at: Option<u64>,
    /// The report, where a word named one.
    pub report: Option<Report>,
    /// The variables as the words set them, and the others at their defaults.
    pub config: Config,
    pub ghost few: { length origins + length bases ≤ 256 },
    pub ghost fair: { IsTrue (list_all is_fair origins) },
    pub ghost kind_with_bases: { is_some base_kind ≡ nat_lt 0 (length bases) },
    pub ghost noted: { IsTrue normalize → IsTrue (is_some normalized_at) },
    pub ghost patterned: { IsTrue (has_pattern report) },
}
