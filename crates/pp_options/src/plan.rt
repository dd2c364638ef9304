//! What the words of a command line ask for.
ghost use Rattle.std.specs.Prelude.{◌≡◌, ◌+◌, ◌<◌, ◌≤◌, length, is_some, nat_lt, IsTrue};
ghost use Rattle.std.specs.List.{list_all};
ghost use Rattle.pp_options.specs.Conditions.{is_fair, has_pattern};

use crate::Origin;
use pp_base::{List, Text};
use pp_model::{BaseKind, Config, Report};

/// What a command line asks for.
#[derive(Debug, Drop)]
pub struct Plan {
    /// The sources in the order of their words, of which there is at least one.
    pub origins: List<Origin>,
    /// The paths of the bases in the order of their words. Origins and bases together are at most 256.
    pub bases: List<Text>,
    /// How the bases are taken off; there exactly where there is a base.
    pub base_kind: Option<BaseKind>,
    /// Whether the sources are scaled to the bases' sums.
    pub normalize: bool,
    /// The report; without one the shell starts. The pattern of peek and list isn't empty.
    pub report: Option<Report>,
    /// The variables, each at the last value that a word gave it, else at its default.
    pub config: Config,
    pub ghost some_origin: { 0 < length origins },
    pub ghost few: { length origins + length bases ≤ 256 },
    pub ghost fair: { IsTrue (list_all is_fair origins) },
    pub ghost kind_with_bases: { is_some base_kind ≡ nat_lt 0 (length bases) },
    pub ghost normalized_by_bases: { IsTrue normalize → IsTrue (is_some base_kind) },
    pub ghost patterned: { IsTrue (has_pattern report) },
}
