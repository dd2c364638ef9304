//! What the patterns of a report find.

use pp_base::List;

/// A place for a pattern, in the order in which matches are noted.
#[derive(Clone, Copy, Debug, PartialEq, Eq)]
pub enum Slot {
    Focus,
    Ignore,
    Hide,
    Show,
    ShowFrom,
    TagFocus,
    TagIgnore,
    PruneFrom,
    TagShow,
    TagHide,
    /// The pattern of a peek or list report.
    Own,
}

/// The text indices of a text label's key and value.
#[derive(Clone, Copy, Debug, PartialEq, Eq)]
pub struct Tag {
    /// The text index of the label's name.
    pub key: i64,
    /// The text index of the label's value.
    pub text: i64,
}

/// One truth value per text, None where the pattern isn't in force. `tagfocus` and `tagignore` have a
/// list per part of the filter; where the filter has no name, it has a truth value per entry of `tag`.
#[derive(Debug, Drop)]
pub struct Verdicts {
    /// By text: a stack must have a frame that is found.
    pub focus: Option<List<bool>>,
    /// By text: a stack may have no frame that is found.
    pub ignore: Option<List<bool>>,
    /// By text: frames that are found are left out.
    pub hide: Option<List<bool>>,
    /// By text: frames that are not found are left out.
    pub show: Option<List<bool>>,
    /// By text: what lies above the frame nearest to the root that is found is left out.
    pub show_from: Option<List<bool>>,
    /// By text: what lies below a frame that is found is left out.
    pub prune_from: Option<List<bool>>,
    /// By text: label names that are not found are left out.
    pub tagshow: Option<List<bool>>,
    /// By text: label names that are found are left out.
    pub taghide: Option<List<bool>>,
    /// By text: what the pattern of a peek or list report finds.
    pub own: Option<List<bool>>,
    /// The pairs that a tag filter without a name is asked of.
    pub tag: List<Tag>,
    /// By part of the filter: what it finds of the texts, or of `tag`.
    pub tagfocus: List<List<bool>>,
    /// By part of the filter: what it finds of the texts, or of `tag`.
    pub tagignore: List<List<bool>>,
}
