//! What a run is asked for, and the facts in which reports differ.
ghost use Rattle.std.specs.Prelude.{◌≡◌};
ghost use Rattle.std.specs.Option.{option_copied};
ghost use Rattle.pp_model.specs.ReportFacts.{own_option, own_pattern, shows_values, is_counted, is_short, is_of_labels, variable_name, option_name};

use crate::verdicts::Slot;
use pp_base::Text;

/// A report, with the pattern of those that have one of their own.
#[derive(Debug, Drop)]
pub enum Report {
    /// A row for each key that is shown, the greatest first.
    Top,
    /// Each key between its callers and its callees, or the call tree where `path_tree` says so.
    Tree,
    /// The callers and the callees of each key whose function the pattern finds.
    Peek(Text),
    /// Each sample with its stack.
    Traces,
    /// The values by label.
    Tags,
    /// The tables as text.
    Raw,
    /// The comments of the profile.
    Comments,
    /// The profile as the filters leave it, in the bytes of profile.proto.
    Proto,
    /// The values by source line, for the functions that the pattern finds.
    List(Text),
    /// The value of each path, a line each, for programs that draw flame graphs.
    Folded,
    /// The figures of each key, a line each, divided by tabs.
    Table,
    /// The figures of each key before and after a change; it needs a base of the kind `DiffBase`.
    Compare,
    /// What compare shows, exact, a line each, separated by tabs.
    Changes,
    /// What each filter drops, and what the limits leave out.
    Account,
}

// Each fact has a line for each report, so that a new one does not compile before it is thought of.
impl Report {
    /// The option whose value is its own pattern, empty where it has none.
    fn own_option(&self) -> &'static [u8]
        ensures { result.now ≡ own_option self.now }
    {
        match self {
            Report::Peek(_) => b"peek",
            Report::List(_) => b"list",
            Report::Top | Report::Tree | Report::Traces | Report::Tags => b"",
            Report::Raw | Report::Comments | Report::Proto => b"",
            Report::Folded | Report::Table => b"",
            Report::Compare | Report::Changes | Report::Account => b"",
        }
    }

    /// The pattern that it has of its own, None where it has none.
    pub fn own_pattern(&self) -> Option<&Text>
        ensures { option_copied result ≡ own_pattern self.now }
    {
        match self {
            Report::Peek(pattern) | Report::List(pattern) => Some(pattern),
            Report::Top | Report::Tree | Report::Traces | Report::Tags => None,
            Report::Raw | Report::Comments | Report::Proto => None,
            Report::Folded | Report::Table => None,
            Report::Compare | Report::Changes | Report::Account => None,
        }
    }

    /// Whether it shows a column of values, which it is refused without.
    pub fn shows_values(&self) -> bool
        ensures { result ≡ shows_values self.now }
    {
        match self {
            Report::Top | Report::Tree | Report::Peek(_) | Report::List(_) => true,
            Report::Traces | Report::Tags => true,
            Report::Folded | Report::Table => true,
            Report::Compare | Report::Changes | Report::Account => true,
            Report::Raw | Report::Comments | Report::Proto => false,
        }
    }

    /// Whether its patterns are asked and its samples counted. One that isn't gets no frames from labels either.
    pub fn is_counted(&self) -> bool
        ensures { result ≡ is_counted self.now }
    {
        match self {
            Report::Top | Report::Tree | Report::Peek(_) | Report::List(_) => true,
            Report::Traces | Report::Tags | Report::Raw | Report::Proto => true,
            Report::Folded | Report::Table => true,
            Report::Compare | Report::Changes | Report::Account => true,
            Report::Comments => false,
        }
    }

    /// Whether the shell shows few rows of it, where nothing else is said.
    pub fn is_short(&self) -> bool
        ensures { result ≡ is_short self.now }
    {
        match self {
            Report::Top | Report::Compare | Report::Account => true,
            Report::Tree | Report::Peek(_) | Report::List(_) => false,
            Report::Traces | Report::Tags | Report::Folded | Report::Table => false,
            Report::Changes => false,
            Report::Raw | Report::Comments | Report::Proto => false,
        }
    }

    /// Whether patterns behind its command filter labels in the place of frames.
    pub fn is_of_labels(&self) -> bool
        ensures { result ≡ is_of_labels self.now }
    {
        match self {
            Report::Tags => true,
            Report::Top | Report::Tree | Report::Peek(_) | Report::List(_) => false,
            Report::Traces | Report::Folded | Report::Table => false,
            Report::Compare | Report::Changes | Report::Account => false,
            Report::Raw | Report::Comments | Report::Proto => false,
        }
    }

    /// The option whose pattern stands in this place.
    #[tactic(auto, unfolding(crate::specs::ReportFacts::option_name))]
    pub fn option_name(&self, slot: Slot) -> &'static [u8]
        ensures { result.now ≡ option_name self.now slot }
    {
        match slot {
            Slot::Own => self.own_option(),
            variable => variable.name(),
        }
    }
}

impl Slot {
    /// The variable whose pattern stands in this place, empty where it is a report's own.
    pub fn name(self) -> &'static [u8]
        ensures { result.now ≡ variable_name self }
    {
        match self {
            Slot::Focus => b"focus",
            Slot::Ignore => b"ignore",
            Slot::Hide => b"hide",
            Slot::Show => b"show",
            Slot::ShowFrom => b"show_from",
            Slot::TagFocus => b"tagfocus",
            Slot::TagIgnore => b"tagignore",
            Slot::PruneFrom => b"prune_from",
            Slot::TagShow => b"tagshow",
            Slot::TagHide => b"taghide",
            Slot::Own => b"",
        }
    }
}

/// How a base is taken off: alone, or beside a label that says which samples are the base's.
#[derive(Clone, Copy, Debug, PartialEq, Eq)]
pub enum BaseKind {
    /// The negated samples of the base are merged with the source's (`-base`).
    Base,
    /// The negated samples carry the label `pprof::base` of the text `true`, and percentages are of the base
    /// (`-diff_base`).
    DiffBase,
}
