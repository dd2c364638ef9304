//! What is settled before the text of a report is made.

use crate::shows::Shows;
use pp_base::Text;
use pp_count::Counted;
use pp_model::{BaseKind, Loaded, Verdicts};

/// What the patterns of a report find, and what its samples come to.
#[derive(Drop)]
pub struct Counts {
    /// What the patterns find, by text or by tag.
    pub verdicts: Verdicts,
    /// What the samples that the filters leave come to.
    pub counted: Counted,
}

/// What is settled before the text of a report is made.
#[derive(Drop)]
pub struct Prepared {
    /// The kind of the base that was given, None where none was.
    pub base: Option<BaseKind>,
    /// A line for each option that is in force and matches nothing.
    pub notes: Text,
    /// The column of values, and the unit that is asked for.
    pub shows: Shows,
    /// None where the report is not counted.
    pub counts: Option<Counts>,
    /// The profile with frames from labels, where the report is made of that one.
    pub tagged: Option<Loaded>,
}
