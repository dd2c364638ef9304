//! What the text of a report is made of.
use pp_count::Survey;
use pp_units::Head;

/// What the text of a report is made of.
#[derive(Clone, Copy)]
pub struct Subject<'s, 'h> {
    /// What the report looks at.
    pub survey: Survey<'s>,
    /// The lines in front, and how values are printed.
    pub head: &'h Head,
}
