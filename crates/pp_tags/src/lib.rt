//! Labels: the tags of a profile, tag filters with the samples that they select, and the labels that are shown. A
//! filter reads verdicts by the index of a text or of a tag, and never searches a text.
//!
//! Begin with `tag_filter`, which reads a filter, and `selecting`, which says what samples it selects. `tag_pairs`
//! lists the tags of a profile, `labels` says what a label says, and `showing` which labels a report shows.
#![tactic(auto)]

mod labels;
mod selecting;
mod showing;
mod showing_into;
mod tag_filter;
mod tag_pairs;

pub use labels::{has_text, number_unit};
pub use selecting::{selects, tag_kept};
pub use showing::show_tags;
pub use showing_into::show_tags_into;
pub use tag_filter::TagFilter;
pub use tag_pairs::tags_of;
