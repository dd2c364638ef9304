//! Reports that show samples one by one: traces and tags, and the comments.
//!
//! `traces` prints each sample, with the lines of `label_lines` and `frame_lines`. `tag_lines` prints the tags report:
//! before it, `tag_counts` adds up the values of each tag, in the tables of `key_table` and `tag_table`. `tag_name` has
//! the order.
#![tactic(auto)]

mod comments;
mod frame_lines;
mod key_table;
mod label_lines;
mod recent;
mod subject;
mod tag_counts;
mod tag_lines;
mod tag_name;
mod tag_names;
mod tag_table;
mod trace;
mod traces;
mod tracing;

pub use comments::write_comments;
pub use tag_lines::write_tags;
pub use traces::write_traces;
