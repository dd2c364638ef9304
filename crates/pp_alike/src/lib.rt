//! Laws of sessions: which of them go alike, by the definition that `pp_engine::run` is proved against.
//!
//! Each law is the contract of a call that does nothing, and no clause of a call rests on one. Begin with `decoded`: a
//! session over a file depends on what the file is decoded to. By `files` a session over a saved file goes as one over
//! its sources. `groups` has files of which each was saved of a group of sources, and `turns` the turns of the shell.
#![tactic(auto)]

mod decoded;
mod files;
mod groups;
mod turns;

pub use decoded::bytes_decoded_alike_run_alike;
pub use files::{saved_files_report_alike, saved_files_save_alike};
pub use groups::{saved_groups_are_merges, saved_groups_go_as_one, saved_groups_load_as_one};
pub use turns::turns_suffice;
