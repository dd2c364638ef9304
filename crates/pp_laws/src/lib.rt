//! Laws of the figures: what may be relied on when a report is read, whatever the profile.
//!
//! Each law is the contract of a call that does nothing. It is stated over the definitions that the reports are proved
//! against, so it holds of every figure that they print. `specs/` has the statements, a file for each module. Begin with
//! `flats` (nothing is lost) and `merged` (reports of a merge are sums).
#![tactic(auto)]

mod accounts;
mod bases;
mod bounds;
mod compared;
mod flats;
mod merged;
mod order;
mod parts;
mod rows;
mod scales;
mod units;

pub use accounts::accounts_add_up;
pub use bases::differences_are_differences;
pub use bounds::{
    edges_are_within, figures_are_within, percentages_are_within, shared_keys_are_whole,
};
pub use compared::comparisons_show_both_sides;
pub use flats::nothing_is_lost;
pub use merged::merged_reports_are_sums;
pub use order::{order_in_a_file_is_free, order_of_samples_is_free};
pub use parts::focus_and_ignore_part;
pub use rows::trimming_only_hides;
pub use scales::{bases_count_against, scaling_scales};
pub use units::units_only_spell;
