//! Laws of merging: in steps, where profiles are merged in groups and then the groups' merges, and in another order.
//!
//! Each law is the contract of a call that does nothing. `specs/Steps.antt` has the two ways to merge, `Premises.antt`
//! what profiles have to be like, and `Stay.antt` what stays where they are less.
//!
//! Begin with `steps`; `premises` tells how to know what the laws ask, and `kept` what any merge keeps.
#![tactic(auto)]

mod kept;
mod premises;
mod steps;

pub use kept::{merging_drops_no_sample, merging_makes_no_sample, order_of_profiles_keeps_sums};
pub use premises::{
    any_groups_merge_in_steps, equal_mappings_are_first, kept_mappings_are_first,
    merges_are_ordinary, named_mappings_are_kept, weights_keep_samples,
};
pub use steps::{
    any_groups_are_one_merge, merges_merge_again, samples_stay_in_steps, steps_are_not_refused,
    steps_are_one_merge, sums_stay_in_steps,
};
