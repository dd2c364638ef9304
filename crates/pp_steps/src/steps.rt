//! What merging in steps gives.
ghost use Rattle.pp_steps.specs.Premises.{GroupsAddUp, LosesNoSample, MergeInAnyGroups, MergeInSteps};
ghost use Rattle.pp_steps.specs.Refused.{IsMergeable, group_of_merges, one_group};
ghost use Rattle.pp_steps.specs.Stay.{SamplesStayInSteps, SumsStayInSteps};
ghost use Rattle.pp_steps.specs.Steps.{Group, all_sources, at_once, in_steps, merged_group};
ghost use Rattle.std.specs.List.{AllByRecursion};
ghost use Rattle.std.specs.Prelude.{◌≡◌, ℕ, List, ◌∷◌, map};

/// Profiles that are merged in groups, and then the groups' merges, give what merging all of them at once gives,
/// whatever the groups.
///
/// Premises, `MergeInSteps`: the profiles have as many types, and each sample a value for each. In no group does a
/// sample come to nothing: a sample that is dropped on the way, and has a value in a later group, would stand in
/// another place. No duration is negative, since each group's sum is cut off at 2^63-1. Each mapping that is left is
/// the first of all profiles' that is one with it.
pub fn steps_are_one_merge()
    ensures { (columns : ℕ) → (g : Group) → (groups : List Group) → MergeInSteps columns g groups
        → in_steps g groups ≡ at_once g groups }
{}

/// Merging in steps gives what merging at once gives, whatever the groups, where each profile by itself is as
/// `MergeInAnyGroups` says. No value and no duration is negative, and each sample has a value that isn't 0. In each
/// mapping lies a location that a sample names.
pub fn any_groups_are_one_merge()
    ensures { (columns : ℕ) → (g : Group) → (groups : List Group)
        → MergeInAnyGroups columns (all_sources (g ∷ groups)) → in_steps g groups ≡ at_once g groups }
{}

/// The merges of groups of profiles that are as `MergeInAnyGroups` says are so too: they may be merged in groups again,
/// to any depth.
pub fn merges_merge_again()
    ensures { (columns : ℕ) → (g : Group) → (groups : List Group)
        → MergeInAnyGroups columns (all_sources (g ∷ groups))
        → MergeInAnyGroups columns (map merged_group (g ∷ groups)) }
{}

/// Whatever their mappings, the samples in steps are those at once, with their values and in their order. Only the
/// mapping of a location may be another: one of the same length, offset and file.
pub fn samples_stay_in_steps()
    ensures { (columns : ℕ) → (g : Group) → (groups : List Group) → GroupsAddUp columns (g ∷ groups)
        → AllByRecursion (LosesNoSample columns) (g ∷ groups) → SamplesStayInSteps g groups }
{}

/// Whatever their mappings and the signs of values, each sample has the same sum in steps as at once. A sample whose
/// sum in a group is 0 may stand in another place.
pub fn sums_stay_in_steps()
    ensures { (columns : ℕ) → (groups : List Group) → GroupsAddUp columns groups → SumsStayInSteps columns groups }
{}

/// Profiles that can be merged at once can be merged in steps: neither the groups nor their merges are refused, but for
/// want of memory.
pub fn steps_are_not_refused()
    ensures groups { (columns : ℕ) → (g : Group) → (groups : List Group) → GroupsAddUp columns (g ∷ groups)
        → IsMergeable (one_group g groups) → AllByRecursion IsMergeable (g ∷ groups) }
    ensures merges { (columns : ℕ) → (g : Group) → (groups : List Group) → GroupsAddUp columns (g ∷ groups)
        → IsMergeable (one_group g groups) → IsMergeable (group_of_merges g groups) }
{}
