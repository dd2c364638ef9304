//! What holds of sessions over files that other sessions saved, each of a group of sources.
ghost use Rattle.pp_alike.specs.SavedGroups.{SavedGroupsAreMerges, SavedGroupsGoAsOne, SavedGroupsLoadAsOne};

// What would break it: sources that are not merged as one, patterns that a merge keeps of its own, bytes that are not
// read as what was saved.
/// A session that saves a group of sources as a whole ends done, and what it prints is decoded to their merge. So it
/// can itself be a source of a group.
///
/// Premises: the session makes a proto report without filters, bases and frames from labels; its first source has no
/// patterns of its own; the sources agree, no sum of them is too large, and they are together no longer than may be.
pub fn saved_groups_are_merges()
    ensures { SavedGroupsAreMerges }
{}

// What would break it: a saved file in another place among the sources, an empty sample that is kept, a duration or a
// mapping that depends on the groups.
/// What sessions save of groups of sources loads as the merge of all the sources at once, however many they are.
///
/// Premises, beside those of `saved_groups_are_merges`: all sources agree, and no sum of all is too large; what is
/// saved is together no longer than may be; in no group does a sample come to nothing; no duration is negative; each
/// mapping that is left is the first of all that is one with it. The last three are in
/// `pp_steps::any_groups_merge_in_steps`.
pub fn saved_groups_load_as_one()
    ensures { SavedGroupsLoadAsOne }
{}

// What would break it: a report that reads more than the profile and the plan's variables.
/// A session over what sessions saved of groups of sources goes as one over all the sources. It writes the same, asks
/// the same patterns, and ends alike. It makes any report, or is a shell.
///
/// Premises, beside those of `saved_groups_load_as_one`: both have the same report and variables; they meet the same
/// locked paths, lines and answers; what they read after loading is the same in both; all sources are together no
/// longer than may be.
pub fn saved_groups_go_as_one()
    ensures { SavedGroupsGoAsOne }
{}
