//! A saved profile reports without filters as the profile did with them.
ghost use Rattle.pp_saved.specs.Kept.{SavedFigures, SavedTexts, SavedColumns, SavedLasts, SavedSizes, SavedWhole};

// What would break it: a saved location with the lines that were cut, labels that are not shown, one column alone, a
// mapping table in another order.
/// Without its filters, a configuration gives the saved profile the figures that it gives the profile with them:
/// the column's type, Total, what the head says, the keys with their function texts and sums, and all pairs.
///
/// Premises: the profile stays as it is when it is merged alone, as each loaded one does; none of its values is below
/// 0 and no sample carries `pprof::base` of the text `true`; relative_percentages is on and divide_by is 1.
pub fn saved_figures()
    ensures columns { SavedColumns }
    ensures figures { SavedFigures }
{}

// What would break it: a layout that reads more of the profile than its figures, or than the sums of call paths.
/// So top, tree, peek, table and folded print the same for both, or peek finds no function in both.
///
/// The premises are those of `saved_figures`.
pub fn saved_texts()
    ensures { SavedTexts }
{}

// What would break it: a sample of 0 that is kept, two equal samples, a location in no mapping's place, the lines of a
// location in another order.
/// A saved profile keeps the table rules and has no patterns of its own. It stays as it is when it is merged alone, so
/// it can be saved again, and saving it again without filters changes nothing. The absolute values of its columns add
/// up to no more than the profile's.
///
/// Premises: the profile keeps the table rules and stays as it is when it is merged alone, as each loaded one does; for
/// the sums the first of them. Each profile that lasts so is itself when it is saved without filters.
pub fn saved_lasts()
    ensures lasts { SavedLasts }
    ensures sizes { SavedSizes }
    ensures whole { SavedWhole }
{}
