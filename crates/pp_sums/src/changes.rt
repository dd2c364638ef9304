//! The changes of a comparison add up.
ghost use Rattle.pp_sums.specs.Changes.{ChangesAddUp};

// What would break it: a row whose change is not the key's flat over all samples. Or a line for all that leaves out
// some sample that the filters keep.
/// The changes of flats in the changes report add up to the change of the line `(all)` in the compare report. For that,
/// the values of the filtered samples of which no frame counts are added to them.
///
/// Premises: no limit, and flats are compared. A sum of cums counts a sample once for each of its keys. Values may have
/// either sign.
pub fn changes_add_up()
    ensures { ChangesAddUp }
{}
