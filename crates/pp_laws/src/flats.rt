//! Nothing is lost and nothing made up.
ghost use Rattle.pp_laws.specs.Flats.{FlatsAddUp, RowsAddUp, AllKeysAddUp};

// What would break it: a `flat` (pp_count, `Sums`) that takes another frame than the first. Or a key that `AreSumsOf`
// lists twice or not at all. Or a `weighed` that drops a sample whose value isn't 0.
/// The flats of all keys add up to the selected values of the filtered samples of which some frame counts.
///
/// `counted` says so of what `pp_count::count` gives. `rows` says so of the rows of a report without limit, where
/// nodefraction is 0, and `all` of those of a table report without limit. Values may have either sign. A sample whose
/// stack the filters leave empty has no row, so its value isn't among the flats.
pub fn nothing_is_lost()
    ensures counted { FlatsAddUp }
    ensures rows { RowsAddUp }
    ensures all { AllKeysAddUp }
{}
