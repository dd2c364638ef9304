//! A key is the sum of its finer keys.
ghost use Rattle.pp_sums.specs.Finer.{PartsAddUp};

// What would break it: a `kept_by` (pp_grain, `Keys`) that drops at a finer grain what a coarser one keeps, or filters
// that look at the grain.
/// The flat of a function is the sum of the flats of its lines, and of its addresses. No line has a greater cum than
/// its function. So it is of the keys of any grain, and of those of a finer one, which tell all of them (`is_finer`).
///
/// Premises: the key has a function, a file or a line. The key of a frame that has none is its object, which the key of
/// its line or address need not tell. `cum` asks that no selected value of a filtered sample is negative: of two lines
/// with 5 and -3 in two samples, one has a cum of 5, and their function has 2. Values may have either sign for `flat`.
pub fn parts_add_up()
    ensures { PartsAddUp }
{}
