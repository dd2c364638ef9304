//! The unit only spells.
ghost use Rattle.pp_laws.specs.Units.{RowsStay, UnitsSpell, PickedUnitsSpell, ForcedUnitsSpell, EachUnitsSpell, EachIsPicked, EachTellsZero};

// What would break it: a column, a total or a `sums_order` (pp_graph, `Trim`) that looks at the unit. Or a `rounded`
// (pp_units) that cuts off in place of rounding. Or a `to_at` that looks at the total.
/// A report in another unit has the same rows in the same order, of the same figures. Each printed value is the nearest
/// hundredth of the same sum, on the same side of 0. If each value has its own unit, it is printed as beside a total of
/// its size, and only 0 is printed as `0`.
///
/// `rows` has no premise. `values` holds in every unit that isn't empty; `picked`, `forced` and `each` say that reports
/// print in no other. `zero` is about values of 64 bits.
pub fn units_only_spell()
    ensures rows { RowsStay }
    ensures values { UnitsSpell }
    ensures picked { PickedUnitsSpell }
    ensures forced { ForcedUnitsSpell }
    ensures each { EachUnitsSpell }
    ensures alone { EachIsPicked }
    ensures zero { EachTellsZero }
{}
