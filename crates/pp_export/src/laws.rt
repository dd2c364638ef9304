//! Laws of the reports for other programs, each as the contract of a call that does nothing.
ghost use Rattle.pp_export.specs.Laws.{LinesAddUp, LinesOfKeysAddUp, LimitsCut};

/// The lines of the folded report account for all that was measured.
///
/// `all`: their sums add up to the selected values of the filtered samples of which some frame counts. `keys`: the sums
/// of the lines whose last key is a given one add up to the key's flat. Lines whose sum is 0 are not printed.
pub fn folded_lines_add_up()
    ensures all { LinesAddUp }
    ensures keys { LinesOfKeysAddUp }
{}

/// A limit of the table report only cuts: the lines under it are the first of those without a limit.
pub fn table_limits_only_cut()
    ensures { LimitsCut }
{}
