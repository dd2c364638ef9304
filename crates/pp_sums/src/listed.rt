//! A routine of the list report is the sum of its lines.
ghost use Rattle.pp_sums.specs.Listed.{ListedLinesAddUp};

// What would break it: a `source_line` (pp_source, `Amounts`) that keeps less of a frame than its routine does, or lines
// that are listed twice.
/// In `-list`, the flats of the lines of a function in a file add up to the flat in its title. No line has a greater cum
/// than the title.
///
/// The lines are those with a frame that the report's own pattern finds, frames without a line number among them: such
/// frames count for the title, and no line of the source shows them. `cum` asks that no selected value of a filtered
/// sample is negative.
pub fn listed_lines_add_up()
    ensures { ListedLinesAddUp }
{}
