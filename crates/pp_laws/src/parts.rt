//! Focus and ignore of one pattern part the whole.
ghost use Rattle.pp_laws.specs.Parts.{PatternsPart};

// What would break it: an `is_kept` (pp_stack, `Filters`) that looks at other frames for ignore than for focus, or
// after frames were cut.
/// The filtered samples are those that a pattern keeps as focus and those that it keeps as ignore, each once. So
/// flat, cum and edge without it are the sums of those with it as focus and with it as ignore.
///
/// No premise: it holds for every pattern, whichever other filters are in force, and for values of either sign. Edges
/// are compared over the same kept keys.
pub fn focus_and_ignore_part()
    ensures { PatternsPart }
{}
