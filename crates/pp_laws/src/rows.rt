//! Trimming only hides.
ghost use Rattle.pp_laws.specs.Rows.{TrimmingHides};

// What would break it: a `sums_order` (pp_graph, `Trim`) that looks at nodefraction, or a total over the rows that
// are shown.
/// The rows under any nodecount and nodefraction are rows of the report without them: the first `nodecount` of those
/// that are heavy enough, in their order. Their figures are taken from the same samples, and the total is the same.
///
/// No premise.
pub fn trimming_only_hides()
    ensures { TrimmingHides }
{}
