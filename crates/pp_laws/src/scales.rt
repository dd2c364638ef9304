//! Scaling scales, and a base counts against its source.
ghost use Rattle.pp_laws.specs.Scales.{FiguresScale, WholeValuesScale, BasesNegate};

// What would break it: a `scaled` (pp_merge, `Scale`) that scales another column, or leaves out a sample.
/// In a profile whose column is multiplied by num and divided by den each flat, cum and edge is so, too.
///
/// Premise: each sample's selected value scales without a remainder. `whole` says where it does: reports divide by 1,
/// and den divides the value times num.
pub fn scaling_scales()
    ensures figures { FiguresScale }
    ensures whole { WholeValuesScale }
{}

// What would break it: a `negated` (pp_merge, `Scale`) that leaves the least value as it is, or a division that doesn't
// truncate towards 0.
/// A profile as it is subtracted, which is its form as a base, has the negative of each flat, cum and edge.
///
/// No premise: it holds for every divisor of values.
pub fn bases_count_against()
    ensures { BasesNegate }
{}
