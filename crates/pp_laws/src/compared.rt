//! A comparison shows both sides.
ghost use Rattle.pp_laws.specs.Compared.{SidesAreApart, BothAreShown};

// What would break it: a `negated` (pp_merge, `Scale`) that leaves a sample of the base without its label, or an
// `is_base` (pp_count, `Counts`) that asks for another text.
/// Before and after of each key, flat and cum, are its figures in the reports of the base alone and of the source
/// alone. After is the figure over the samples that do not carry the base's label, and before and the change add up to
/// it.
///
/// Premises: `apart` has none. `both` has those of `differences_are_differences` for a `-diff_base`, and that no sample
/// of the source carries the base's label itself.
pub fn comparisons_show_both_sides()
    ensures apart { SidesAreApart }
    ensures both { BothAreShown }
{}
