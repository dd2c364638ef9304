//! What is compared of a key, or of all samples.
ghost use Rattle.std.specs.Prelude.{◌≡◌};
ghost use Rattle.pp_top.specs.ComparedRows.{wrapped};

/// A figure of the base, of the source, and how far the source's is above the base's.
#[derive(Clone, Copy)]
pub struct Difference {
    /// The figure over the base's samples, as the base alone has it.
    pub before: i64,
    /// The figure over the other samples.
    pub after: i64,
    /// The figure over all samples: `after` less `before`.
    pub change: i64,
}

/// The figures where the base's negated values have this sum, and the values of both this one. None of them wraps where
/// both are sums over one list of samples.
pub fn difference_of(base: i64, change: i64) -> Difference
    ensures { result ≡ wrapped base change }
{
    Difference {
        before: base.wrapping_neg(),
        after: change.wrapping_sub(base),
        change,
    }
}
