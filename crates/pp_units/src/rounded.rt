//! Rounding to whole numbers.
ghost use Rattle.std.specs.Prelude.{◌≡◌, ◌+◌, ◌*◌, ◌^◌, ◌<◌};
ghost use Rattle.pp_units.specs.Rounded.{nearest, IsNearest};

/// The whole number that is nearest to `amount / parts`, a half up.
pub fn nearest(amount: u128, parts: u128) -> u128
    requires some { 0 < parts }
    requires fits { 2 * amount + parts < 2 ^ 127 }
    ensures value { result ≡ nearest amount parts }
    ensures near { IsNearest amount parts result }
{
    (2 * amount + parts) / (2 * parts)
}
