//! Whether a sum is heavy enough for a report.
ghost use Rattle.std.specs.Prelude.{◌≡◌};
ghost use Rattle.pp_count.specs.Ranks.{is_heavy};

use pp_base::Fraction;
use pp_units::BILLION;

/// Whether the sum is at least this fraction of the total.
pub fn is_heavy(total: u64, least: Fraction, sum: i64) -> bool
    ensures { result ≡ is_heavy total least.billionths sum }
{
    let whole = u128::from(total) * u128::from(least.billionths);
    whole <= u128::from(sum.unsigned_abs()) * u128::from(BILLION)
}
