//! The time that several profiles cover together.
ghost use Rattle.std.specs.Prelude.{◌≡◌, ◌<◌, ◌^◌, ◌+ℤ◌, ◌≤ℤ◌, pos, neg_ℤ, fold, length};
ghost use Rattle.std.specs.Int.{saturate_to_bits};

use pp_model::Valid;

/// The sum of the durations, or the nearer end of its type's range.
pub fn total_duration(first: &Valid, others: &[Valid]) -> i64
    requires { length others.now < 2 ^ 32 }
    ensures { result ≡ saturate_to_bits 63
        (fold (λ sum p. sum +ℤ p.duration_nanos) first.now.duration_nanos others.now) }
{
    let mut sum = duration_of(first);
    for p in others {
        sum += duration_of(p);
    }
    nearest(sum)
}

fn duration_of(p: &Valid) -> i128
    ensures is { result ≡ p.now.duration_nanos }
    ensures low { neg_ℤ (pos (2 ^ 63)) ≤ℤ result }
    ensures high { result ≤ℤ pos (2 ^ 63) }
{
    i128::from(p.get().duration_nanos)
}

// The number of the type that is nearest.
fn nearest(number: i128) -> i64
    ensures { result ≡ saturate_to_bits 63 number }
{
    if number > i128::from(i64::MAX) {
        i64::MAX
    } else if number < i128::from(i64::MIN) {
        i64::MIN
    } else {
        number as i64
    }
}
