//! What the values of several profiles add up to.
ghost use Rattle.std.specs.Prelude.{◌≡◌, ◌+◌, ◌≤◌, ◌<◌, ◌^◌, ◌-◌, ◌∷◌, nat_lt, nat_abs, IfSome};
ghost use Rattle.std.specs.List.{sum_by};
ghost use Rattle.pp_model.specs.Words.{absolute_sum, value_in};
ghost use Rattle.pp_merge.specs.Merge.{too_large, if_small};

use pp_model::{Sample, Valid, value_in};

/// The least of the columns whose absolute values add up to more than 2^63-1 over all profiles.
pub fn too_large_column(columns: usize, first: &Valid, others: &[Valid]) -> Option<usize>
    ensures least { result ≡ too_large columns (first.now ∷ others.now) }
    ensures bound { IfSome result (λ column. column < columns) }
{
    (0..columns).position(|column| is_too_large(first, others, column))
}

fn is_too_large(first: &Valid, others: &[Valid], column: usize) -> bool
    ensures { result
        ≡ nat_lt (2 ^ 63 - 1) (sum_by (λ p. absolute_sum p column) (first.now ∷ others.now)) }
{
    column_total(first, others, column).is_none()
}

// The sum of the column's absolute values over all profiles, where it is at most 2^63-1.
fn column_total(first: &Valid, others: &[Valid], column: usize) -> Option<u64>
    ensures { result ≡ if_small (sum_by (λ p. absolute_sum p column) (first.now ∷ others.now)) }
{
    let own = add_profile(0, first, column)?;
    let mut total = own;
    for p in others {
        total = add_profile(total, p, column)?;
    }
    Some(total)
}

// A sum and the column's absolute values of the profile, where they are at most 2^63-1 together.
fn add_profile(sum: u64, p: &Valid, column: usize) -> Option<u64>
    requires { sum ≤ 2 ^ 63 - 1 }
    ensures { result ≡ if_small (sum + absolute_sum p.now column) }
{
    add_samples(sum, p.get().sample.as_slice(), column)
}

// A sum and the column's absolute values of the samples, where they are at most 2^63-1 together.
fn add_samples(sum: u64, samples: &[Sample], column: usize) -> Option<u64>
    requires { sum ≤ 2 ^ 63 - 1 }
    ensures { result ≡ if_small (sum + sum_by (λ s. nat_abs (value_in s column)) samples.now) }
{
    let mut total = sum;
    for sample in samples {
        total = small(total + value_in(sample, column).unsigned_abs())?;
    }
    Some(total)
}

// The number, where it is at most 2^63-1.
fn small(number: u64) -> Option<u64>
    ensures { result ≡ if_small number }
{
    if number > i64::MAX as u64 {
        None
    } else {
        Some(number)
    }
}
