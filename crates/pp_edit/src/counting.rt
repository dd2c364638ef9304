//! Whether a profile can be counted.
ghost use Rattle.std.specs.Prelude.{◌↔◌, ℕ, ◌<◌, ◌≤◌, ◌^◌, ◌-◌, nat_abs, IsTrue};
ghost use Rattle.std.specs.List.{sum_by};
ghost use Rattle.pp_model.specs.Words.{IsCountable, value_in};

use pp_model::{Profile, Sample, value_in};

/// Whether the profile can be counted: it has fewer than 2^32 samples and sample types, and the absolute values of each
/// column add up to no more than 2^63-1. That is what counting, normalizing and subtracting ask of a profile.
pub fn is_countable(p: &Profile) -> bool
    ensures { IsTrue result ↔ IsCountable p.now }
{
    let columns = p.sample_type.len();
    p.sample.len() < 1 << 32 && columns < 1 << 32 && all_fit(p.sample.as_slice(), columns)
}

// Whether the absolute values of each column can be added up.
fn all_fit(samples: &[Sample], columns: usize) -> bool
    ensures { IsTrue result ↔ ((column : ℕ) → column < columns →
        sum_by (λ s. nat_abs (value_in s column)) samples.now ≤ 2 ^ 63 - 1) }
{
    for column in 0..columns {
        if !fit(samples, column) {
            return false;
        }
    }
    true
}

// Whether the absolute values of the column can be added up.
fn fit(samples: &[Sample], column: usize) -> bool
    ensures { IsTrue result ↔ (sum_by (λ s. nat_abs (value_in s column)) samples.now ≤ 2 ^ 63 - 1) }
{
    let mut left = i64::MAX as u64;
    for sample in samples {
        let size = value_in(sample, column).unsigned_abs();
        if size > left {
            return false;
        }
        left -= size;
    }
    true
}
