//! The value that a report selects from a sample.
ghost use Rattle.std.specs.Prelude.{◌≡◌, ◌<◌, pos, int_div};
ghost use Rattle.pp_count.specs.Column.{selected};

use pp_model::{Loaded, Sample, value_in};

/// The sample's value of the column, divided by `divide_by` and truncated towards zero; 0 where there is no column.
pub fn selected(_l: &Loaded, s: &Sample, column: Option<u32>, divide_by: u64) -> i64
    requires { 0 < divide_by }
    ensures { result ≡ selected column divide_by s.now }
{
    match column {
        None => 0,
        Some(column) => divided(value_in(s, column as usize), divide_by),
    }
}

// Most reports divide by 1.
fn divided(value: i64, by: u64) -> i64
    requires { 0 < by }
    ensures { result ≡ int_div value (pos by) }
{
    if by == 1 {
        return value;
    }
    if by <= i64::MAX as u64 {
        return value / by as i64;
    }
    widely_divided(value, by)
}

// By a divisor above the range of the values.
fn widely_divided(value: i64, by: u64) -> i64
    requires { 0 < by }
    ensures { result ≡ int_div value (pos by) }
{
    (i128::from(value) / i128::from(by)) as i64
}
