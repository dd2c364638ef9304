//! Values of one column, multiplied and divided.
ghost use Rattle.std.specs.Prelude.{◌≡◌, ◌<◌, ◌≤◌, ◌*◌, ◌/◌, ◌^◌, ◌-◌, ◌*ℤ◌, pos, int_div, length, nat_abs};
ghost use Rattle.pp_model.specs.Words.{absolute_sum};
ghost use Rattle.pp_merge.specs.Scale.{scaled, scaled_value};

use pp_model::{Compact, value_in};

/// Makes each value of the column `value * num / den`, truncated towards zero.
pub fn scale(p: &mut Compact, column: u32, num: u64, den: u64)
    requires samples { length p.old.sample < 2 ^ 32 }
    requires column { column < length p.old.sample_type }
    requires den { 0 < den }
    requires fits { absolute_sum p.old column * num / den ≤ 2 ^ 63 - 1 }
    ensures { p.new ≡ scaled p.old column num den }
{
    for sample in 0..p.get().sample.len() {
        let value = value_in(&p.get().sample.as_slice()[sample], column as usize);
        p.set_value(sample as u32, column, scaled_value(value, num, den));
    }
}

// A value times `num`, divided by `den`, truncated towards zero.
fn scaled_value(value: i64, num: u64, den: u64) -> i64
    requires den { 0 < den }
    requires fits { nat_abs value * num / den ≤ 2 ^ 63 - 1 }
    ensures { result ≡ scaled_value num den value }
{
    quotient(product(value, num), den) as i64
}

// The product has at most 127 bits and a sign.
fn product(value: i64, num: u64) -> i128
    ensures { result ≡ value *ℤ pos num }
{
    i128::from(value) * i128::from(num)
}

fn quotient(product: i128, den: u64) -> i128
    requires { 0 < den }
    ensures { result ≡ int_div product (pos den) }
{
    product / i128::from(den)
}
