//! A profile brought to the size of its base.
ghost use Rattle.std.specs.Prelude.{◌≡◌, ◌<◌, ◌≤◌, ◌^◌, ◌-◌, None, Some, length, IfOk, IfErr, IfSome, OnOk, OnErr};
ghost use Rattle.pp_model.specs.Words.{absolute_sum, IsCountable};
ghost use Rattle.pp_merge.specs.Merge.{difference};
ghost use Rattle.pp_merge.specs.Scale.{normalized, column_normalized, nothing_to_scale, has_nothing_to_scale};

use crate::refusal::NothingToScale;
use crate::scaling::scale;
use pp_model::{Compact, Profile, value_in};

/// Scales each column of the source by the sum of the base's absolute values over that of the source's. A column in
/// which both sums are 0 stays. It is refused at the least column where the source's sum is 0 and the base's is not,
/// and then nothing is changed.
pub fn normalize(source: &mut Compact, base: &Compact) -> Result<(), NothingToScale>
    requires source { IsCountable source.old }
    requires base { IsCountable base.now }
    requires agree { difference source.old base.now ≡ None }
    ensures done { IfOk result (λ _. nothing_to_scale source.old base.now ≡ None) }
    ensures values { OnOk result (source.new ≡ normalized source.old base.now) }
    ensures refused { IfErr result
        (λ e. nothing_to_scale source.old base.now ≡ Some e.column) }
    ensures same { OnErr result (source.new ≡ source.old) }
{
    if let Some(column) = nothing_to_scale(source.get(), base.get()) {
        return Err(NothingToScale {
            column: column as u32,
        });
    }
    for column in 0..source.get().sample_type.len() {
        normalize_column(source, base.get(), column as u32);
    }
    Ok(())
}

// The least column where the source has nothing to scale.
fn nothing_to_scale(source: &Profile, base: &Profile) -> Option<usize>
    requires source { IsCountable source.now }
    requires base { IsCountable base.now }
    requires columns { length source.now.sample_type ≡ length base.now.sample_type }
    ensures first { result ≡ nothing_to_scale source.now base.now }
    ensures bound { IfSome result (λ column. column < length source.now.sample_type) }
{
    (0..source.sample_type.len()).position(|column| has_nothing_to_scale(
        source,
        base,
        column as u32,
    ))
}

fn has_nothing_to_scale(source: &Profile, base: &Profile, column: u32) -> bool
    requires source { absolute_sum source.now column ≤ 2 ^ 63 - 1 }
    requires base { absolute_sum base.now column ≤ 2 ^ 63 - 1 }
    ensures { result ≡ has_nothing_to_scale source.now base.now column }
{
    absolute_sum(source, column) == 0 && absolute_sum(base, column) > 0
}

fn normalize_column(source: &mut Compact, base: &Profile, column: u32)
    requires samples { length source.old.sample < 2 ^ 32 }
    requires column { column < length source.old.sample_type }
    requires source { absolute_sum source.old column ≤ 2 ^ 63 - 1 }
    requires base { absolute_sum base.now column ≤ 2 ^ 63 - 1 }
    ensures { source.new ≡ column_normalized source.old base.now column }
{
    let own = absolute_sum(source.get(), column);
    if own > 0 {
        scale(source, column, absolute_sum(base, column), own);
    }
}

// The sum of the column's absolute values.
fn absolute_sum(p: &Profile, column: u32) -> u64
    requires { absolute_sum p.now column ≤ 2 ^ 63 - 1 }
    ensures { result ≡ absolute_sum p.now column }
{
    p.sample
        .as_slice()
        .iter()
        .map(|sample| value_in(sample, column as usize).unsigned_abs())
        .sum()
}
