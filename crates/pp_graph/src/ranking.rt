//! The keys that a report shows, in report order.
ghost use Rattle.std.specs.Prelude.{◌≡◌, ℕ, ◌<◌, ◌^◌, nat_abs, length, map, All, Option, IfOk};
ghost use Rattle.std.specs.List.{sum_by};
ghost use Rattle.pp_model.specs.declared.config.Config.{Config};
ghost use Rattle.pp_model.specs.declared.verdicts.Verdicts.{Verdicts};
ghost use Rattle.pp_grain.specs.Keys.{IsKeyOf};
ghost use Rattle.pp_count.specs.Counted.{IsCountedOf, FitSums};
ghost use Rattle.pp_graph.specs.Ranks.{sum_of_name};
ghost use Rattle.pp_graph.specs.Trim.{shown_keys};
ghost use Rattle.pp_graph.specs.Trimmed.{int_sum, IsRankedOf, IsWholeRanking};

use crate::heavy::{RankedRow, ranked};
use pp_base::{Fraction, List, Memory};
use pp_count::Counted;
use pp_model::{Config, Loaded, Sort};
use std::alloc::Global;

/// The keys that a report shows.
#[derive(Drop)]
pub struct Ranked {
    /// The numbers of their names, in report order.
    pub order: List<u64>,
    /// The sum of their flats.
    pub shown_flat: i64,
    /// How many keys occur and are too light to be shown.
    pub dropped_nodes: u64,
    /// How many keys are heavy enough, shown or not.
    pub candidates: u64,
}

/// Ranks the keys whose cum is at least `nodefraction` of the total, and keeps the first `limit` of them, all for 0.
///
/// Report order is by absolute flat falling, or by absolute cum under `cum`, then by the other, then by key order.
pub fn rank(
    alloc: Global,
    l: &Loaded,
    counted: &Counted,
    config: &Config,
    limit: u32,
) -> Result<Ranked, Memory>
    requires fits { FitSums counted.now.sums }
    requires keys { All (IsKeyOf l.now.profile) counted.now.sums.names }
    ensures { (v : Verdicts) (column : Option ℕ) →
        IsCountedOf l.now v config.now column counted.now →
        IfOk result (IsRankedOf l.now v config.now column limit counted.now) }
{
    rank_by(
        alloc,
        l,
        counted,
        config.presentation.sort,
        config.presentation.nodefraction,
        limit,
    )
}

/// Ranks all keys, however light, and keeps the first `limit` of them, all for 0. Report order is that of `rank`.
pub fn rank_all(
    alloc: Global,
    l: &Loaded,
    counted: &Counted,
    config: &Config,
    limit: u32,
) -> Result<Ranked, Memory>
    requires fits { FitSums counted.now.sums }
    requires keys { All (IsKeyOf l.now.profile) counted.now.sums.names }
    ensures { (v : Verdicts) (column : Option ℕ) →
        IsCountedOf l.now v config.now column counted.now →
        IfOk result (IsWholeRanking l.now v config.now column limit counted.now) }
{
    let nothing = Fraction { billionths: 0 };
    rank_by(alloc, l, counted, config.presentation.sort, nothing, limit)
}

// The ranking of each configuration with this order and this fraction.
fn rank_by(
    alloc: Global,
    l: &Loaded,
    counted: &Counted,
    sort: Sort,
    least: Fraction,
    limit: u32,
) -> Result<Ranked, Memory>
    requires fits { FitSums counted.now.sums }
    requires keys { All (IsKeyOf l.now.profile) counted.now.sums.names }
    ensures { (v : Verdicts) (config : Config) (column : Option ℕ) →
        config.presentation.sort ≡ sort →
        config.presentation.nodefraction.billionths ≡ least.billionths →
        IsCountedOf l.now v config column counted.now →
        IfOk result (IsRankedOf l.now v config column limit counted.now) }
{
    let sums = &counted.sums;
    let p = l.profile.get();
    let heavy = ranked(alloc, p, sort, sums, counted.total, least)?;
    let order = numbers_of(alloc, first_rows(&heavy.rows, limit))?;
    let shown_flat = flat_sum(&sums.flat, order.as_slice());
    Ok(Ranked {
        order,
        shown_flat,
        dropped_nodes: heavy.light,
        candidates: heavy.rows.len() as u64,
    })
}

// As many rows as the limit says, and all of them where it is 0.
fn first_rows<'x, 'a>(rows: &'x [RankedRow<'a>], limit: u32) -> &'x [RankedRow<'a>]
    ensures { result.now ≡ shown_keys limit rows.now }
{
    if limit == 0 {
        rows
    } else {
        &rows[..rows.len().min(limit as usize)]
    }
}

// The numbers of the rows, in order.
fn numbers_of(alloc: Global, rows: &[RankedRow]) -> Result<List<u64>, Memory>
    ensures { IfOk result (λ order. order ≡ map (λ row. row.number) rows.now) }
{
    let mut order = List::new(alloc);
    for row in rows {
        order.push(row.number)?;
    }
    Ok(order)
}

// The sum of the flats of these numbers.
fn flat_sum(flats: &List<i64>, order: &[u64]) -> i64
    requires below { All (λ n. n < length flats.now) order.now }
    requires small { sum_by (λ n. nat_abs (sum_of_name flats.now n)) order.now < 2 ^ 63 }
    ensures { result ≡ int_sum (map (sum_of_name flats.now) order.now) }
{
    let mut sum = 0;
    for number in order {
        sum += flat_at(flats, *number);
    }
    sum
}

// The flat at the place.
fn flat_at(flats: &List<i64>, place: u64) -> i64
    requires { place < length flats.now }
    ensures { result ≡ sum_of_name flats.now place }
{
    flats.as_slice()[place as usize]
}
