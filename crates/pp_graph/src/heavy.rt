//! The keys that are heavy enough for a report, in report order.
ghost use Rattle.std.specs.Prelude.{◌≡◌, ◌<◌, ◌^◌, length, nat_abs, All, IfOk};
ghost use Rattle.pp_grain.specs.Keys.{IsKeyOf};
ghost use Rattle.pp_graph.specs.Ranks.{row_cmp, sum_of_name, is_heavy_number, IsRankedRow, Collected, AreRanked};

use pp_base::{Fraction, List, Memory};
use pp_count::{Sums, is_heavy};
use pp_grain::{Key, KeyTexts, texts_of, texts_order};
use pp_model::{Profile, Sort};
use std::alloc::Global;
use std::cmp::Ordering;

/// A key with what it is ranked by.
#[derive(Clone, Copy)]
pub struct RankedRow<'a> {
    /// The number of its name.
    pub number: u64,
    /// What the key stands for.
    pub texts: KeyTexts<'a>,
    /// The absolute value of the sum that rows are sorted by.
    pub major: u64,
    /// The absolute value of the other sum.
    pub minor: u64,
}

/// The rows of the heavy keys, and how many keys are too light.
#[derive(Drop)]
pub struct Heavy<'a> {
    /// A row for each heavy key, in report order.
    pub rows: Vec<RankedRow<'a>>,
    /// How many keys are too light.
    pub light: u64,
}

/// The keys whose cum is at least this fraction of the total, in report order.
pub fn ranked<'a>(
    alloc: Global,
    p: &'a Profile,
    sort: Sort,
    sums: &Sums,
    total: u64,
    least: Fraction,
) -> Result<Heavy<'a>, Memory>
    requires keys { All (IsKeyOf p.now) sums.now.names }
    requires flats { length sums.now.flat ≡ length sums.now.names }
    requires cums { length sums.now.cum ≡ length sums.now.names }
    ensures { IfOk result (λ heavy. AreRanked p.now sort sums.now total least.billionths
        heavy.rows.items heavy.light) }
{
    let mut heavy = collect(alloc, p, sort, sums, total, least)?;
    heavy.rows.sort_by(|a, b| row_order(a, b))?;
    Ok(heavy)
}

// The heavy keys in the order of their numbers.
fn collect<'a>(
    alloc: Global,
    p: &'a Profile,
    sort: Sort,
    sums: &Sums,
    total: u64,
    least: Fraction,
) -> Result<Heavy<'a>, Memory>
    requires keys { All (IsKeyOf p.now) sums.now.names }
    requires flats { length sums.now.flat ≡ length sums.now.names }
    requires cums { length sums.now.cum ≡ length sums.now.names }
    ensures { IfOk result (λ heavy. Collected p.now sort sums.now total least.billionths
        (length sums.now.names) heavy.rows.items heavy.light) }
{
    let mut rows = Vec::new(alloc);
    let mut light = 0;
    for number in 0..sums.names.len() {
        if is_heavy_name(sums, number, total, least) {
            rows.push(row_of(p, sort, sums, number))?;
        } else {
            light += 1;
        }
    }
    Ok(Heavy { rows, light })
}

// Whether the name's cum is at least this fraction of the total.
fn is_heavy_name(sums: &Sums, number: u64, total: u64, least: Fraction) -> bool
    requires { number < length sums.now.cum }
    ensures { result ≡ is_heavy_number total least.billionths sums.now number }
{
    is_heavy(total, least, sums.cum.as_slice()[number as usize])
}

// The row of the name.
fn row_of<'a>(p: &'a Profile, sort: Sort, sums: &Sums, number: u64) -> RankedRow<'a>
    requires keys { All (IsKeyOf p.now) sums.now.names }
    requires flats { length sums.now.flat ≡ length sums.now.names }
    requires cums { length sums.now.cum ≡ length sums.now.names }
    requires within { number < length sums.now.names }
    ensures row { IsRankedRow p.now sort sums.now result }
    ensures number { result.number ≡ number }
{
    let flat = size_at(&sums.flat, number);
    let cum = size_at(&sums.cum, number);
    let key = sums.names.key(number);
    let texts = texts_of(p, &key);
    match sort {
        Sort::Flat => RankedRow {
            number,
            texts,
            major: flat,
            minor: cum,
        },
        Sort::Cum => RankedRow {
            number,
            texts,
            major: cum,
            minor: flat,
        },
    }
}

// The absolute value of the sum at the place.
fn size_at(sums: &List<i64>, place: u64) -> u64
    requires { place < length sums.now }
    ensures { result ≡ nat_abs (sum_of_name sums.now place) }
{
    sums.as_slice()[place as usize].unsigned_abs()
}

// Report order: the greater sum first, then the greater other sum, then the keys' texts and numbers.
fn row_order(a: &RankedRow, b: &RankedRow) -> Ordering
    ensures { result ≡ row_cmp a.now b.now }
{
    let sums = b.major.cmp(&a.major).then(b.minor.cmp(&a.minor));
    if sums.is_ne() {
        return sums;
    }
    texts_order(&a.texts, &b.texts)
}
