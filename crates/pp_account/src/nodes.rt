//! The keys of a report, and where its limits leave them.
ghost use Rattle.std.specs.Prelude.{◌≡◌, ◌<◌, ◌^◌, nat_abs, [], ◌∷◌, ◌++◌, length, map, All, IfOk, if◌then◌else◌};
ghost use Rattle.std.specs.List.{sum_by};
ghost use Rattle.pp_count.specs.Counted.{FitSums};
ghost use Rattle.pp_graph.specs.Ranks.{sum_of_name};
ghost use Rattle.pp_graph.specs.Trim.{shown_keys};
ghost use Rattle.pp_graph.specs.Trimmed.{int_sum};
ghost use Rattle.pp_account.specs.Nodes.{node_portions, numbers_portion, numbers_where, is_where, past_limit};

use crate::portion::Portion;
use pp_base::{Fraction, List, Memory};
use pp_count::{Counted, Sums, is_heavy};
use std::alloc::Global;

/// How many keys end where, and what their flats come to.
#[derive(Clone, Copy)]
pub struct NodePortions {
    /// The keys that occur.
    pub counted: Portion,
    /// Those whose cum is too light.
    pub light: Portion,
    /// The others past the limit.
    pub beyond: Portion,
    /// The keys that are shown.
    pub shown: Portion,
}

/// Where the keys with these numbers end, which stand in report order. `limit` is the most that are shown, 0 for no
/// limit. `Err` is want of memory.
pub fn node_portions(
    alloc: Global,
    c: &Counted,
    order: &[u64],
    least: Fraction,
    limit: u32,
) -> Result<NodePortions, Memory>
    requires fits { FitSums c.now.sums }
    requires below { All (λ n. n < length c.now.sums.names) order.now }
    requires small { sum_by (λ n. nat_abs (sum_of_name c.now.sums.flat n)) order.now < 2 ^ 63 }
    ensures { IfOk result (λ portions. portions
        ≡ node_portions c.now.sums c.now.total least.billionths limit order.now) }
{
    let sums = &c.sums;
    let light = numbers_where(alloc, sums, c.total, least, false, order)?;
    let heavy = numbers_where(alloc, sums, c.total, least, true, order)?;
    let (shown, beyond) = parted(heavy.as_slice(), limit);
    Ok(NodePortions {
        counted: portion_of(&sums.flat, order),
        light: portion_of(&sums.flat, light.as_slice()),
        beyond: portion_of(&sums.flat, beyond),
        shown: portion_of(&sums.flat, shown),
    })
}

// Those of the numbers whose keys are heavy, or those whose keys aren't, as it is wanted.
fn numbers_where(
    alloc: Global,
    sums: &Sums,
    total: u64,
    least: Fraction,
    wanted: bool,
    order: &[u64],
) -> Result<List<u64>, Memory>
    requires fits { FitSums sums.now }
    requires below { All (λ n. n < length sums.now.names) order.now }
    ensures { IfOk result (λ numbers. numbers
        ≡ numbers_where sums.now total least.billionths wanted order.now) }
{
    let mut numbers = List::new(alloc);
    for number in order {
        push_where(sums, total, least, wanted, *number, &mut numbers)?;
    }
    Ok(numbers)
}

// Adds the number, if its key is as it is wanted.
fn push_where(
    sums: &Sums,
    total: u64,
    least: Fraction,
    wanted: bool,
    number: u64,
    numbers: &mut List<u64>,
) -> Result<(), Memory>
    requires fits { FitSums sums.now }
    requires below { number < length sums.now.names }
    ensures { IfOk result (λ _. numbers.new ≡ numbers.old
        ++ (if is_where sums.now total least.billionths wanted number then number ∷ [] else [])) }
{
    if is_heavy(total, least, sum_at(&sums.cum, number)) == wanted {
        numbers.push(number)?;
    }
    Ok(())
}

// As many of the numbers as the limit says, all where it is 0, and the others.
fn parted(numbers: &[u64], limit: u32) -> (&[u64], &[u64])
    ensures shown { result.0.now ≡ shown_keys limit numbers.now }
    ensures beyond { result.1.now ≡ past_limit limit numbers.now }
{
    if limit == 0 {
        return (numbers, &[]);
    }
    numbers.split_at(numbers.len().min(limit as usize))
}

// How many these numbers are, and the sum of their flats.
fn portion_of(flats: &List<i64>, numbers: &[u64]) -> Portion
    requires below { All (λ n. n < length flats.now) numbers.now }
    requires small { sum_by (λ n. nat_abs (sum_of_name flats.now n)) numbers.now < 2 ^ 63 }
    ensures { result ≡ numbers_portion flats.now numbers.now }
{
    Portion {
        count: numbers.len() as u64,
        value: flat_sum(flats, numbers),
    }
}

// The sum of the flats of these numbers.
fn flat_sum(flats: &List<i64>, numbers: &[u64]) -> i64
    requires below { All (λ n. n < length flats.now) numbers.now }
    requires small { sum_by (λ n. nat_abs (sum_of_name flats.now n)) numbers.now < 2 ^ 63 }
    ensures { result ≡ int_sum (map (sum_of_name flats.now) numbers.now) }
{
    let mut sum = 0;
    for number in numbers {
        sum += sum_at(flats, *number);
    }
    sum
}

// The sum at the place.
fn sum_at(sums: &List<i64>, place: u64) -> i64
    requires { place < length sums.now }
    ensures { result ≡ sum_of_name sums.now place }
{
    sums.as_slice()[place as usize]
}
