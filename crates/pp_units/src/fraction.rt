//! Fractions of at most one.
ghost use Rattle.std.specs.Prelude.{◌≡◌, ◌^◌, ◌≤◌, IfSome, option_map};
ghost use Rattle.pp_units.specs.Fractions.{fraction_of, at_most_one};

use crate::scan::{cut_at, number_within};
use pp_base::Fraction;

/// How many billionths are 1.
pub const BILLION: u64 = 1_000_000_000;

/// The fraction that the text spells. `None` where it spells none, or one above 1.
///
/// With a point, one to nine decimals stand after it and at most nine digits before it, as in
/// `.25`. Without a point the text has one to nine digits.
#[tactic(auto, unfolding(crate::specs::Fractions::fraction_of))]
pub fn read_fraction(text: &[u8]) -> Option<Fraction>
    ensures { option_map (λ found. found.billionths) result ≡ fraction_of text.now }
{
    let billionths = match cut_at(text, b'.') {
        Some((_, [])) => None,
        Some((whole, decimals)) => at_most_one(whole, decimals),
        None if text.is_empty() => None,
        None => at_most_one(text, &[]),
    };
    Some(Fraction {
        billionths: billionths?,
    })
}

// The value of whole digits and of decimals in billionths, where each has at most nine.
fn at_most_one(whole: &[u8], decimals: &[u8]) -> Option<u32>
    ensures value { result ≡ at_most_one whole.now decimals.now }
    ensures bounded { IfSome result (λ n. n ≤ 10 ^ 9) }
{
    if whole.len() > 9 || decimals.len() > 9 {
        return None;
    }
    let ones = number_within(whole, 1)?;
    let parts = number_within(decimals, BILLION)?;
    let billionths = ones * BILLION + parts * 10_u64.pow(9 - decimals.len() as u32);
    if billionths > BILLION {
        return None;
    }
    Some(billionths as u32)
}
