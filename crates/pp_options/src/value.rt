//! The values of variables, as texts spell them.
ghost use Rattle.std.specs.Prelude.{◌≡◌, ◌≤◌, ◌^◌, negsuc, ◌≤ℤ◌, IfSome};
ghost use Rattle.pp_options.specs.Values.{sort_named, grain_named, truth_of, whole_number, nodecount_of};

use crate::table::{Named, value_named};
use crate::text::is;
use pp_model::{Grain, Sort};
use pp_units::number_within;

pub static SORTS: [Named<Sort>; 2] = [(b"flat", Sort::Flat), (b"cum", Sort::Cum)];

pub static GRAINS: [Named<Grain>; 5] = [
    (b"functions", Grain::Functions),
    (b"filefunctions", Grain::FileFunctions),
    (b"files", Grain::Files),
    (b"lines", Grain::Lines),
    (b"addresses", Grain::Addresses),
];

pub static TRUTHS: [Named<bool>; 10] = [
    (b"true", true),
    (b"t", true),
    (b"yes", true),
    (b"y", true),
    (b"1", true),
    (b"false", false),
    (b"f", false),
    (b"no", false),
    (b"n", false),
    (b"0", false),
];

/// The order of the name: `flat` or `cum`.
#[tactic(auto, unfolding(crate::specs::Values::sort_named))]
pub fn sort_named(name: &[u8]) -> Option<Sort>
    ensures { result ≡ sort_named name.now }
{
    value_named(&SORTS, name)
}

/// The granularity of the name.
#[tactic(auto, unfolding(crate::specs::Values::grain_named))]
pub fn grain_named(name: &[u8]) -> Option<Grain>
    ensures { result ≡ grain_named name.now }
{
    value_named(&GRAINS, name)
}

/// The truth value that the word stands for: `true`, `t`, `yes`, `y` or `1`, and `false`, `f`, `no`, `n` or `0`.
#[tactic(auto, unfolding(crate::specs::Values::truth_of))]
pub fn truth_of(word: &[u8]) -> Option<bool>
    ensures { result ≡ truth_of word.now }
{
    value_named(&TRUTHS, word)
}

/// The number that the decimal digits spell, where it is from `least` to `most`.
#[tactic(auto, unfolding(crate::specs::Values::whole_number))]
pub fn whole_number(digits: &[u8], least: u64, most: u64) -> Option<u64>
    requires { most ≤ 2 ^ 63 }
    ensures value { result ≡ whole_number least most digits.now }
    ensures least { IfSome result (λ n. least ≤ n) }
    ensures most { IfSome result (λ n. n ≤ most) }
{
    if digits.is_empty() {
        return None;
    }
    let number = number_within(digits, most)?;
    if number < least { None } else { Some(number) }
}

/// The number of rows that the text spells: digits up to 2147483647, or -1.
#[tactic(auto, unfolding(crate::specs::Values::nodecount_of))]
pub fn nodecount_of(text: &[u8]) -> Option<i32>
    ensures value { result ≡ nodecount_of text.now }
    ensures least { IfSome result (λ n. negsuc 0 ≤ℤ n) }
{
    if is(text, b"-1") {
        return Some(-1);
    }
    let number = whole_number(text, 0, i32::MAX as u64)?;
    Some(number as i32)
}
