//! Parts of a text that is read: what a byte parts, and numbers in digits.
ghost use Rattle.std.specs.Prelude.{◌≡◌, ◌==◌, ◌^◌, ◌≤◌, is_some, IfSome, IfNone};
ghost use Rattle.std.specs.List.{list_any, before_first, after_first};
ghost use Rattle.pp_units.specs.Digits.{within};

/// What stands before the first such byte, and what stands after it. `None` where there is none.
pub fn cut_at(text: &[u8], byte: u8) -> Option<(&[u8], &[u8])>
    ensures found { is_some result ≡ list_any (λ b. b == byte) text.now }
    ensures before { IfSome result (λ p. p.0.now ≡ before_first (λ b. b == byte) text.now) }
    ensures after { IfSome result (λ p. p.1.now ≡ after_first (λ b. b == byte) text.now) }
    ensures whole { IfNone result (before_first (λ b. b == byte) text.now ≡ text.now) }
{
    for (at, b) in text.iter().enumerate() {
        if *b == byte {
            return Some((text.split_at(at).0, text.split_at(at + 1).1));
        }
    }
    None
}

/// The number that the digits spell, where each byte is a digit and the number is at most `most`.
pub fn number_within(digits: &[u8], most: u64) -> Option<u64>
    requires { most ≤ 2 ^ 63 }
    ensures { result ≡ within most digits.now }
{
    let mut number: u128 = 0;
    for digit in digits {
        if !digit.is_ascii_digit() {
            return None;
        }
        number = number * 10 + u128::from(*digit - b'0');
        if number > u128::from(most) {
            return None;
        }
    }
    Some(number as u64)
}
