//! How options are spelled.
ghost use Rattle.std.specs.Prelude.{◌≡◌, option_map};
ghost use Rattle.pp_options.specs.Spelling.{is_option, without_dash, without_dashes, name_part, value_part, takes_next};

use crate::name::option_named;
use pp_units::cut_at;

/// Whether the word is an option: it begins with a dash and is longer.
pub fn is_option(word: &[u8]) -> bool
    ensures { result ≡ is_option word.now }
{
    match word {
        [b'-', _, ..] => true,
        _ => false,
    }
}

fn without_dash(word: &[u8]) -> &[u8]
    ensures { result.now ≡ without_dash word.now }
{
    match word {
        [b'-', after @ ..] => after,
        _ => word,
    }
}

// The option after its one or two dashes.
fn without_dashes(word: &[u8]) -> &[u8]
    ensures { result.now ≡ without_dashes word.now }
{
    without_dash(without_dash(word))
}

/// The name of the option: what stands after the dashes, before the first `=`.
pub fn name_in(word: &[u8]) -> &[u8]
    ensures { result.now ≡ name_part word.now }
{
    let option = without_dashes(word);
    match cut_at(option, b'=') {
        Some((name, _)) => name,
        None => option,
    }
}

/// The value that stands after the first `=` of the option, and may be empty. `None` where there is no `=`.
pub fn value_in(word: &[u8]) -> Option<&[u8]>
    ensures { option_map (λ x. x.now) result ≡ value_part word.now }
{
    let (_, value) = cut_at(without_dashes(word), b'=')?;
    Some(value)
}

/// Whether the word is an option whose value is the next word: it needs a value, and has no `=`.
#[tactic(auto, unfolding(crate::specs::Spelling::takes_next))]
pub fn takes_next(word: &[u8]) -> bool
    ensures { result ≡ takes_next word.now }
{
    if !is_option(word) || value_in(word).is_some() {
        return false;
    }
    match option_named(name_in(word)) {
        Some(name) => name.needs_value(),
        None => false,
    }
}
