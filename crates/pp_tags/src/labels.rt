//! What the labels of a sample say (profile.proto, message `Label`).

ghost use Rattle.std.specs.Prelude.{◌≡◌, bytes_eq};
ghost use Rattle.pp_tags.specs.Labels.{has_text, number_unit, unit_of_key};

use pp_model::{Label, Profile, text_of};

/// Whether the label has a text; else it has a number.
pub fn has_text(label: &Label) -> bool
    ensures { result ≡ has_text label.now }
{
    label.text != 0
}

/// The unit of a number label. Where it names none, it is `bytes` for the keys `request` and `alignment`, and for any
/// other key the key itself.
pub fn number_unit<'a>(p: &'a Profile, label: &Label) -> &'a [u8]
    ensures { result.now ≡ number_unit p.now label.now }
{
    let unit = text_of(p, label.num_unit);
    if unit.is_empty() {
        unit_of_key(text_of(p, label.key))
    } else {
        unit
    }
}

// The unit of a number whose label names none.
fn unit_of_key(key: &[u8]) -> &[u8]
    ensures { result.now ≡ unit_of_key key.now }
{
    if is(key, b"request") || is(key, b"alignment") {
        b"bytes"
    } else {
        key
    }
}

fn is(text: &[u8], word: &[u8]) -> bool
    ensures { result ≡ bytes_eq text.now word.now }
{
    text == word
}
