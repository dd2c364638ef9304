//! What a label says, told apart by texts.
ghost use Rattle.std.specs.Prelude.{◌≡◌, [], pos, true, false};
ghost use Rattle.pp_tags.specs.Labels.{key_text};
ghost use Rattle.pp_samples.specs.TagLines.{tag_texts};
ghost use Rattle.pp_samples.specs.Names.{name_texts, key_tag, tag_value_cmp};

use pp_model::{Label, Profile, text_of};
use pp_tags::{has_text, number_unit};
use std::cmp::Ordering;
use std::hash::{Hash, Hasher};

/// A key with its text, or with its number and the number's unit. A key alone has the empty text. Texts are those of the
/// profile that has the label.
#[derive(Clone, Copy, Debug, PartialEq, Eq)]
pub struct TagName<'a> {
    /// The label's key.
    pub key: &'a [u8],
    /// Whether it is a number label.
    pub is_number: bool,
    /// The text of a text label.
    pub text: &'a [u8],
    /// The number of a number label, in its unit.
    pub num: i64,
    /// The unit of the number, empty where there is none.
    pub unit: &'a [u8],
}

// The tags of a table have one key, or are keys. So a hash takes only what tells them apart.
impl Hash for TagName<'_> {
    ghost use Rattle.pp_samples.specs.TagHashes.{hashed_name, same_hashed};

    ghost hash_input = { hashed_name };

    ghost respects_eq = { same_hashed };

    fn hash<H: Hasher>(&self, state: &mut H) {
        if self.is_number {
            self.num.hash(state);
            state.write(self.unit);
        } else {
            state.write(self.key);
            state.write(self.text);
        }
    }
}

/// What the label says.
pub fn tag_name<'a>(p: &'a Profile, label: &Label) -> TagName<'a>
    ensures { name_texts result ≡ tag_texts p.now label.now }
{
    let key = text_of(p, label.key);
    if has_text(label) {
        return text_name(key, text_of(p, label.text));
    }
    TagName {
        key,
        is_number: true,
        text: b"",
        num: label.num,
        unit: number_unit(p, label),
    }
}

fn text_name<'a>(key: &'a [u8], text: &'a [u8]) -> TagName<'a>
    ensures { name_texts result ≡ record {
      key = key.now;
      is_number = false;
      text = text.now;
      num = pos 0;
      unit = [];
    } }
{
    TagName {
        key,
        is_number: false,
        text,
        num: 0,
        unit: b"",
    }
}

/// The key of the label alone.
pub fn key_name<'a>(p: &'a Profile, label: &Label) -> TagName<'a>
    ensures { name_texts result ≡ key_tag (key_text p.now label.now) }
{
    text_name(text_of(p, label.key), b"")
}

/// The order of the tags of a key: texts before numbers, by text, number and unit.
pub fn tag_value_order(a: &TagName, b: &TagName) -> Ordering
    ensures { result ≡ tag_value_cmp (name_texts a.now) (name_texts b.now) }
{
    let kinds = a.is_number.cmp(&b.is_number);
    if kinds.is_ne() {
        return kinds;
    }
    let texts = a.text.cmp(b.text);
    if texts.is_ne() {
        return texts;
    }
    let numbers = a.num.cmp(&b.num);
    if numbers.is_ne() {
        return numbers;
    }
    a.unit.cmp(b.unit)
}
