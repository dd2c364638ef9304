//! The texts that patterns are asked of.

ghost use Rattle.std.specs.Prelude.{◌≡◌, ◌++◌, map, IfOk};
ghost use Rattle.pp_tags.specs.Labels.{key_value};
ghost use Rattle.pp_tags.specs.TagPairs.{tag_text};

use pp_base::{List, Memory, Text};
use pp_model::{Profile, Tag, text_of};
use std::alloc::Global;

/// For each tag its text: the key, a colon, and the value.
pub fn tag_texts(alloc: Global, p: &Profile, tags: &[Tag]) -> Result<List<Text>, Memory>
    ensures { IfOk result (λ texts. texts ≡ map (tag_text p.now) tags.now) }
{
    let mut texts = List::new(alloc);
    for tag in tags {
        texts.push(key_value(alloc, text_of(p, tag.key), text_of(p, tag.text))?)?;
    }
    Ok(texts)
}

// The key, a colon, and the value.
fn key_value(alloc: Global, key: &[u8], value: &[u8]) -> Result<Text, Memory>
    ensures { IfOk result (λ text. text ≡ key_value key.now value.now) }
{
    let mut text = Text::from_slice(alloc, key)?;
    text.extend(b":")?;
    text.extend(value)?;
    Ok(text)
}
