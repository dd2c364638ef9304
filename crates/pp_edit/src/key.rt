//! The key of labels that are taken off.
ghost use Rattle.std.specs.Prelude.{◌≡◌, IfOk};
ghost use Rattle.pp_edit.specs.Keys.{AreKeyVerdicts, names_key};

use pp_base::{List, Memory, Text};
use pp_model::Label;
use std::alloc::Global;

/// Which texts of a profile are a key, so that no text is compared once a label.
#[derive(Drop)]
pub struct LabelKey {
    /// For each text, whether it is the key.
    pub texts: List<bool>,
    /// Whether the empty text is the key, for which an index past the texts stands.
    pub past: bool,
}

/// The key among these texts, which are compared byte by byte. `Err` is want of memory.
pub fn key_in(alloc: Global, texts: &[Text], key: &[u8]) -> Result<LabelKey, Memory>
    ensures { IfOk result (λ k. AreKeyVerdicts texts.now key.now k) }
{
    let mut are = List::from_vec(Vec::with_capacity(alloc, texts.len())?);
    for text in texts {
        are.push(key == text.as_slice())?;
    }
    Ok(LabelKey {
        texts: are,
        past: key.is_empty(),
    })
}

impl LabelKey {
    /// Whether the label's name is the key. A negative index stands for the first text.
    pub fn is_of(&self, label: &Label) -> bool
        ensures { result ≡ names_key self.now label.now }
    {
        let place = if label.key < 0 { 0 } else { label.key as usize };
        match self.texts.as_slice().get(place) {
            None => self.past,
            Some(is) => *is,
        }
    }
}
