//! The keys that the rows of a report stand for: which frames count, the key of a frame, the order
//! of keys, their names, and their numbers at first sight.
//!
//! Begin with `keys` (`key_of`): the key of a frame. `order` sorts keys, `naming` writes their names, and `names`
//! numbers them at first sight.
#![tactic(auto)]

mod key;
mod keys;
mod names;
mod naming;
mod order;
mod texts;

pub use key::Key;
pub use keys::{counted, key_of};
pub use names::Names;
pub use naming::{write_name, write_texts_name};
pub use order::{key_order, texts_order};
pub use texts::{KeyTexts, texts_of};
