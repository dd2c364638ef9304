//! The order of keys.
ghost use Rattle.std.specs.Prelude.{◌≡◌};
ghost use Rattle.std.specs.Ordering.{nat_cmp, ordering_then};
ghost use Rattle.std.specs.Cmp.Lexicographic.{slice_cmp};
ghost use Rattle.pp_grain.specs.Told.{written_texts};
ghost use Rattle.pp_grain.specs.Keys.{key_cmp, key_written, IsKeyOf};

use crate::key::Key;
use crate::texts::{KeyTexts, texts_of};
use pp_model::Loaded;
use std::cmp::Ordering;

/// The order of the keys' texts and numbers: by function, file, line, column, address and object.
pub fn key_order(l: &Loaded, a: &Key, b: &Key) -> Ordering
    requires a { IsKeyOf l.now.profile a.now }
    requires b { IsKeyOf l.now.profile b.now }
    ensures { result ≡ key_cmp (key_written l.now.profile a.now) (key_written l.now.profile b.now) }
{
    let p = l.profile.get();
    texts_order(&texts_of(p, a), &texts_of(p, b))
}

/// The order of keys whose texts are at hand. No text is looked at where an earlier part decides.
pub fn texts_order(a: &KeyTexts, b: &KeyTexts) -> Ordering
    ensures { result ≡ key_cmp (written_texts a.now) (written_texts b.now) }
{
    let by_function = a.function.cmp(&b.function);
    let by_place = then_texts(by_function, a.file, b.file)
        .then(a.line.cmp(&b.line))
        .then(a.column.cmp(&b.column))
        .then(a.address.cmp(&b.address));
    then_texts(by_place, a.object, b.object)
}

// The order so far, or where it is equal that of the texts.
fn then_texts(so_far: Ordering, a: &[u8], b: &[u8]) -> Ordering
    ensures { result ≡ ordering_then so_far (slice_cmp nat_cmp a.now b.now) }
{
    if so_far.is_ne() { so_far } else { a.cmp(&b) }
}
