//! The texts of keys, by key number.
ghost use Rattle.std.specs.Prelude.{All};
ghost use Rattle.pp_grain.specs.Keys.{IsKeyOf};

use pp_grain::{KeyTexts, Names, texts_of};
use pp_model::Profile;

/// The names whose texts are looked up.
#[derive(Clone, Copy)]
pub struct NameTexts<'a> {
    /// The profile whose texts they are.
    pub p: &'a Profile,
    /// The names, by number.
    pub names: &'a Names,
    pub ghost of_profile: { All (IsKeyOf p.now) names.now },
}

impl<'a> NameTexts<'a> {
    ghost use Rattle.std.specs.Prelude.{◌≡◌, ◌≢◌, AllPairs};
    ghost use Rattle.pp_model.specs.Rules.{IsCompact};
    ghost use Rattle.pp_grain.specs.Told.{written_texts};
    ghost use Rattle.pp_calltree.specs.Laid.{CanLay};
    ghost use Rattle.pp_calltree.specs.Siblings.{texts_at};

    /// The texts of the names.
    pub fn new(p: &'a Profile, names: &'a Names) -> NameTexts<'a>
        requires compact { IsCompact p.now }
        requires keys { All (IsKeyOf p.now) names.now }
        requires distinct { AllPairs (λ a b. a ≢ b) names.now }
        ensures { CanLay p.now names.now result }
    {
        NameTexts { p, names }
    }

    /// The texts of the number, none where no name has it.
    pub fn at(&self, key: u64) -> KeyTexts<'a>
        ensures { written_texts result ≡ texts_at self.now key }
    {
        if key < self.names.len() {
            texts_of(self.p, &self.names.key(key))
        } else {
            NOTHING
        }
    }
}

// A key without texts.
const NOTHING: KeyTexts<'static> = KeyTexts {
    function: b"",
    file: b"",
    line: 0,
    column: 0,
    address: 0,
    object: b"",
};
