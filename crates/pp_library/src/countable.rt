//! The profile that the calls of this crate hand on.
ghost use Rattle.std.specs.Prelude.{◌≡◌};
ghost use Rattle.pp_model.specs.Words.{IsCountable};

use pp_model::{BaseKind, Loaded, Profile, Valid};

/// A loaded profile that can be counted: it has fewer than 2^32 samples and sample types, and the absolute values of
/// each column add up to no more than 2^63-1.
#[derive(Debug, Drop)]
pub struct Countable {
    /// The profile, with what its own two patterns find.
    pub loaded: Loaded,
    /// How a base was taken off, if one was. The reports compare and changes ask for one that was given to compare with.
    /// The profile alone can't tell: no sample of the base may be left in it.
    pub base: Option<BaseKind>,
    pub ghost countable: { IsCountable loaded.profile },
}

impl Countable {
    /// The tables.
    pub fn profile(&self) -> &Profile
        ensures same { result.now ≡ self.now.loaded.profile }
        ensures countable { IsCountable result.now }
    {
        self.loaded.profile.get()
    }

    /// The profile alone, to be labelled, merged or written.
    pub fn into_valid(self) -> Valid
        ensures same { result ≡ self.loaded.profile }
        ensures countable { IsCountable result }
    {
        let Countable { loaded, .. } = self;
        let Loaded { profile, .. } = loaded;
        profile.into_valid()
    }
}
