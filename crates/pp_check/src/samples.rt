// What is known of the samples before the rules are tried.
ghost use Rattle.std.specs.Prelude.{◌≡◌, IsTrue};

/// Whether the samples of a profile, and the ids of its locations, have to be asked for their rules.
#[derive(Clone, Copy, Debug, Drop, PartialEq, Eq)]
pub(crate) enum Soundness {
    /// They were asked and break no rule, so they are left out.
    Sound,
    /// They may break a rule.
    Unasked,
}

impl Soundness {
    /// What is known where `sound` says whether they break no rule.
    pub(crate) fn known(sound: bool) -> Soundness
        ensures { result ≡ Soundness.Sound → IsTrue sound }
    {
        if sound {
            Soundness::Sound
        } else {
            Soundness::Unasked
        }
    }
}
