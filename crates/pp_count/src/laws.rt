//! What holds of any verdicts, as the contract of a call that does nothing.
ghost use Rattle.pp_count.specs.Found.{VerdictsAreFound};

// What would break it: a premise that asks for one verdict where two tags have one text.
/// Whatever truth values verdicts have, some patterns find just these: each list has a truth value for each text of the
/// profile, and those of a tag filter without a name one for each tag.
///
/// So what `count` and the calls above it say of the patterns that the verdicts hold, they say of any verdicts.
pub fn verdicts_are_found()
    ensures { VerdictsAreFound }
{}
