//! Faults of the words of a command line.
ghost use Rattle.std.specs.Prelude.{◌≡◌};
ghost use Rattle.pp_options.specs.declared.usage.UsageRefusal.TheVariants as refusals;

use pp_base::Memory as WantOfMemory;
use thiserror::Error;

/// What is wrong with a word.
#[derive(Clone, Copy, Debug, PartialEq, Eq, Error)]
pub enum UsageKind {
    /// No option has the name.
    #[error("unknown option")]
    UnknownOption,
    /// The option can't have the value.
    #[error("bad value")]
    BadValue,
    /// The option needs a value, and is the last word.
    #[error("missing value")]
    MissingValue,
    /// There is a format before.
    #[error("two formats")]
    TwoFormats,
    /// The words name no source. The fault stands after the last word.
    #[error("no source")]
    NoSource,
    /// There are 256 sources and bases before.
    #[error("too many sources")]
    TooMany,
    /// There is a base of the other kind before.
    #[error("both -base and -diff_base")]
    BaseTwice,
    /// There is nothing to normalize by.
    #[error("-normalize without a base")]
    NormalizeAlone,
}

/// The first fault of the words.
#[derive(Clone, Copy, Debug, PartialEq, Eq, Error)]
#[error("word {word}: {kind}")]
pub struct UsageFault {
    /// What is wrong with the word.
    pub kind: UsageKind,
    /// The number of the word, from 1; of an option whose value is the next word, the option's.
    pub word: u64,
}

/// Why the words are no plan.
#[derive(Clone, Copy, Debug, PartialEq, Eq, Error)]
pub enum UsageRefusal {
    /// A word is wrong.
    #[error("{0}")]
    Fault(UsageFault),
    /// Want of memory.
    #[error("out of memory")]
    Memory,
}

impl From<WantOfMemory> for UsageRefusal {
    ghost from_gives = { λ _ e. e ≡ refusals.Memory };

    fn from(_: WantOfMemory) -> Self {
        UsageRefusal::Memory
    }
}
