//! The sample types that have a word of their own.
ghost use Rattle.std.specs.Prelude.{◌≡◌};
ghost use Rattle.pp_options.specs.SampleTypes.{sample_type_named, type_name};

use crate::table::{Named, value_named};

/// A sample type that one word alone selects: those of Go's heap, mutex and block profiles.
#[derive(Clone, Copy, Debug, PartialEq, Eq)]
pub enum SampleType {
    InuseSpace,
    InuseObjects,
    AllocSpace,
    AllocObjects,
    Contentions,
    Delay,
}

/// The words that select them. The word of `delay` is `total_delay`.
pub static SAMPLE_TYPES: [Named<SampleType>; 6] = [
    (b"inuse_space", SampleType::InuseSpace),
    (b"inuse_objects", SampleType::InuseObjects),
    (b"alloc_space", SampleType::AllocSpace),
    (b"alloc_objects", SampleType::AllocObjects),
    (b"contentions", SampleType::Contentions),
    (b"total_delay", SampleType::Delay),
];

/// The sample type that the word selects.
#[tactic(auto, unfolding(crate::specs::SampleTypes::sample_type_named))]
pub fn sample_type_named(word: &[u8]) -> Option<SampleType>
    ensures { result ≡ sample_type_named word.now }
{
    value_named(&SAMPLE_TYPES, word)
}

impl SampleType {
    /// What profiles call it.
    pub fn name(self) -> &'static [u8]
        ensures { result.now ≡ type_name self }
    {
        match self {
            SampleType::InuseSpace => b"inuse_space",
            SampleType::InuseObjects => b"inuse_objects",
            SampleType::AllocSpace => b"alloc_space",
            SampleType::AllocObjects => b"alloc_objects",
            SampleType::Contentions => b"contentions",
            SampleType::Delay => b"delay",
        }
    }
}
