//! Why no profile is loaded.

use pp_check::TableFault;
use pp_legacy::LegacyFault;
use pp_merge::What;
use pp_wire::WireFault;
use thiserror::Error;

/// Why no profile is loaded. A source has its number from 0 in the list of the sources followed by the bases, each in
/// the order of the words.
#[derive(Clone, Copy, Debug, PartialEq, Eq, Error)]
pub enum LoadRefusal {
    /// No file has the path.
    #[error("source {source} is not there")]
    Missing { source: u32 },
    /// The file is longer than 268,435,456 bytes.
    #[error("source {source} is too long")]
    TooLong { source: u32 },
    /// The bytes of the sources up to this one are more than 268,435,456.
    #[error("the sources up to source {source} are too long")]
    AllTooLong { source: u32 },
    /// The file has no bytes.
    #[error("source {source} is empty")]
    Empty { source: u32 },
    /// The file is compressed.
    #[error("source {source} is compressed")]
    Compressed { source: u32 },
    /// The file is no message of profile.proto: its first fault.
    #[error("source {source}: {fault}")]
    Wire { source: u32, fault: WireFault },
    /// The file begins as a CPU profile of gperftools and is none: its first fault.
    #[error("source {source}: {fault}")]
    Legacy { source: u32, fault: LegacyFault },
    /// A table rule fails: the first one.
    #[error("source {source}: {fault}")]
    Table { source: u32, fault: TableFault },
    /// The first source whose types differ from those of source 0, and which types these are.
    #[error("source {source} differs from source 0")]
    Incompatible { source: u32, what: What },
    /// The least column, from 0, whose absolute values add up to more than 2^63-1 where profiles are merged.
    #[error("the sum of column {column} is too large")]
    TotalTooLarge { column: u32 },
    /// The least column, from 0, in which the sources have nothing but zeros and the bases have not.
    #[error("column {column} has nothing to scale")]
    NothingToScale { column: u32 },
    /// The matcher refused the pattern of the functions that are dropped.
    #[error("drop_frames is refused")]
    DropFrames,
    /// The matcher refused the pattern of the functions that stay in spite of it.
    #[error("keep_frames is refused")]
    KeepFrames,
}
