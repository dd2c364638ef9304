//! Why the bytes of a file are not loaded.
ghost use Rattle.std.specs.Prelude.{◌≡◌, Some};
ghost use Rattle.pp_library.specs.Loads.{refusal_of, IsOfOne};
ghost use Rattle.pp_library.specs.declared.load_error.LoadError.TheVariants as errors;

use pp_base::Memory as WantOfMemory;
use pp_check::TableFault;
use pp_legacy::LegacyFault;
use pp_load::LoadRefusal;
use pp_wire::WireFault;
use thiserror::Error;

/// Why the bytes of a file are not loaded: the first cause.
#[derive(Clone, Copy, Debug, PartialEq, Eq, Error)]
pub enum LoadError {
    /// They are more than 268,435,456 bytes.
    #[error("the file is too long")]
    TooLong,
    /// There are no bytes.
    #[error("the file is empty")]
    Empty,
    /// They begin as a gzip file does.
    #[error("the file is compressed")]
    Compressed,
    /// They are no message of profile.proto: its first fault.
    #[error("{0}")]
    Wire(WireFault),
    /// They begin as a CPU profile of gperftools and are none: its first fault.
    #[error("{0}")]
    Legacy(LegacyFault),
    /// A table rule fails: the first one.
    #[error("{0}")]
    Table(TableFault),
    /// The least column, from 0, whose absolute values add up to more than 2^63-1.
    #[error("the sum of column {column} is too large")]
    TotalTooLarge { column: u32 },
    /// The matcher refused the profile's own pattern of functions that are dropped with all that they call.
    #[error("drop_frames is refused")]
    DropFrames,
    /// The matcher refused the profile's own pattern of functions that stay in spite of it.
    #[error("keep_frames is refused")]
    KeepFrames,
    /// Want of memory.
    #[error("out of memory")]
    Memory,
}

impl From<WantOfMemory> for LoadError {
    ghost from_gives = { λ _ e. e ≡ errors.Memory };

    fn from(_: WantOfMemory) -> Self {
        LoadError::Memory
    }
}

/// The error that tells a refusal of the one source.
pub(crate) fn error_of(refusal: LoadRefusal) -> LoadError
    requires { IsOfOne refusal }
    ensures { refusal_of result ≡ Some refusal }
{
    match refusal {
        LoadRefusal::TooLong { .. } => LoadError::TooLong,
        LoadRefusal::Empty { .. } => LoadError::Empty,
        LoadRefusal::Compressed { .. } => LoadError::Compressed,
        LoadRefusal::Wire { fault, .. } => LoadError::Wire(fault),
        LoadRefusal::Legacy { fault, .. } => LoadError::Legacy(fault),
        LoadRefusal::Table { fault, .. } => LoadError::Table(fault),
        LoadRefusal::TotalTooLarge { column } => LoadError::TotalTooLarge { column },
        LoadRefusal::DropFrames => LoadError::DropFrames,
        LoadRefusal::KeepFrames => LoadError::KeepFrames,
        LoadRefusal::Missing { .. }
        | LoadRefusal::AllTooLong { .. }
        | LoadRefusal::Incompatible { .. }
        | LoadRefusal::NothingToScale { .. } => unreachable!(),
    }
}
