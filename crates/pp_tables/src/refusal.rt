//! Why bytes are no profile.
ghost use Rattle.std.specs.Prelude.{◌≡◌};

use pp_base::Memory;
use pp_wire::WireFault;
use thiserror::Error;

/// Why a file isn't read as a profile.
#[derive(Clone, Copy, Debug, PartialEq, Eq, Error)]
pub enum ReadRefusal {
    /// The file has no bytes.
    #[error("empty")]
    Empty,
    /// The file begins as a gzip file does.
    #[error("compressed")]
    Compressed,
    /// The first fault of the message, nested messages included.
    #[error("{0}")]
    Wire(WireFault),
    /// Want of memory.
    #[error("out of memory")]
    Memory,
}

impl From<WireFault> for ReadRefusal {
    ghost use Rattle.pp_tables.specs.declared.refusal.ReadRefusal.TheVariants.{Wire};

    ghost from_gives = { λ fault e. e ≡ Wire fault };

    fn from(fault: WireFault) -> Self {
        ReadRefusal::Wire(fault)
    }
}

impl From<Memory> for ReadRefusal {
    ghost use Rattle.pp_tables.specs.declared.refusal.ReadRefusal.TheVariants.{Memory as memory};

    ghost from_gives = { λ _ e. e ≡ memory };

    fn from(_: Memory) -> Self {
        ReadRefusal::Memory
    }
}
