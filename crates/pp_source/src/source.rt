//! The source of a file text.
ghost use Rattle.std.specs.Prelude.{◌≡◌};

use pp_base::Text;

/// The most bytes of a source file: 128 MB.
pub const SOURCE_LIMIT: u64 = 134_217_728;

/// The limit in bytes.
pub fn limit_of_sources()
    ensures { SOURCE_LIMIT ≡ 134217728 }
{}

/// What there is of a file's source.
#[derive(Debug, Drop)]
pub enum FileSource {
    /// There is no file text, and so no path.
    NoName,
    /// None of the paths has a file.
    NotFound,
    /// The file has more bytes than `SOURCE_LIMIT`.
    TooLong,
    /// All bytes of the file.
    Whole(Text),
}
