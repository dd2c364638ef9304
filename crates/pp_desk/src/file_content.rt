//! What the read of a path gives, where nothing stops it.

use pp_base::Text;

/// What stands at a path.
#[derive(Debug, Drop)]
pub enum FileContent {
    /// The whole content.
    Whole(Text),
    /// No file has the path.
    Missing,
    /// The content is longer than the limit of the read.
    TooLong,
}
