//! Where profiles come from.

use pp_base::Text;

/// A source of samples.
#[derive(Debug, Drop)]
pub enum Origin {
    /// A file.
    Path(Text),
    /// A synthetic profile with this number of samples, from 1 to 1,000,000.
    Gen(u32),
}
