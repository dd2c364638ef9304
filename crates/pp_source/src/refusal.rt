//! Why a list report has no text.

use thiserror::Error;

/// Why there is no list report.
#[derive(Clone, Copy, Debug, PartialEq, Eq, Error)]
pub enum ListRefusal {
    /// The report's own pattern finds the function of no frame that counts.
    #[error("no function matches")]
    NoMatch,
}
