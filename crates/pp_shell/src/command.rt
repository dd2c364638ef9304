//! What a line asks for.

use pp_base::Text;
use pp_model::{Config, Report};

/// What a line asks for.
#[derive(Debug, Drop)]
pub enum Command {
    /// The line is empty.
    Nothing,
    /// The end of the session.
    Quit,
    /// The list of variables.
    Options,
    /// The two lines of help.
    Help,
    /// An assignment: the configuration of the lines that follow.
    Set(Config),
    /// A report.
    Run {
        report: Report,
        /// The configuration of this report alone.
        config: Config,
        /// The file that is written. Without one the report goes to standard output.
        to: Option<Text>,
    },
}
