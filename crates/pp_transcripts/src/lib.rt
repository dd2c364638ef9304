//! Transcripts of whole sessions: what a session is given, and what it owes.
//!
//! Begin with `line`, which has the form of a file of transcripts, and `transcript`, which reads one. `session` is a
//! transcript with its files, and `trials` the calls of the outside that fail in a run of it.
#![tactic(auto)]

mod calls;
mod contents;
mod escapes;
mod line;
mod problem;
mod session;
mod transcript;
mod trials;
mod words;

pub use calls::{Calls, Failing, Failure};
pub use contents::{Contents, is_among};
pub use escapes::put_escaped;
pub use problem::Problem;
pub use session::{Folder, Session, Unready};
pub use transcript::{FilePart, Owed, ParseFault, Patterns, Setup, Transcript, transcripts_of};
pub use trials::{AllCalls, Fault, Object, Trial};
pub use words::put_words;
