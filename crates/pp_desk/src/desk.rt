//! The outside in one hand.
ghost use Rattle.std.specs.Prelude.{List, ℕ, Bool, IfOk};
ghost use Rattle.pp_desk.specs.World.{World};
ghost use Rattle.pp_desk.specs.Went.{Went, FitsWithin};
ghost use Rattle.pp_desk.specs.Script.{write_out, write_err, read_file, write_file, ask, next_line};

use crate::file_content::FileContent;
use crate::input_line::InputLine;
use crate::stop::Stop;
use pp_base::{List as Items, Text};

/// All objects of the outside: standard output, standard error, files, the matcher and standard input. Each call is
/// one step of a script. After a `Stop` the bytes of a write may have been written in part.
pub trait Desk {
    /// Whether a pattern is found in a subject.
    ghost finds: { List ℕ → List ℕ → Bool };

    /// What the objects tell, how often they have failed, and which they are.
    ghost world: { Self → World };

    /// Writes all of the bytes to standard output.
    fn write_out(&mut self, bytes: &[u8]) -> Result<(), Stop>
        ensures { Went (world self.old) (world self.new) (write_out bytes.now) result };

    /// Writes all of the bytes to standard error.
    fn write_err(&mut self, bytes: &[u8]) -> Result<(), Stop>
        ensures { Went (world self.old) (world self.new) (write_err bytes.now) result };

    /// Reads the content of the path, of at most `limit` bytes.
    fn read_file(&mut self, path: &Text, limit: u64) -> Result<FileContent, Stop>
        ensures went { Went (world self.old) (world self.new) (read_file path.now limit) result }
        ensures fits { IfOk result (FitsWithin limit) };

    /// Makes the bytes the content of the path. It answers false where the path is locked, which changes nothing.
    fn write_file(&mut self, path: &Text, bytes: &[u8]) -> Result<bool, Stop>
        ensures { Went (world self.old) (world self.new) (write_file path.now bytes.now) result };

    /// For each subject, in order, whether the matcher finds the pattern in it. It answers `None` where the text is
    /// no pattern.
    fn ask(&mut self, pattern: &Text, subjects: &Items<Text>) -> Result<Option<Items<bool>>, Stop>
        ensures { Went (world self.old) (world self.new)
            (ask finds pattern.now subjects.now) result };

    /// Reads the next line of standard input. It waits for no byte behind the line's end, and after the last line it
    /// repeats how the input ended. After a `Stop` the same line is still to come.
    fn next_line(&mut self) -> Result<InputLine, Stop>
        ensures { Went (world self.old) (world self.new) next_line result };
}
