//! Calls that append to a text, and leave it as it was where memory runs out.

ghost use Rattle.std.specs.Prelude.{◌≡◌, take, OnOk, OnErr};

use crate::{Memory, Text};

/// The answer of an appending call, whose text had `start` bytes before it. On want of memory the text loses what was
/// appended since.
pub fn whole_or_nothing(
    out: &mut Text,
    start: usize,
    done: Result<(), Memory>,
) -> Result<(), Memory>
    ensures same { result ≡ done }
    ensures ok { OnOk result (out.new ≡ out.old) }
    ensures err { OnErr result (out.new ≡ take start out.old) }
{
    if done.is_err() {
        out.truncate(start);
    }
    done
}
