//! Columns that end at the right.
ghost use Rattle.std.specs.Prelude.{◌≡◌, ◌++◌, take, length, replicate, OnOk, OnErr};
ghost use Rattle.pp_units.specs.Numbers.{right_text};

use pp_base::{Memory, Text, whole_or_nothing};

/// Appends the text, after as many spaces as bring it to `width` bytes; a longer text stands whole.
pub fn put_right(width: usize, text: &[u8], out: &mut Text) -> Result<(), Memory>
    ensures ok { OnOk result (out.new ≡ out.old ++ right_text width text.now) }
    ensures err { OnErr result (out.new ≡ out.old) }
{
    let start = out.len();
    let put = put_column(width.saturating_sub(text.len()), text, out);
    whole_or_nothing(out, start, put)
}

/// Appends one text and then another.
pub fn put_both(first: &[u8], second: &[u8], out: &mut Text) -> Result<(), Memory>
    ensures ok { OnOk result (out.new ≡ out.old ++ (first.now ++ second.now)) }
    ensures err { OnErr result (out.new ≡ out.old) }
{
    let start = out.len();
    out.extend(first)?;
    let put = out.extend(second);
    whole_or_nothing(out, start, put)
}

// Without memory the text has gained some of it.
fn put_column(spaces: usize, text: &[u8], out: &mut Text) -> Result<(), Memory>
    ensures ok { OnOk result (out.new ≡ out.old ++ (replicate spaces 32 ++ text.now)) }
    ensures err { OnErr result (take (length out.old) out.new ≡ out.old) }
{
    for _ in 0..spaces {
        out.extend(b" ")?;
    }
    out.extend(text)
}
