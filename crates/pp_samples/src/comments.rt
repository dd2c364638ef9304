//! The comments report.
ghost use Rattle.std.specs.Prelude.{◌≡◌, ◌++◌, ℤ, IfOk, OnOk, OnErr};
ghost use Rattle.std.specs.List.{flat_map};
ghost use Rattle.pp_samples.specs.Comments.{comments_text, comment_line};

use pp_base::{Memory, Text};
use pp_model::{Compact, Profile, text_of};
use std::alloc::Global;

/// Appends a line for each comment of the profile, in order. `Err` is want of memory, and leaves `out` as it was.
pub fn write_comments(alloc: Global, p: &Compact, out: &mut Text) -> Result<(), Memory>
    ensures ok { OnOk result (out.new ≡ out.old ++ comments_text p.now) }
    ensures err { OnErr result (out.new ≡ out.old) }
{
    let mut lines = Text::new(alloc);
    put_comments(p.get(), &mut lines)?;
    out.append(lines)
}

fn put_comments(p: &Profile, lines: &mut Text) -> Result<(), Memory>
    ensures { IfOk result (λ _.
        lines.new ≡ lines.old ++ flat_map (comment_line p.now) p.now.comment) }
{
    for comment in p.comment.as_slice() {
        put_comment(p, *comment, lines)?;
    }
    Ok(())
}

fn put_comment(p: &Profile, comment: i64, lines: &mut Text) -> Result<(), Memory>
    ensures { IfOk result (λ _. lines.new ≡ lines.old ++ comment_line p.now comment) }
{
    lines.extend(text_of(p, comment))?;
    lines.extend(b"\n")
}
