//! Runs of neighbours among lines in order.
ghost use Rattle.std.specs.Prelude.{◌≡◌, ◌<◌, ◌≤◌, ◌∷◌, ◌++◌, length, take, drop};
ghost use Rattle.pp_source.specs.Routines.{runs, is_same_routine};
ghost use Rattle.pp_source.specs.Ledgers.{line_texts, lines_texts};

use crate::lines::FoundLine;

/// The lines from the first on that are of the same function and file, and the others.
pub fn cut_routine<'x, 'a>(lines: &'x [FoundLine<'a>]) -> (&'x [FoundLine<'a>], &'x [FoundLine<'a>])
    requires { 0 < length lines.now }
    ensures parts { lines.now ≡ result.0.now ++ result.1.now }
    ensures less { length result.1.now < length lines.now }
    ensures run { runs is_same_routine (lines_texts lines.now)
        ≡ lines_texts result.0.now ∷ runs is_same_routine (lines_texts result.1.now) }
{
    lines.split_at(routine_len(lines))
}

fn routine_len(lines: &[FoundLine<'_>]) -> usize
    requires { 0 < length lines.now }
    ensures some { 0 < result }
    ensures within { result ≤ length lines.now }
    ensures run { runs is_same_routine (lines_texts lines.now)
        ≡ lines_texts (take result lines.now)
        ∷ runs is_same_routine (lines_texts (drop result lines.now)) }
{
    let mut len = 1;
    while len < lines.len() && is_same_routine(&lines[len - 1], &lines[len]) {
        len += 1;
    }
    len
}

fn is_same_routine(a: &FoundLine<'_>, b: &FoundLine<'_>) -> bool
    ensures { result ≡ is_same_routine (line_texts a.now) (line_texts b.now) }
{
    a.texts.function == b.texts.function && a.texts.file == b.texts.file
}
