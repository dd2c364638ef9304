//! Searches of many texts by one regular expression.

ghost use Rattle.std.specs.Prelude.{◌≡◌, IfOk, map, is_some};
ghost use Rattle.regex.specs.Patterns.{Re, SameCaptures, find};
ghost use Rattle.regex.specs.Bytes.{regex_pattern, matcher_pattern};

use pp_base::Text;
use regex::bytes;
use std::alloc::{AllocError, Global};

/// For each subject, in order, whether the regular expression has a match in it. The subjects share the memory that a
/// search works in.
pub fn verdicts_of(
    alloc: Global,
    regex: &bytes::Regex,
    subjects: &[Text],
) -> Result<Vec<bool>, AllocError>
    ensures { (re : Re) → SameCaptures (regex_pattern regex.now) re → IfOk result
        (λ verdicts. verdicts.items ≡ map (λ subject. is_some (find re subject 0)) subjects.now) }
{
    let mut matcher = regex.matcher(alloc)?;
    let mut verdicts = Vec::with_capacity(alloc, subjects.len())?;
    for subject in subjects {
        verdicts.push(has_match(&mut matcher, subject.as_slice()))?;
    }
    Ok(verdicts)
}

// Whether the matcher's pattern has a match in the subject.
fn has_match(matcher: &mut bytes::Matcher<'_>, subject: &[u8]) -> bool
    ensures found { (re : Re) → SameCaptures (matcher_pattern matcher.old) re
        → result ≡ is_some (find re subject.now 0) }
    ensures same { matcher_pattern matcher.new ≡ matcher_pattern matcher.old }
{
    matcher.is_match(subject)
}
