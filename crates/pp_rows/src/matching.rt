// What a regular expression finds, and which patterns are refused.

use crate::running::put_text;
use pp_base::{Judgement, List, Matcher, Memory, Text};
use pp_regex::RegexMatcher;
use std::alloc::Global;
use std::test::Fail;

// A pattern, what it is sought in, and for each text whether it is found, or that the pattern is refused.
static ROWS: [(&[u8], &[&[u8]], &[u8]); 9] = [
    (b"work", &[b"work", b"main.work", b"Work", b""], b"yynn"),
    (b"^(?:malloc)$", &[b"malloc", b"mallocgc"], b"yn"),
    (b"Method1.*Get", &[b"Method12.Get", b"Get.Method1"], b"yn"),
    (
        b"(?i)^runtime\\.",
        &[b"Runtime.main", b"runtime_main"],
        b"yn",
    ),
    (b"a|b", &[b"thread:b", b"thrd"], b"yn"),
    (b"b$", &[b"\xffb", b"b\xff"], b"yn"),
    (b"(", &[b"("], b"refused"),
    (b"a\xff", &[b"a\xff"], b"refused"),
    (b"(a)\\1", &[b"aa"], b"refused"),
];

#[test]
fn patterns_are_found_or_refused(rt: HostRuntime) -> Result<(), Fail> {
    let mut matcher = RegexMatcher::new(rt.alloc());
    for (pattern, texts, owed) in &ROWS {
        let answer = answer_of(rt.alloc(), &mut matcher, pattern, texts)?;
        assert!(rt; answer.as_slice() == *owed, "{pattern:?}");
    }
    assert!(rt; matcher.unbuilt() == 0);
    Ok(())
}

fn answer_of(
    alloc: Global,
    matcher: &mut RegexMatcher,
    pattern: &[u8],
    texts: &[&[u8]],
) -> Result<Text, Memory> {
    let pattern = Text::from_slice(alloc, pattern)?;
    let texts = list_of(alloc, texts)?;
    match matcher.judge(&pattern, &texts) {
        Judgement::Found(verdicts) => letters_of(alloc, verdicts.as_slice()),
        Judgement::Refused => Text::from_slice(alloc, b"refused"),
        Judgement::Memory => Err(Memory),
    }
}

fn list_of(alloc: Global, texts: &[&[u8]]) -> Result<List<Text>, Memory> {
    let mut list = List::new(alloc);
    for text in texts {
        put_text(alloc, &mut list, text)?;
    }
    Ok(list)
}

fn letters_of(alloc: Global, verdicts: &[bool]) -> Result<Text, Memory> {
    let mut letters = Text::new(alloc);
    for is_found in verdicts {
        letters.extend(if *is_found { b"y" } else { b"n" })?;
    }
    Ok(letters)
}
