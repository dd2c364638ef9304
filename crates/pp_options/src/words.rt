//! The words of a command line.
ghost use Rattle.std.specs.Prelude.{◌≡◌, ◌+◌, ◌<◌, ◌^◌, ◌&&◌, List, length, None, is_some, option_map, IfOk, IfNone, IsTrue, if◌then◌else◌};
ghost use Rattle.pp_options.specs.Items.{is_fair_item};
ghost use Rattle.pp_options.specs.Words.{Entry, entry, entries, sources, is_empty, late_fault};
ghost use Rattle.pp_options.specs.Plans.{ReadsPlan};
ghost use Rattle.pp_options.specs.Drafts.{IsReading, ReadsAll, TakesEntry, request_in, taken_next, left_after, Finishes};

use crate::draft::Draft;
use crate::item::{Item, item_of};
use crate::spelling::takes_next;
use crate::text::is;
use crate::{Plan, UsageFault, UsageKind, UsageRefusal};
use pp_base::Text;
use std::alloc::Global;
use std::mem;

/// What the words after the program's name ask for, or their first fault.
///
/// A word that begins with a dash and is longer is an option, with one or two dashes. Its value
/// stands after `=`, or is the next word; a flag takes no next word. After `--` all words are
/// sources.
#[tactic(auto, unfolding(crate::specs::Words::words))]
pub fn read_words(alloc: Global, words: &[Text]) -> Result<Plan, UsageRefusal>
    ensures { ReadsPlan words.now result }
{
    let mut draft = Draft::new(alloc)?;
    match draft.take_words(alloc, words) {
        Ok(()) => draft.finish(words.len() as u64),
        Err(refusal) => {
            mem::drop(draft);
            Err(refusal)
        }
    }
}

impl Draft {
    fn take_words(&mut self, alloc: Global, words: &[Text]) -> Result<(), UsageRefusal>
        ensures { (whole : List Entry) → IsReading self.old whole (entries 1 words.now)
            → ReadsAll whole self.new result }
    {
        let mut rest = words;
        while let Some((word, after)) = rest.split_first() {
            let at = (words.len() - after.len()) as u64;
            if is(word.as_slice(), b"--") {
                return self.take_sources(alloc, at + 1, after);
            }
            rest = self.take_entry(alloc, at, word.as_slice(), after)?;
        }
        Ok(())
    }

    // Takes all words as sources, of which the first has the number.
    fn take_sources(
        &mut self,
        alloc: Global,
        first: u64,
        words: &[Text],
    ) -> Result<(), UsageRefusal>
        requires { first + length words.now < 2 ^ 64 }
        ensures { (whole : List Entry) → IsReading self.old whole (sources first words.now)
            → ReadsAll whole self.new result }
    {
        for (i, word) in words.iter().enumerate() {
            let path = Text::from_slice(alloc, word.as_slice())?;
            self.take(first + i as u64, Item::Source(path))?;
        }
        Ok(())
    }

    // Takes the word, and the one after it where that is its value. Gives the words that are left.
    fn take_entry<'a>(
        &mut self,
        alloc: Global,
        at: u64,
        word: &[u8],
        after: &'a [Text],
    ) -> Result<&'a [Text], UsageRefusal>
        ensures taken { TakesEntry self.old self.new
            (entry at word.now (taken_next word.now after.now)) result }
        ensures left { IfOk result (λ left. left.now ≡ left_after word.now after.now) }
    {
        match after {
            [next, left @ ..] if takes_next(word) => {
                self.take_word(alloc, at, word, Some(next.as_slice()))?;
                Ok(left)
            }
            _ => {
                self.take_word(alloc, at, word, None)?;
                Ok(after)
            }
        }
    }

    fn take_word(
        &mut self,
        alloc: Global,
        at: u64,
        word: &[u8],
        next: Option<&[u8]>,
    ) -> Result<(), UsageRefusal>
        ensures { TakesEntry self.old self.new
            (entry at word.now (option_map (λ x. x.now) next.entry)) result }
    {
        let item = item_of(alloc, at, word, next)?;
        self.take(at, item)
    }

    // The plan, where nothing is missing after `count` words.
    fn finish(self, count: u64) -> Result<Plan, UsageRefusal>
        requires { count + 1 < 2 ^ 64 }
        ensures { Finishes count self result }
    {
        match self.late_fault(count) {
            Some(fault) => {
                mem::drop(self);
                Err(UsageRefusal::Fault(fault))
            }
            None => Ok(Plan {
                origins: self.origins,
                bases: self.bases,
                base_kind: self.base_kind,
                normalize: self.normalize,
                report: self.report,
                config: self.config,
            }),
        }
    }

    // What shows only after the last of `count` words: no source, or nothing to normalize by.
    fn late_fault(&self, count: u64) -> Option<UsageFault>
        requires { count + 1 < 2 ^ 64 }
        ensures fault { result ≡ late_fault count (request_in self.now) self.now.normalized_at }
        ensures none { IfNone result ((0 < length self.now.origins)
            × (IsTrue self.now.normalize → IsTrue (is_some self.now.base_kind))) }
    {
        if self.origins.len() == 0 {
            return Some(UsageFault {
                kind: UsageKind::NoSource,
                word: count + 1,
            });
        }
        let at = self.normalized_alone()?;
        Some(UsageFault {
            kind: UsageKind::NormalizeAlone,
            word: at,
        })
    }

    // The word that asks to normalize, where there is nothing to normalize by.
    fn normalized_alone(&self) -> Option<u64>
        ensures { result ≡ (if self.now.normalize && is_empty self.now.bases
            then self.now.normalized_at else None) }
    {
        if self.normalize && self.bases.len() == 0 {
            self.normalized_at
        } else {
            None
        }
    }
}
