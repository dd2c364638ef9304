//! A matcher as the whole outside.
ghost use Rattle.pp_desk.specs.Asked.{world_by};

use crate::desk::Desk;
use crate::file_content::FileContent;
use crate::input_line::InputLine;
use crate::stop::Stop;
use pp_base::{Judgement, List, Matcher, Text};

/// A desk for stages that ask patterns alone. It has a matcher and nothing else: what is written to it is dropped, no
/// file is there, and its input has ended. It tells the matcher's answers alone, and only want of memory stops it.
#[derive(Drop)]
pub struct MatcherDesk<'m, M: Matcher> {
    /// The matcher.
    pub matcher: &'m mut M,
}

impl<M: Matcher> Desk for MatcherDesk<'_, M> {
    ghost finds = { M.finds };

    ghost world = { λ d. world_by d.matcher.ghost_name (M.answers d.matcher.now) };

    fn write_out(&mut self, _bytes: &[u8]) -> Result<(), Stop> {
        Ok(())
    }

    fn write_err(&mut self, _bytes: &[u8]) -> Result<(), Stop> {
        Ok(())
    }

    fn read_file(&mut self, _path: &Text, _limit: u64) -> Result<FileContent, Stop> {
        Ok(FileContent::Missing)
    }

    fn write_file(&mut self, _path: &Text, _bytes: &[u8]) -> Result<bool, Stop> {
        Ok(true)
    }

    fn ask(&mut self, pattern: &Text, subjects: &List<Text>) -> Result<Option<List<bool>>, Stop> {
        match self.matcher.judge(pattern, subjects) {
            Judgement::Found(verdicts) => Ok(Some(verdicts)),
            Judgement::Refused => Ok(None),
            Judgement::Memory => Err(Stop::Memory),
        }
    }

    fn next_line(&mut self) -> Result<InputLine, Stop> {
        Ok(InputLine::End)
    }
}
