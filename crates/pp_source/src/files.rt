//! The files of a list report, and their sources.
ghost use Rattle.std.specs.Prelude.{◌≡◌, [], map, IfOk};
ghost use Rattle.std.specs.Option.{option_map, unwrap_or};
ghost use Rattle.pp_desk.specs.Went.{Went};
ghost use Rattle.pp_source.specs.declared.source.FileSource.TheVariants as sources;
ghost use Rattle.pp_source.specs.Files.{files_of_lines, source_in};
ghost use Rattle.pp_source.specs.Ledgers.{lines_texts};
ghost use Rattle.pp_source.specs.Listing.{read_sources};

use crate::lines::FoundLine;
use crate::looking::source_of;
use crate::source::FileSource;
use crate::split::SplitSource;
use indexmap::IndexSet;
use pp_base::{List, Memory};
use pp_desk::{Desk, Stop};
use pp_keys::HashKeys;
use pp_model::Environment;
use std::alloc::Global;

/// The sources of files, each of which is read once.
#[derive(Drop)]
pub struct Sources<'a, 's> {
    /// The files, in the order of the reads.
    pub files: IndexSet<&'a [u8], HashKeys>,
    /// The source of each, cut into lines, in the same order.
    pub sources: Vec<SplitSource<'s>>,
}

impl<'s> Sources<'_, 's> {
    /// The source of the file, where it was looked for.
    pub fn find(&self, file: &[u8]) -> Option<&SplitSource<'s>>
        ensures { unwrap_or (option_map (λ s. s.now.source.now) result) sources.NotFound
            ≡ source_in self.now file.now }
    {
        let place = self.files.get_index_of(file)?;
        self.sources.as_slice().get(place)
    }
}

/// The files of the lines, each once, in the order in which the lines need them. `Err` is want of memory.
pub fn files_of<'a>(
    alloc: Global,
    hash_keys: HashKeys,
    lines: &[FoundLine<'a>],
) -> Result<IndexSet<&'a [u8], HashKeys>, Memory>
    ensures { IfOk result (λ files.
        map (λ f. f.now) files.keys ≡ files_of_lines (lines_texts lines.now)) }
{
    let mut files = IndexSet::with_hasher(alloc, hash_keys);
    for line in lines {
        files.insert(line.texts.file)?;
    }
    Ok(files)
}

/// Reads the sources of the files, one after the other.
pub fn read_sources<D: Desk>(
    alloc: Global,
    environment: &Environment,
    files: &[&[u8]],
    desk: &mut D,
) -> Result<List<FileSource>, Stop>
    ensures { Went (D.world desk.old) (D.world desk.new)
        (read_sources environment.now [] (map (λ f. f.now) files.now)) result }
{
    let mut sources = List::new(alloc);
    for file in files {
        let source = source_of(alloc, environment, file, desk)?;
        sources.push(source)?;
    }
    Ok(sources)
}
