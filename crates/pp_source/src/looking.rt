//! Looking for the source of a file.
ghost use Rattle.std.specs.Prelude.{◌≡◌};
ghost use Rattle.pp_desk.specs.Went.{Went};
ghost use Rattle.pp_source.specs.Listing.{first_present, source_found, source_of};

use crate::paths::paths_to_try;
use crate::source::{FileSource, SOURCE_LIMIT};
use pp_base::Text;
use pp_desk::{Desk, FileContent, Stop};
use pp_model::Environment;
use std::alloc::Global;

/// Reads the source of the file from the first of its paths at which there is a file. Nothing is read for an empty
/// path.
#[tactic(auto, using(pp_desk::proofs::Going::going), unfolding(crate::specs::Listing::source_of))]
pub fn source_of<D: Desk>(
    alloc: Global,
    environment: &Environment,
    file: &[u8],
    desk: &mut D,
) -> Result<FileSource, Stop>
    ensures { Went (D.world desk.old) (D.world desk.new)
        (source_of environment.now file.now) result }
{
    if file.is_empty() {
        return Ok(FileSource::NoName);
    }
    let source_path = environment.source_path.as_slice();
    let paths = paths_to_try(alloc, source_path, environment.trim_path.as_slice(), file)?;
    first_present(paths.as_slice(), desk)
}

// Reads the first of the paths at which there is a file.
fn first_present<D: Desk>(paths: &[Text], desk: &mut D) -> Result<FileSource, Stop>
    ensures { Went (D.world desk.old) (D.world desk.new) (first_present paths.now) result }
{
    for path in paths {
        let content = desk.read_file(path, SOURCE_LIMIT)?;
        if let Some(source) = source_in(content) {
            return Ok(source);
        }
    }
    Ok(FileSource::NotFound)
}

// The source that a read has found, if any.
fn source_in(content: FileContent) -> Option<FileSource>
    ensures { result ≡ source_found content }
{
    match content {
        FileContent::Missing => None,
        FileContent::TooLong => Some(FileSource::TooLong),
        FileContent::Whole(bytes) => Some(FileSource::Whole(bytes)),
    }
}
