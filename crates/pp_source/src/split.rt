//! Sources of files, cut into lines.
ghost use Rattle.std.specs.Prelude.{◌≡◌, ◌∷◌, ◌<◌, length, map, IfOk};
ghost use Rattle.pp_source.specs.SourceText.{file_lines, source_lines};

use crate::source::FileSource;
use pp_base::Memory;
use pp_units::cut_at;
use std::alloc::Global;

/// What there is of a file's source, cut once for all routines of the file.
#[derive(Drop)]
pub struct SplitSource<'a> {
    /// The source.
    pub source: &'a FileSource,
    /// Its lines, without their ends; none where there are no bytes.
    pub lines: Vec<&'a [u8]>,
    ghost cut: { map (λ line. line.now) lines.items ≡ source_lines source.now },
}

/// The sources, each cut into its lines. `Err` is want of memory.
pub fn split_sources<'a>(
    alloc: Global,
    sources: &'a [FileSource],
) -> Result<Vec<SplitSource<'a>>, Memory>
    ensures { IfOk result (λ split. map (λ s. s.source.now) split.items ≡ sources.now) }
{
    let mut split = Vec::new(alloc);
    for source in sources {
        let next = split_source(alloc, source)?;
        split.push(next)?;
    }
    Ok(split)
}

fn split_source<'a>(alloc: Global, source: &'a FileSource) -> Result<SplitSource<'a>, Memory>
    ensures { IfOk result (λ split. split.source.now ≡ source.now) }
{
    let lines = source_lines(alloc, source)?;
    Ok(SplitSource { source, lines })
}

// The lines of the source.
fn source_lines<'a>(alloc: Global, source: &'a FileSource) -> Result<Vec<&'a [u8]>, Memory>
    ensures { IfOk result (λ lines.
        map (λ line. line.now) lines.items ≡ source_lines source.now) }
{
    match source {
        FileSource::NoName | FileSource::NotFound | FileSource::TooLong => Ok(Vec::new(alloc)),
        FileSource::Whole(bytes) => file_lines(alloc, bytes.as_slice()),
    }
}

// The lines of a file, each of which ends at a line end or with the file.
fn file_lines<'a>(alloc: Global, bytes: &'a [u8]) -> Result<Vec<&'a [u8]>, Memory>
    ensures { IfOk result (λ lines. map (λ line. line.now) lines.items ≡ file_lines bytes.now) }
{
    let mut lines = Vec::new(alloc);
    let mut rest = bytes;
    while !rest.is_empty() {
        let (line, after) = cut_line(rest);
        lines.push(line)?;
        rest = after;
    }
    Ok(lines)
}

// The first line, without its end, and what stands after it.
fn cut_line(bytes: &[u8]) -> (&[u8], &[u8])
    requires { 0 < length bytes.now }
    ensures line { file_lines bytes.now ≡ result.0.now ∷ file_lines result.1.now }
    ensures less { length result.1.now < length bytes.now }
{
    match cut_at(bytes, b'\n') {
        Some(parts) => parts,
        None => (bytes, &[]),
    }
}
