//! Filters of samples by their labels, as options spell them.

ghost use Rattle.std.specs.Prelude.{◌≡◌, IfOk};
ghost use Rattle.std.specs.List.{slice_split};
ghost use Rattle.pp_tags.specs.TagFilters.{is_comma};

use pp_base::{List, Memory, Text};
use pp_units::{Range, cut_at, read_range};
use std::alloc::Global;

/// A filter by labels: `KEY=RANGE`, `RANGE`, `KEY=PART,PART` or `PART,PART`.
#[derive(Debug, Drop)]
pub struct TagFilter {
    /// The key that a label has to have, empty where each label counts.
    pub name: Text,
    /// The numbers that select a sample, and `None` where parts do.
    pub range: Option<Range>,
    /// The patterns that select a sample, in order; none where there is a range.
    pub parts: List<Text>,
}

impl TagFilter {
    ghost use Rattle.pp_tags.specs.TagFilters.{filter_of, filter_in_force, filter_with};

    /// The filter that a text spells. What stands before the first `=` is the name; an empty one counts as none. The
    /// rest is a range where it can be read as one, and is else split at commas into parts.
    pub fn read(alloc: Global, text: &[u8]) -> Result<TagFilter, Memory>
        ensures { IfOk result (λ filter. filter ≡ filter_of text.now) }
    {
        match cut_at(text, b'=') {
            Some((name, body)) => TagFilter::with(alloc, name, body),
            None => TagFilter::with(alloc, &[], text),
        }
    }

    /// The filter of an option's value, and `None` where it is empty, which puts no filter in force.
    pub fn in_force(alloc: Global, value: &[u8]) -> Result<Option<TagFilter>, Memory>
        ensures { IfOk result (λ filter. filter ≡ filter_in_force value.now) }
    {
        if value.is_empty() {
            return Ok(None);
        }
        Ok(Some(TagFilter::read(alloc, value)?))
    }

    // The filter of this name and body.
    fn with(alloc: Global, name: &[u8], body: &[u8]) -> Result<TagFilter, Memory>
        ensures { IfOk result (λ filter. filter ≡ filter_with name.now body.now) }
    {
        let name = Text::from_slice(alloc, name)?;
        let Some(range) = read_range(alloc, body)? else {
            return Ok(TagFilter {
                name,
                range: None,
                parts: parts_of(alloc, body)?,
            });
        };
        Ok(TagFilter {
            name,
            range: Some(range),
            parts: List::new(alloc),
        })
    }
}

// The parts of a text, with commas between them. An empty text has one part, which is empty.
fn parts_of(alloc: Global, text: &[u8]) -> Result<List<Text>, Memory>
    ensures { IfOk result (λ parts. parts ≡ slice_split is_comma text.now) }
{
    let mut parts = List::new(alloc);
    let mut rest = text;
    while let Some((part, after)) = cut_at(rest, b',') {
        parts.push(Text::from_slice(alloc, part)?)?;
        rest = after;
    }
    parts.push(Text::from_slice(alloc, rest)?)?;
    Ok(parts)
}
