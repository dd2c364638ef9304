//! Files as paths and contents, in the order in which they came.

use pp_base::{List, Memory, Text};
use std::alloc::Global;

/// Whether the path is one of these.
pub fn is_among(path: &Text, paths: &[Text]) -> bool {
    paths
        .iter()
        .any(|other| other.as_slice() == path.as_slice())
}

/// The contents of some paths. No path stands twice.
#[derive(Drop)]
pub struct Contents {
    alloc: Global,
    entries: Vec<(Text, Text)>,
}

impl Contents {
    /// No path.
    pub fn new(alloc: Global) -> Self {
        Contents {
            alloc,
            entries: Vec::new(alloc),
        }
    }

    /// Each path with its content, in the order in which they came.
    pub fn entries(&self) -> &[(Text, Text)] {
        &self.entries
    }

    /// The content of the path, if it is there.
    pub fn content(&self, path: &Text) -> Option<&Text> {
        let place = self.place_of(path)?;
        let (_, content) = self.entries.get(place)?;
        Some(content)
    }

    fn place_of(&self, path: &Text) -> Option<usize> {
        self.entries
            .iter()
            .position(|entry| entry.0.as_slice() == path.as_slice())
    }

    /// Adds the bytes at the end of the path's content. The path is there afterwards.
    pub fn append(&mut self, path: &Text, bytes: &[u8]) -> Result<(), Memory> {
        let Some(place) = self.place_of(path) else {
            let path = Text::from_slice(self.alloc, path.as_slice())?;
            let content = Text::from_slice(self.alloc, bytes)?;
            self.entries.push((path, content))?;
            return Ok(());
        };
        match self.entries.get_mut(place) {
            Some(entry) => entry.1.extend(bytes),
            None => Ok(()),
        }
    }

    /// A copy of these paths and contents.
    pub fn copied(&self) -> Result<List<(Text, Text)>, Memory> {
        let mut copy = List::new(self.alloc);
        for (path, content) in &self.entries {
            let path = Text::from_slice(self.alloc, path.as_slice())?;
            let content = Text::from_slice(self.alloc, content.as_slice())?;
            copy.push((path, content))?;
        }
        Ok(copy)
    }
}
