//! What is kept of samples, of their frames and of their labels.
ghost use Rattle.std.specs.Prelude.{◌≡◌, IfOk, OnOk};

use pp_base::{Memory, Text};
use std::alloc::Global;

/// The variables that say what is kept. An empty text means that its variable isn't in force.
#[derive(Debug, Drop)]
pub struct Filtering {
    /// The pattern of which a stack must have a frame.
    pub focus: Text,
    /// The pattern of which a stack may have no frame.
    pub ignore: Text,
    /// The pattern of the only frames that stay.
    pub show: Text,
    /// The pattern of frames that are left out.
    pub hide: Text,
    /// The pattern of the frame nearest to the root that stays: what lies above is left out.
    pub show_from: Text,
    /// The pattern of frames below which all is left out.
    pub prune_from: Text,
    /// The filter of labels of which a sample must have one.
    pub tagfocus: Text,
    /// The filter of labels of which a sample may have none.
    pub tagignore: Text,
    /// The pattern of the only label names that stay.
    pub tagshow: Text,
    /// The pattern of label names that are left out.
    pub taghide: Text,
}

impl Filtering {
    ghost use Rattle.pp_model.specs.Defaults.{standard_filtering};

    /// All is kept as it is.
    pub fn standard(alloc: Global) -> Filtering
        ensures { result ≡ standard_filtering }
    {
        Filtering {
            focus: Text::new(alloc),
            ignore: Text::new(alloc),
            show: Text::new(alloc),
            hide: Text::new(alloc),
            show_from: Text::new(alloc),
            prune_from: Text::new(alloc),
            tagfocus: Text::new(alloc),
            tagignore: Text::new(alloc),
            tagshow: Text::new(alloc),
            taghide: Text::new(alloc),
        }
    }

    /// A copy of these variables.
    pub fn copy(&self, alloc: Global) -> Result<Filtering, Memory>
        ensures { IfOk result (λ copy. copy ≡ self.now) }
    {
        let mut copy = Filtering::standard(alloc);
        copy.fill(self)?;
        Ok(copy)
    }

    // Adds the texts of the other to texts that are empty: nothing is alive at an error but what is lent.
    fn fill(&mut self, other: &Filtering) -> Result<(), Memory>
        requires { self.old ≡ standard_filtering }
        ensures { OnOk result (self.new ≡ other.now) }
    {
        self.focus.extend(other.focus.as_slice())?;
        self.ignore.extend(other.ignore.as_slice())?;
        self.show.extend(other.show.as_slice())?;
        self.hide.extend(other.hide.as_slice())?;
        self.show_from.extend(other.show_from.as_slice())?;
        self.prune_from.extend(other.prune_from.as_slice())?;
        self.tagfocus.extend(other.tagfocus.as_slice())?;
        self.tagignore.extend(other.tagignore.as_slice())?;
        self.tagshow.extend(other.tagshow.as_slice())?;
        self.taghide.extend(other.taghide.as_slice())
    }
}
