//! Where the samples of a report end.
ghost use Rattle.std.specs.Prelude.{◌≡◌};
ghost use Rattle.pp_account.specs.Adding.{no_portions, portion_at, with_end, with_sample_value};

use crate::portion::Portion;
use pp_model::Slot;

/// How many samples end where, and what their selected values come to.
#[derive(Clone, Copy)]
pub struct Portions {
    /// All samples of the profile.
    pub loaded: Portion,
    /// Those that `ignore` drops.
    pub ignore: Portion,
    /// Those that `focus` is the first to drop.
    pub focus: Portion,
    /// Those that `hide` is the first to drop.
    pub hide: Portion,
    /// Those that `show` is the first to drop.
    pub show: Portion,
    /// Those that `show_from` is the first to drop.
    pub show_from: Portion,
    /// Those that `tagfocus` is the first to drop.
    pub tagfocus: Portion,
    /// Those that `tagignore` is the first to drop.
    pub tagignore: Portion,
    /// Those that the filters leave.
    pub left: Portion,
    /// Those of them whose value isn't 0 and of which no frame counts.
    pub bare: Portion,
}

impl Portions {
    /// Those of no samples.
    pub fn none() -> Portions
        ensures { result ≡ no_portions }
    {
        Portions {
            loaded: Portion::none(),
            ignore: Portion::none(),
            focus: Portion::none(),
            hide: Portion::none(),
            show: Portion::none(),
            show_from: Portion::none(),
            tagfocus: Portion::none(),
            tagignore: Portion::none(),
            left: Portion::none(),
            bare: Portion::none(),
        }
    }

    /// Adds a sample of this value, which this filter is the first to drop, or which all let pass. `bare` says that it
    /// is left without a frame.
    pub fn add(&mut self, filter: Option<Slot>, bare: bool, value: i64)
        ensures { self.new ≡ with_sample_value filter bare value self.old }
    {
        self.loaded = self.loaded.plus(value);
        self.bare = self.bare.plus_if(bare, value);
        self.end(filter, value);
    }

    // Adds it where it ends.
    fn end(&mut self, filter: Option<Slot>, value: i64)
        ensures { self.new ≡ with_end filter value self.old }
    {
        let Some(slot) = filter else {
            self.left = self.left.plus(value);
            return;
        };
        match slot {
            Slot::Ignore => self.ignore = self.ignore.plus(value),
            Slot::Focus => self.focus = self.focus.plus(value),
            Slot::Hide => self.hide = self.hide.plus(value),
            Slot::Show => self.show = self.show.plus(value),
            Slot::ShowFrom => self.show_from = self.show_from.plus(value),
            Slot::TagFocus => self.tagfocus = self.tagfocus.plus(value),
            Slot::TagIgnore => self.tagignore = self.tagignore.plus(value),
            Slot::PruneFrom | Slot::TagShow | Slot::TagHide | Slot::Own => {}
        }
    }

    /// The portion of what this filter is the first to drop.
    pub fn at(&self, slot: Slot) -> Portion
        ensures { result ≡ portion_at self.now slot }
    {
        match slot {
            Slot::Ignore => self.ignore,
            Slot::Focus => self.focus,
            Slot::Hide => self.hide,
            Slot::Show => self.show,
            Slot::ShowFrom => self.show_from,
            Slot::TagFocus => self.tagfocus,
            Slot::TagIgnore => self.tagignore,
            Slot::PruneFrom | Slot::TagShow | Slot::TagHide | Slot::Own => Portion::none(),
        }
    }
}
