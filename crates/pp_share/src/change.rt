//! Changes of each item of a list, in place.
ghost use Rattle.std.specs.Prelude.{◌≡◌, map};

use pp_base::List;

/// A change of an item.
pub trait Change<T> {
    /// What an item becomes.
    ghost changed: { Self → T → T };

    /// Changes the item. It takes no memory.
    fn change(&self, item: &mut T)
        ensures { item.new ≡ changed self.now item.old };
}

/// Changes each item. It takes no memory.
pub fn change_each<T, C: Change<T>>(items: &mut List<T>, change: &C)
    ensures { items.new ≡ map (C.changed change.now) items.old }
{
    for place in 0..items.len() {
        change.change(items.item_mut(place));
    }
}
