//! Tables whose entries have an id of their own.
ghost use Rattle.std.specs.Prelude.{◌≡◌, ℕ};

use crate::profile::{Function, Location, Mapping};

/// An entry by whose id other tables refer to it.
pub trait HasId {
    /// The id.
    ghost id_of: { Self → ℕ };

    /// The number by which other tables refer to it; 0 stands for none.
    fn id(&self) -> u64
        ensures { result ≡ id_of self.now };
}

impl HasId for Mapping {
    ghost id_of = { λ m. m.id };

    fn id(&self) -> u64 {
        self.id
    }
}

impl HasId for Function {
    ghost id_of = { λ f. f.id };

    fn id(&self) -> u64 {
        self.id
    }
}

impl HasId for Location {
    ghost id_of = { λ l. l.id };

    fn id(&self) -> u64 {
        self.id
    }
}
