//! Which calls of an object of the outside fail, and how.
ghost use Rattle.std.specs.Prelude.{◌≤◌, IfSome};
ghost use Rattle.pp_base.specs.Words.{Rose};

/// How a call fails.
#[derive(Clone, Copy, PartialEq, Eq)]
pub enum Failure {
    /// The object fails.
    Fault,
    /// The object has no memory.
    Memory,
    /// A matcher refuses the pattern.
    Refusal,
}

/// Which calls fail.
#[derive(Clone, Copy, PartialEq, Eq)]
pub enum Failing {
    /// No call.
    None,
    /// The call of this number, from 0.
    One(u64),
    /// Each call.
    All,
}

/// The calls of one object.
#[derive(Clone, Copy)]
pub struct Calls {
    /// Which fail.
    pub failing: Failing,
    /// How they fail.
    pub failure: Failure,
    /// The number of the next one, from 0.
    pub number: u64,
    /// How many have failed.
    pub faults: u64,
}

impl Calls {
    /// Those of an object that was not called yet.
    pub fn new(failing: Failing, failure: Failure) -> Self {
        Calls {
            failing,
            failure,
            number: 0,
            faults: 0,
        }
    }

    /// Counts a call, and tells how it fails.
    pub fn count(&mut self) -> Option<Failure>
        ensures later { self.old.faults ≤ self.new.faults }
        ensures rose { IfSome result (λ _. Rose self.old.faults self.new.faults) }
    {
        let number = self.number;
        self.number = number.saturating_add(1);
        if !self.failing.has(number) {
            return None;
        }
        self.faults = self.faults.saturating_add(1);
        Some(self.failure)
    }
}

impl Failing {
    fn has(self, number: u64) -> bool {
        match self {
            Failing::None => false,
            Failing::One(failing) => failing == number,
            Failing::All => true,
        }
    }
}
