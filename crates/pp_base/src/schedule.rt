//! Calls that fail by their number.

ghost use Rattle.std.specs.Prelude.{◌≡◌, ◌≤◌, ◌==◌};
ghost use Rattle.std.specs.List.{list_any};
ghost use Rattle.pp_base.specs.Calls.{fails_next, after_call};

use crate::List;
use std::marker::Model;

/// The numbers of the calls that fail, from 0, with the number of the next call and how many have failed.
#[derive(Debug, Drop)]
pub struct Schedule {
    fails: List<u32>,
    number: u64,
    faults: u64,
}

impl Model for Schedule {
    ghost use Rattle.pp_base.specs.Calls.{Calls};

    ghost Value = { Calls };

    ghost view = { λ s. record { fails = s.fails; number = s.number; faults = s.faults } };
}

impl Schedule {
    /// The schedule before the first call. The numbers stand in any order; one that stands twice is one call.
    pub fn new(fails: List<u32>) -> Self
        ensures { result ≡ record { fails = fails; number = 0; faults = 0 } }
    {
        Schedule {
            fails,
            number: 0,
            faults: 0,
        }
    }

    /// Counts a call, and tells whether it fails.
    pub fn next_fails(&mut self) -> bool
        ensures answer { result ≡ fails_next self.old }
        ensures after { self.new ≡ after_call self.old }
        ensures later { self.old.faults ≤ self.new.faults }
    {
        let fails = contains(self.fails.as_slice(), self.number);
        self.number = self.number.saturating_add(1);
        if fails {
            self.faults = self.faults.saturating_add(1);
        }
        fails
    }
}

fn contains(numbers: &[u32], number: u64) -> bool
    ensures { result ≡ list_any (λ n. n == number) numbers.now }
{
    numbers.iter().any(|n| u64::from(*n) == number)
}
