//! What is kept for one key while samples are added up.
ghost use Rattle.std.specs.Prelude.{◌≡◌, ◌≢◌, ◌+◌, ◌+ℤ◌, ◌<◌, ◌^◌, nat_abs};
ghost use Rattle.pp_count.specs.Tally.{credited, tally_plus};

use crate::part::KeySum;

/// What one key number has so far.
#[derive(Clone, Copy)]
pub struct Tally {
    /// The sum over the samples whose leaf has the key.
    pub flat: i64,
    /// The sum over the samples that have the key, each sample once.
    pub cum: i64,
    /// The turn of the last sample that had it, from 1; 0 where none had.
    pub last: u64,
}

impl Tally {
    /// What a key has before any sample: both sums are 0.
    pub const NONE: Tally = Tally {
        flat: 0,
        cum: 0,
        last: 0,
    };

    /// Adds the value to the cum, where the sample of that turn was not yet added.
    pub fn credit(&mut self, value: i64, turn: u64)
        requires { self.old.last ≢ turn → nat_abs self.old.cum + nat_abs value < 2 ^ 63 }
        ensures { self.new ≡ credited value turn self.old }
    {
        if self.last != turn {
            self.last = turn;
            self.cum += value;
        }
    }

    /// Adds the value to the flat.
    pub fn lead(&mut self, value: i64)
        requires { nat_abs self.old.flat + nat_abs value < 2 ^ 63 }
        ensures { self.new
            ≡ record { flat = self.old.flat +ℤ value; cum = self.old.cum; last = self.old.last } }
    {
        self.flat += value;
    }

    /// Adds the sums of another range that has the key.
    pub fn join(&mut self, sum: &KeySum)
        requires flat_fits { nat_abs self.old.flat + nat_abs sum.now.flat < 2 ^ 63 }
        requires cum_fits { nat_abs self.old.cum + nat_abs sum.now.cum < 2 ^ 63 }
        ensures { self.new ≡ tally_plus self.old sum.now }
    {
        self.flat += sum.flat;
        self.cum += sum.cum;
        self.last = 1;
    }
}
