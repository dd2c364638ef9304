//! How many samples or keys there are, and what their values come to.
ghost use Rattle.std.specs.Prelude.{◌≡◌};
ghost use Rattle.pp_account.specs.Adding.{no_portion, portion_plus, portion_plus_if};

/// Some samples or keys of a report.
#[derive(Clone, Copy)]
pub struct Portion {
    /// How many they are.
    pub count: u64,
    /// The sum of the samples' selected values, or of the keys' flats.
    pub value: i64,
}

impl Portion {
    /// None of them.
    pub fn none() -> Portion
        ensures { result ≡ no_portion }
    {
        Portion { count: 0, value: 0 }
    }

    /// With one more, of this value. Neither sum wraps where all are samples of a profile that can be counted.
    pub fn plus(self, value: i64) -> Portion
        ensures { result ≡ portion_plus self value }
    {
        Portion {
            count: self.count.wrapping_add(1),
            value: self.value.wrapping_add(value),
        }
    }

    /// With one more if it is one of them.
    pub fn plus_if(self, does: bool, value: i64) -> Portion
        ensures { result ≡ portion_plus_if does self value }
    {
        if does { self.plus(value) } else { self }
    }
}
