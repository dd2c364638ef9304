//! Profiles that keep the table rules, and profiles whose ids are places and whose texts are distinct.

use crate::profile::Profile;
use std::marker::Model;

/// A profile in which no table rule fails.
#[derive(Debug, Drop)]
pub struct Valid {
    profile: Profile,
}

impl Model for Valid {
    ghost use Rattle.pp_model.specs.declared.profile.Profile.{Profile};

    ghost Value = { Profile };

    ghost use Rattle.pp_model.specs.Rules.{NoRuleFails};

    ghost view = { λ v. v.profile };

    ghost invariant = { λ v. NoRuleFails v.profile };
}

impl Valid {
    ghost use Rattle.std.specs.Prelude.{◌≡◌, ◌<◌, length};
    ghost use Rattle.pp_model.specs.Values.{with_value};
    ghost use Rattle.pp_model.specs.Rules.{NoRuleFails};

    /// Takes a profile that is known to keep the table rules.
    pub fn claim(p: Profile) -> Valid
        requires { NoRuleFails p }
        ensures { result ≡ p }
    {
        Valid { profile: p }
    }

    /// The tables.
    pub fn get(&self) -> &Profile
        ensures same { result.now ≡ self.now }
        ensures valid { NoRuleFails result.now }
    {
        &self.profile
    }

    /// The tables, which may then be changed at will.
    pub fn into_profile(self) -> Profile
        ensures same { result ≡ self }
        ensures valid { NoRuleFails result }
    {
        self.profile
    }

    // What `set_value` of a `Compact` changes.
    fn set_value(&mut self, sample: usize, column: usize, value: i64)
        requires sample { sample < length self.old.sample }
        requires column { column < length self.old.sample_type }
        ensures { self.new ≡ with_value self.old sample column value }
    {
        let sample = self.profile.sample.item_mut(sample);
        *sample.value.item_mut(column) = value;
    }
}

/// A profile in which no table rule fails, each id is its place plus 1, and no two texts are the same.
#[derive(Debug, Drop)]
pub struct Compact {
    valid: Valid,
}

impl Model for Compact {
    ghost use Rattle.pp_model.specs.declared.profile.Profile.{Profile};

    ghost Value = { Profile };

    ghost use Rattle.pp_model.specs.Rules.{IsCompact};

    ghost view = { λ c. c.valid };

    ghost invariant = { λ c. IsCompact c.valid };
}

impl Compact {
    ghost use Rattle.std.specs.Prelude.{◌≡◌, ◌<◌, length};
    ghost use Rattle.pp_model.specs.Values.{with_value};
    ghost use Rattle.pp_model.specs.Rules.{NoRuleFails, IsCompact};

    /// Takes a profile whose ids are known to be places plus 1, and whose texts are known to be distinct.
    pub fn claim(p: Valid) -> Compact
        requires { IsCompact p }
        ensures { result ≡ p }
    {
        Compact { valid: p }
    }

    /// The tables.
    pub fn get(&self) -> &Profile
        ensures same { result.now ≡ self.now }
        ensures valid { NoRuleFails result.now }
        ensures compact { IsCompact result.now }
    {
        self.valid.get()
    }

    /// This profile, as one that keeps the table rules.
    pub fn valid(&self) -> &Valid
        ensures same { result.now ≡ self.now }
        ensures compact { IsCompact result.now }
    {
        &self.valid
    }

    /// This profile, as one that keeps the table rules.
    pub fn into_valid(self) -> Valid
        ensures same { result ≡ self }
        ensures compact { IsCompact result }
    {
        self.valid
    }

    /// Changes one value, and nothing else. `sample` and `column` are places.
    pub fn set_value(&mut self, sample: u32, column: u32, value: i64)
        requires sample { sample < length self.old.sample }
        requires column { column < length self.old.sample_type }
        ensures { self.new ≡ with_value self.old sample column value }
    {
        self.valid
            .set_value(sample as usize, column as usize, value);
    }
}
