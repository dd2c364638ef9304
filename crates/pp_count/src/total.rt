//! What percentages are taken of.
ghost use Rattle.std.specs.Prelude.{◌≡◌, [], ◌∷◌, is_some, if◌then◌else◌};
ghost use Rattle.pp_model.specs.Finders.{Finders};
ghost use Rattle.pp_count.specs.Column.{selected};
ghost use Rattle.pp_count.specs.Counts.{is_base_label, is_base, total_by};
ghost use Rattle.pp_count.specs.Scope.{profile_in_scope, HasTotals};
ghost use Rattle.pp_count.specs.Seeing.{HoldsFilters, filtered_stack};
ghost use Rattle.pp_count.specs.Totals.{AreTotals, totals_plus};

use crate::scope::Scope;
use pp_model::{Label, Profile, Sample, text_of};

/// Sums of absolute selected values, each at most the largest number that there is.
#[derive(Clone, Copy, Debug)]
pub struct Totals {
    /// Over the samples that percentages are taken of.
    pub all: u64,
    /// Over those of them that carry the base's label.
    pub base: u64,
}

impl Totals {
    /// Those of no samples.
    pub fn none() -> Totals
        ensures { result ≡ record { all = 0; base = 0 } }
    {
        Totals { all: 0, base: 0 }
    }

    /// With those of other samples.
    pub fn plus(self, others: Totals) -> Totals
        ensures { result ≡ totals_plus self others }
    {
        Totals {
            all: self.all.saturating_add(others.all),
            base: self.base.saturating_add(others.base),
        }
    }

    /// What percentages are taken of: the base's sum, and where it is 0 that of all.
    pub fn total(self) -> u64
        ensures { result ≡ total_by self.base self.all }
    {
        if self.base == 0 { self.all } else { self.base }
    }
}

/// What the sample adds, whose selected value is `value`. It is nothing where percentages are taken of the samples that
/// the filters leave, and `left` is false. Chosen samples are not added up.
pub(crate) fn totals_of(scope: &Scope, s: &Sample, value: i64, left: bool) -> Totals
    requires value { value
        ≡ selected scope.now.column scope.now.config.now.presentation.divide_by s.now }
    requires left { (f : Finders) →
        HoldsFilters scope.now.l.now scope.now.v.now scope.now.config.now.filtering f →
        is_some (filtered_stack (profile_in_scope scope.now) f scope.now.config.now.filtering s.now)
        ≡ left }
    ensures { HasTotals scope.now (s.now ∷ []) result }
{
    match scope.chosen {
        Some(_) => Totals::none(),
        None if scope.config.presentation.relative_percentages => totals_if(scope, s, value, left),
        None => sample_totals(scope, s, value),
    }
}

// Those of the sample, or of none.
fn totals_if(scope: &Scope, s: &Sample, value: i64, left: bool) -> Totals
    requires { value ≡ selected scope.now.column scope.now.config.now.presentation.divide_by s.now }
    ensures { AreTotals (profile_in_scope scope.now) scope.now.config.now.presentation
        scope.now.column
        (if left then s.now ∷ [] else []) result }
{
    if left {
        sample_totals(scope, s, value)
    } else {
        Totals::none()
    }
}

// Those of the sample.
fn sample_totals(scope: &Scope, s: &Sample, value: i64) -> Totals
    requires { value ≡ selected scope.now.column scope.now.config.now.presentation.divide_by s.now }
    ensures { AreTotals (profile_in_scope scope.now) scope.now.config.now.presentation
        scope.now.column
        (s.now ∷ []) result }
{
    let size = value.unsigned_abs();
    let base = if is_base(scope.l.profile.get(), s) {
        size
    } else {
        0
    };
    Totals { all: size, base }
}

/// Whether the sample carries the base's label.
pub(crate) fn is_base(p: &Profile, s: &Sample) -> bool
    ensures { result ≡ is_base p.now s.now }
{
    s.label
        .as_slice()
        .iter()
        .any(|label| is_base_label(p, label))
}

fn is_base_label(p: &Profile, label: &Label) -> bool
    ensures { result ≡ is_base_label p.now label.now }
{
    text_of(p, label.key) == b"pprof::base".as_slice()
        && text_of(p, label.text) == b"true".as_slice()
}
