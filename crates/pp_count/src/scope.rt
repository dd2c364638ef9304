//! How the samples of a count are seen.
ghost use Rattle.std.specs.Prelude.{◌≡◌, ◌<◌, ◌^◌, length, Some, None};
ghost use Rattle.std.specs.List.{slice_get};
ghost use Rattle.pp_model.specs.Conditions.{RefersTo, IsSampleOf};
ghost use Rattle.pp_count.specs.Scope.{IsSoundScope, profile_in_scope, samples_in_scope};

use crate::filters::Filters;
use crate::pairs::Pairing;
use crate::table::KeyTable;
use pp_keys::HashKeys;
use pp_model::{Config, Grouping, Loaded, Sample, Verdicts};

/// What all pieces of a count share.
#[derive(Clone, Copy)]
pub struct Scope<'a> {
    /// The profile whose samples are counted.
    pub l: &'a Loaded,
    /// What the patterns of the report find of its texts.
    pub v: &'a Verdicts,
    /// The variables of the report, whose own `grouping` is not read.
    pub config: &'a Config,
    /// What the keys are: those of the report, or others that a report counts by.
    pub grouping: Grouping,
    /// The filters of `v` and `config`.
    pub filters: &'a Filters,
    /// The column of values that is counted.
    pub column: Option<u32>,
    /// The table of key numbers of `l` by `grouping`.
    pub table: &'a KeyTable,
    /// None where keys are counted. Else pairs of these keys are.
    pub over: Option<&'a Pairing>,
    /// The numbers of the samples that are counted, rising; none where all are.
    pub chosen: Option<&'a [u32]>,
}

impl<'a> Scope<'a> {
    /// All samples, counted by keys.
    pub(crate) fn whole(
        l: &'a Loaded,
        v: &'a Verdicts,
        config: &'a Config,
        filters: &'a Filters,
        column: Option<u32>,
        table: &'a KeyTable,
    ) -> Scope<'a>
        ensures { result ≡ record {
          l = l.entry;
          v = v.entry;
          config = config.entry;
          grouping = config.now.grouping;
          filters = filters.entry;
          column = column;
          table = table.entry;
          over = None;
          chosen = None;
        } }
    {
        Scope {
            l,
            v,
            config,
            grouping: config.grouping,
            filters,
            column,
            table,
            over: None,
            chosen: None,
        }
    }

    /// How many key numbers there can be, or numbers of pairs of keys where pairs are counted.
    pub fn numbers(&self) -> usize {
        match self.over {
            None => self.table.names.len() as usize,
            Some(over) => over.marked.len().saturating_mul(over.marked.len()),
        }
    }

    /// What tables of the report are hashed by.
    pub fn hash_keys(&self) -> HashKeys {
        self.table.names.hash_keys()
    }
}

/// How many samples are counted.
pub(crate) fn count_of(scope: &Scope) -> usize
    requires { IsSoundScope scope.now }
    ensures { result ≡ length (samples_in_scope scope.now) }
{
    match scope.chosen {
        None => scope.l.profile.get().sample.len(),
        Some(numbers) => numbers.len(),
    }
}

/// The sample at the place among those that are counted.
pub fn sample_at<'a>(scope: &Scope<'a>, place: usize) -> &'a Sample
    requires sound { IsSoundScope scope.now }
    requires few { length (samples_in_scope scope.now) < 2 ^ 32 }
    requires within { place < length (samples_in_scope scope.now) }
    ensures is { slice_get (samples_in_scope scope.now) place ≡ Some result.now }
    ensures member { IsSampleOf (profile_in_scope scope.now) result.now }
    ensures refers { RefersTo (profile_in_scope scope.now) result.now }
{
    let samples = scope.l.profile.get().sample.as_slice();
    match scope.chosen {
        None => &samples[place],
        Some(numbers) => &samples[numbers[place] as usize],
    }
}
