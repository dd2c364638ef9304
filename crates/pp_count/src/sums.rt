//! The sums of a report, by keys.
ghost use Rattle.std.specs.Prelude.{◌≡◌, ◌≢◌, [], ◌∷◌, ◌++◌, ℕ, ◌≤◌, ◌<◌, length, map, slice_index_or, All, AllPairs, IfOk};
ghost use Rattle.pp_grain.specs.Words.{with_key};
ghost use Rattle.pp_count.specs.Table.{no_key};
ghost use Rattle.pp_count.specs.Parts.{sums_of, key_at_sum};

use crate::part::KeySum;
use pp_base::{List, Memory};
use pp_grain::{Key, Names};
use pp_keys::HashKeys;
use std::alloc::Global;

/// The sums of each key that occurs.
#[derive(Drop)]
pub struct Sums {
    /// The keys that occur, each once.
    pub names: Names,
    /// For each of them, the sum over the samples whose leaf has it.
    pub flat: List<i64>,
    /// For each of them, the sum over the samples that have it, each sample once.
    pub cum: List<i64>,
}

/// Sums, and the numbers of their keys.
#[derive(Drop)]
pub(crate) struct NumberedSums {
    /// The sums of the keys that occur.
    pub sums: Sums,
    /// For each name of the sums, the number of its key.
    pub numbers: List<u64>,
}

/// The sums under the keys that the numbers stand for. The numbers are those of `names`, each once.
pub(crate) fn sums_by_keys(
    alloc: Global,
    names: &Names,
    sums: &[KeySum],
) -> Result<NumberedSums, Memory>
    requires below { All (λ e. e.key < length names.now) sums.now }
    requires once { (k : ℕ) → length (sums_of k sums.now) ≤ 1 }
    requires distinct { AllPairs (λ a b. a ≢ b) names.now }
    ensures names { IfOk result (λ r. r.sums.names ≡ map (key_at_sum names.now) sums.now) }
    ensures flat { IfOk result (λ r. r.sums.flat ≡ map (λ e. e.flat) sums.now) }
    ensures cum { IfOk result (λ r. r.sums.cum ≡ map (λ e. e.cum) sums.now) }
    ensures numbers { IfOk result (λ r. r.numbers ≡ map (λ e. e.key) sums.now) }
    ensures once { IfOk result (λ r. AllPairs (λ a b. a ≢ b) r.sums.names) }
{
    let mut all = no_sums(alloc, names.hash_keys())?;
    for sum in sums {
        let key = names.key(sum.key);
        add_sum(&mut all, key, sum)?;
    }
    let _distinct = all.sums.names.len();
    Ok(all)
}

// The sums of no key.
fn no_sums(alloc: Global, hash_keys: HashKeys) -> Result<NumberedSums, Memory>
    ensures names { IfOk result (λ r. r.sums.names ≡ []) }
    ensures flat { IfOk result (λ r. r.sums.flat ≡ []) }
    ensures cum { IfOk result (λ r. r.sums.cum ≡ []) }
    ensures numbers { IfOk result (λ r. r.numbers ≡ []) }
{
    let names = Names::new(alloc, hash_keys)?;
    let sums = Sums {
        names,
        flat: List::new(alloc),
        cum: List::new(alloc),
    };
    Ok(NumberedSums {
        sums,
        numbers: List::new(alloc),
    })
}

// Adds the sum, under this key.
fn add_sum(all: &mut NumberedSums, key: Key, sum: &KeySum) -> Result<(), Memory>
    ensures names { IfOk result (λ _. all.new.sums.names ≡ with_key all.old.sums.names key) }
    ensures flat { IfOk result (λ _. all.new.sums.flat ≡ all.old.sums.flat ++ sum.now.flat ∷ []) }
    ensures cum { IfOk result (λ _. all.new.sums.cum ≡ all.old.sums.cum ++ sum.now.cum ∷ []) }
    ensures numbers { IfOk result (λ _. all.new.numbers ≡ all.old.numbers ++ sum.now.key ∷ []) }
{
    all.sums.names.number(key)?;
    all.sums.flat.push(sum.flat)?;
    all.sums.cum.push(sum.cum)?;
    all.numbers.push(sum.key)
}
