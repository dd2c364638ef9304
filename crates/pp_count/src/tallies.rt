//! Tallies by key number: in a list where they are few, by slots where enough are added, else in a map.
ghost use Rattle.std.specs.Prelude.{◌≡◌, ◌≢◌, ℕ, ◌+◌, ◌+ℤ◌, ◌<◌, ◌≤◌, ◌^◌, nat_abs, nat_eq, nat_lt, slice_index_or, length, IfOk, if◌then◌else◌, [], ◌++◌};
ghost use Rattle.pp_count.specs.Tally.{tally_at, no_tally, placed_tally, has_row_at, credited, with_cum, with_flat, with_sample, with_seen, tally_plus, tally_added, tally_entry};
ghost use Rattle.pp_count.specs.Parts.{sums_of, flat_size, cum_size};

use crate::part::KeySum;
use crate::slots::{Slots, TallyRow};
use crate::tally::Tally;
use indexmap::IndexMap;
use pp_base::{List, Memory};
use pp_keys::HashKeys;
use std::alloc::Global;

/// A report that has more key numbers has no list of tallies. A list that is mostly empty costs more than slots.
pub const LISTED: usize = 30_000;

/// Where there are more key numbers than this for each that is added, there are no slots. Clearing them would cost more
/// than adding.
pub const SPARSE: usize = 32;

/// What each key number has so far.
#[derive(Drop)]
pub struct Tallies {
    /// A tally for each key number, where they are few; else none.
    pub listed: Vec<Tally>,
    /// A slot for each key number, where they are too many for a list, and enough are added; else none.
    pub slots: Slots,
    /// The tallies of other key numbers that were seen, which are all where there are neither list nor slots.
    pub others: IndexMap<u64, Tally, HashKeys>,
}

impl Tallies {
    /// None, in the form that suits `numbers` key numbers, of which about `adds` are added, each as often as it occurs.
    #[tactic(auto, unfolding(crate::specs::Tally::tally_at))]
    pub fn new(
        alloc: Global,
        hash_keys: HashKeys,
        numbers: usize,
        adds: usize,
    ) -> Result<Tallies, Memory>
        ensures { IfOk result (λ tallies. (k : ℕ) → tally_at tallies k ≡ no_tally) }
    {
        let (listed, slotted) = forms(numbers, adds);
        let listed = vec![in alloc; Tally::NONE; listed]?;
        let slots = Slots::new(alloc, slotted)?;
        Ok(Tallies {
            listed,
            slots,
            others: IndexMap::with_hasher(alloc, hash_keys),
        })
    }
}

// The lengths of the list and of the slots for `numbers` key numbers, of which about `adds` are added.
fn forms(numbers: usize, adds: usize) -> (usize, usize) {
    if numbers <= LISTED {
        (numbers, 0)
    } else if numbers / SPARSE <= adds {
        (0, numbers)
    } else {
        (0, 0)
    }
}

/// What is kept of the key number.
#[tactic(auto, unfolding(crate::specs::Tally::tally_at))]
pub fn tally_of(tallies: &Tallies, key: u64) -> Tally
    ensures { result ≡ tally_at tallies.now key }
{
    let place = key as usize;
    if place < tallies.listed.len() {
        return tallies.listed[place];
    }
    if place < tallies.slots.place.len() {
        return tallies.slots.tally(key);
    }
    match tallies.others.get(&key) {
        None => Tally::NONE,
        Some(tally) => *tally,
    }
}

/// Adds one sample whose keys have these numbers, leaf first, unless its value is 0. Its turn is after those of the
/// samples before it.
pub fn add_sample(tallies: &mut Tallies, value: i64, keys: &[u64], turn: u64) -> Result<(), Memory>
    requires earlier { (k : ℕ) → (tally_at tallies.old k).last < turn }
    requires cum_fits { (k : ℕ) → nat_abs (tally_at tallies.old k).cum + nat_abs value < 2 ^ 63 }
    requires flat_fits { (k : ℕ) → nat_abs (tally_at tallies.old k).flat + nat_abs value < 2 ^ 63 }
    ensures { IfOk result (λ _. (k : ℕ) → tally_at tallies.new k
        ≡ with_seen value turn keys.now k (tally_at tallies.old k)) }
{
    if value == 0 {
        return Ok(());
    }
    add_cum(tallies, value, keys, turn)?;
    add_flat(tallies, value, keys)
}

// Adds the value to the cum of each of the keys, once.
fn add_cum(tallies: &mut Tallies, value: i64, keys: &[u64], turn: u64) -> Result<(), Memory>
    requires earlier { (k : ℕ) → (tally_at tallies.old k).last < turn }
    requires fits { (k : ℕ) → nat_abs (tally_at tallies.old k).cum + nat_abs value < 2 ^ 63 }
    ensures { IfOk result (λ _. (k : ℕ) → tally_at tallies.new k
        ≡ with_cum value turn keys.now k (tally_at tallies.old k)) }
{
    for key in keys {
        credit_key(tallies, value, *key, turn)?;
    }
    Ok(())
}

// Adds the value to the cum of the key, where the sample of that turn was not yet added.
#[tactic(auto, unfolding(crate::specs::Tally::tally_at))]
fn credit_key(tallies: &mut Tallies, value: i64, key: u64, turn: u64) -> Result<(), Memory>
    requires { (tally_at tallies.old key).last ≢ turn →
        nat_abs (tally_at tallies.old key).cum + nat_abs value < 2 ^ 63 }
    ensures key { IfOk result (λ _.
        tally_at tallies.new key ≡ credited value turn (tally_at tallies.old key)) }
    ensures others { IfOk result (λ _. (k : ℕ) → k ≢ key →
        tally_at tallies.new k ≡ tally_at tallies.old k) }
{
    let place = key as usize;
    if place < tallies.listed.len() {
        tallies.listed[place].credit(value, turn);
        return Ok(());
    }
    if place < tallies.slots.place.len() {
        return tallies.slots.credit(key, value, turn);
    }
    credit_other(tallies, value, key, turn)
}

// Adds it for a key number past the list and the slots, which is rare.
#[inline(never)]
#[tactic(auto, unfolding(crate::specs::Tally::tally_at))]
fn credit_other(tallies: &mut Tallies, value: i64, key: u64, turn: u64) -> Result<(), Memory>
    requires unlisted { length tallies.old.listed.items ≤ key }
    requires unslotted { length tallies.old.slots.place.items ≤ key }
    requires fits { (tally_at tallies.old key).last ≢ turn →
        nat_abs (tally_at tallies.old key).cum + nat_abs value < 2 ^ 63 }
    ensures key { IfOk result (λ _.
        tally_at tallies.new key ≡ credited value turn (tally_at tallies.old key)) }
    ensures others { IfOk result (λ _. (k : ℕ) → k ≢ key →
        tally_at tallies.new k ≡ tally_at tallies.old k) }
{
    tallies
        .others
        .entry(key)?
        .or_insert(Tally::NONE)
        .credit(value, turn);
    Ok(())
}

// Adds the value to the flat of the leaf's key.
fn add_flat(tallies: &mut Tallies, value: i64, keys: &[u64]) -> Result<(), Memory>
    requires fits { (k : ℕ) → nat_abs (tally_at tallies.old k).flat + nat_abs value < 2 ^ 63 }
    ensures { IfOk result (λ _. (k : ℕ) → tally_at tallies.new k
        ≡ with_flat value keys.now k (tally_at tallies.old k)) }
{
    match keys {
        [] => Ok(()),
        [leaf, ..] => lead_key(tallies, value, *leaf),
    }
}

// Adds the value to the flat of the key.
#[tactic(auto, unfolding(crate::specs::Tally::tally_at))]
fn lead_key(tallies: &mut Tallies, value: i64, key: u64) -> Result<(), Memory>
    requires { nat_abs (tally_at tallies.old key).flat + nat_abs value < 2 ^ 63 }
    ensures key { IfOk result (λ _. tally_at tallies.new key
        ≡ record (tally_at tallies.old key) { flat = (tally_at tallies.old key).flat +ℤ value }) }
    ensures others { IfOk result (λ _. (k : ℕ) → k ≢ key →
        tally_at tallies.new k ≡ tally_at tallies.old k) }
{
    let place = key as usize;
    if place < tallies.listed.len() {
        tallies.listed[place].lead(value);
        return Ok(());
    }
    if place < tallies.slots.place.len() {
        let mut tally = tallies.slots.tally(key);
        tally.lead(value);
        return tallies.slots.keep(key, tally);
    }
    tallies
        .others
        .entry(key)?
        .or_insert(Tally::NONE)
        .lead(value);
    Ok(())
}

/// Adds each entry of another range to the tally of its key.
pub fn add_sums(tallies: &mut Tallies, sums: &[KeySum]) -> Result<(), Memory>
    requires flat_fits { (k : ℕ) →
        nat_abs (tally_at tallies.old k).flat + flat_size (sums_of k sums.now) < 2 ^ 63 }
    requires cum_fits { (k : ℕ) →
        nat_abs (tally_at tallies.old k).cum + cum_size (sums_of k sums.now) < 2 ^ 63 }
    ensures { IfOk result (λ _. (k : ℕ) → tally_at tallies.new k
        ≡ tally_added (tally_at tallies.old k) (sums_of k sums.now)) }
{
    for sum in sums {
        join_key(tallies, sum)?;
    }
    Ok(())
}

// Adds the entry to the tally of its key.
#[tactic(auto, unfolding(crate::specs::Tally::tally_at))]
fn join_key(tallies: &mut Tallies, sum: &KeySum) -> Result<(), Memory>
    requires flat_fits { nat_abs (tally_at tallies.old sum.now.key).flat + nat_abs sum.now.flat < 2 ^ 63 }
    requires cum_fits { nat_abs (tally_at tallies.old sum.now.key).cum + nat_abs sum.now.cum < 2 ^ 63 }
    ensures key { IfOk result (λ _. tally_at tallies.new sum.now.key
        ≡ tally_plus (tally_at tallies.old sum.now.key) sum.now) }
    ensures others { IfOk result (λ _. (k : ℕ) → k ≢ sum.now.key →
        tally_at tallies.new k ≡ tally_at tallies.old k) }
{
    let place = sum.key as usize;
    if place < tallies.listed.len() {
        tallies.listed[place].join(sum);
        return Ok(());
    }
    if place < tallies.slots.place.len() {
        let mut tally = tallies.slots.tally(sum.key);
        tally.join(sum);
        return tallies.slots.keep(sum.key, tally);
    }
    tallies
        .others
        .entry(sum.key)?
        .or_insert(Tally::NONE)
        .join(sum);
    Ok(())
}

/// The entries of the keys that some sample had: those of the list by number, the others in the order of first sight.
pub fn entries(alloc: Global, tallies: &Tallies) -> Result<List<KeySum>, Memory>
    ensures { IfOk result (λ sums. (k : ℕ) →
        sums_of k sums ≡ tally_entry k (tally_at tallies.now k)) }
{
    let mut sums = List::new(alloc);
    push_listed(&mut sums, &tallies.listed)?;
    push_slotted(&mut sums, tallies)?;
    push_others(&mut sums, tallies)?;
    Ok(sums)
}

// Adds the entries of a list of tallies.
fn push_listed(sums: &mut List<KeySum>, listed: &[Tally]) -> Result<(), Memory>
    requires { sums.old ≡ [] }
    ensures { IfOk result (λ _. (k : ℕ) →
        sums_of k sums.new ≡ tally_entry k (slice_index_or listed.now k no_tally)) }
{
    for (number, tally) in listed.iter().enumerate() {
        push_entry(sums, number as u64, tally)?;
    }
    Ok(())
}

// Adds the entries of the key numbers that have rows.
fn push_slotted(sums: &mut List<KeySum>, tallies: &Tallies) -> Result<(), Memory>
    requires { (k : ℕ) → sums_of k sums.old
        ≡ tally_entry k (slice_index_or tallies.now.listed.items k no_tally) }
    ensures { IfOk result (λ _. (k : ℕ) → sums_of k sums.new
        ≡ tally_entry k (placed_tally tallies.now k)) }
{
    for (place, row) in tallies.slots.rows.iter().enumerate() {
        push_row(sums, tallies, place, row)?;
    }
    Ok(())
}

// Adds the entry of the row at the place, where its key number has no other place.
fn push_row(
    sums: &mut List<KeySum>,
    tallies: &Tallies,
    place: usize,
    row: &TallyRow,
) -> Result<(), Memory>
    ensures { IfOk result (λ _. (k : ℕ) → sums_of k sums.new
        ≡ sums_of k sums.old ++ (if nat_eq row.now.key k
        then (if has_row_at tallies.now place k then tally_entry row.now.key row.now.tally else [])
        else [])) }
{
    let number = row.key as usize;
    if number < tallies.listed.len() || number >= tallies.slots.place.len() {
        return Ok(());
    }
    if tallies.slots.place[number] as usize != place {
        return Ok(());
    }
    push_entry(sums, row.key, &row.tally)
}

// Adds the entries of the key numbers that are past the list and the slots.
#[tactic(auto, unfolding(crate::specs::Tally::tally_at))]
fn push_others(sums: &mut List<KeySum>, tallies: &Tallies) -> Result<(), Memory>
    requires { (k : ℕ) → sums_of k sums.old ≡ tally_entry k (placed_tally tallies.now k) }
    ensures { IfOk result (λ _. (k : ℕ) → sums_of k sums.new ≡ tally_entry k (tally_at tallies.now k)) }
{
    for index in 0..tallies.others.len() {
        if let Some((key, tally)) = tallies.others.get_index(index) {
            push_other(sums, tallies, *key, tally)?;
        }
    }
    Ok(())
}

// Adds the entry of the key, where its number is past the list and the slots.
fn push_other(
    sums: &mut List<KeySum>,
    tallies: &Tallies,
    key: u64,
    tally: &Tally,
) -> Result<(), Memory>
    ensures { IfOk result (λ _. (k : ℕ) → sums_of k sums.new
        ≡ sums_of k sums.old ++ (if nat_eq key k
        then (if nat_lt k (length tallies.now.listed.items) then []
        else if nat_lt k (length tallies.now.slots.place.items) then []
        else tally_entry key tally.now) else [])) }
{
    if key < tallies.listed.len() as u64 || key < tallies.slots.place.len() as u64 {
        return Ok(());
    }
    push_entry(sums, key, tally)
}

// Adds the entry of the key, where some sample had it.
fn push_entry(sums: &mut List<KeySum>, key: u64, tally: &Tally) -> Result<(), Memory>
    ensures { IfOk result (λ _. (k : ℕ) → sums_of k sums.new
        ≡ sums_of k sums.old ++ (if nat_eq key k then tally_entry key tally.now else [])) }
{
    if tally.last == 0 {
        return Ok(());
    }
    sums.push(KeySum {
        key,
        flat: tally.flat,
        cum: tally.cum,
    })
}
