//! The comparison of two catalogues.
ghost use Rattle.std.specs.Prelude.{◌≡◌, ◌↔◌, IsTrue, IfOk, None, Some, option_map};
ghost use Rattle.std.specs.FinMap.{get};
ghost use Rattle.table_rows.specs.Values.{values_fault};
ghost use Rattle.cat_naming.specs.Entries.{catalogue_named};
ghost use Rattle.cat_naming.specs.Texts.{rows_by_oid};
ghost use Rattle.cat_same.specs.Differences.{IsFirstDifference, IsWithEntry, lesser_of};
ghost use Rattle.cat_same.specs.Verdicts.{IsVerdict};

use cat_model::{Key, Value};
use cat_names::DataSet;
use cat_naming::catalogue_map;
use eng_map::NamedMap;
use same_maps::same_value;
use std::alloc::{AllocError, Global};
use well_formed::WellFormed;

/// What a comparison comes to.
#[derive(Drop)]
pub enum Verdict {
    /// Both stand for the same by names.
    Same,
    /// The least key at which they differ, in the order of keys.
    Differs(Key),
}

// Whether a value is what stands under a key.
fn is_at(named: &NamedMap, key: &Key, value: &Value) -> bool
    ensures { IsTrue result ↔ (get named.now key.now ≡ Some value.now) }
{
    match named.get(key) {
        Some(other) => same_value(other, value),
        None => false,
    }
}

// The lesser of two keys, or the one that there is.
fn lesser<'m>(a: Option<&'m Key>, b: Option<&'m Key>) -> Option<&'m Key>
    ensures { option_map (λ k. k.now) result ≡ lesser_of (option_map (λ k. k.now) a.entry) (option_map (λ k. k.now) b.entry) }
{
    match (a, b) {
        (Some(a), Some(b)) => Some(if b < a { b } else { a }),
        (Some(a), None) => Some(a),
        (None, b) => b,
    }
}

// The least difference so far, with one entry more.
fn with_entry<'m>(
    other: &NamedMap,
    key: &'m Key,
    value: &Value,
    least: Option<&'m Key>,
) -> Option<&'m Key>
    ensures { IsWithEntry other.now (key.now, value.now) (option_map (λ k. k.now) least.entry) (option_map (λ k. k.now) result) }
{
    if is_at(other, key, value) {
        least
    } else {
        lesser(least, Some(key))
    }
}

// The least key of the first at which the second has another value or none.
fn first_difference<'m>(of: &'m NamedMap, other: &NamedMap) -> Option<&'m Key>
    ensures { IsFirstDifference of.now other.now (option_map (λ k. k.now) result) }
{
    let mut least = None;
    for (key, value) in of.iter() {
        least = with_entry(other, key, value, least);
    }
    least
}

/// Compares two catalogues by names, in a time that grows with their sizes: each is gone over once, and each key of it
/// looked up in the other. The only error is want of memory.
pub fn compare_maps(a: &NamedMap, b: &NamedMap) -> Result<Verdict, AllocError>
    ensures { IfOk result (λ verdict. IsVerdict a.now b.now verdict) }
{
    let of_a = first_difference(a, b);
    let of_b = first_difference(b, a);
    match lesser(of_a, of_b) {
        Some(key) => Ok(Verdict::Differs(key.clone()?)),
        None => Ok(Verdict::Same),
    }
}

// What a catalogue whose texts have no fault stands for.
fn named(alloc: Global, cat: &WellFormed, rows: &DataSet) -> Result<NamedMap, AllocError>
    requires { values_fault cat.now rows.now ≡ None }
    ensures { IfOk result (λ named. named ≡ catalogue_named cat.now (rows_by_oid rows.now)) }
{
    catalogue_map(alloc, cat.rows(), rows)
}

/// Compares what two catalogues and the rows of their tables stand for by names, in a time that grows with their rows
/// and texts about as the time to sort them does. The texts of each hold rows of its tables. The only error is want of
/// memory.
pub fn same(
    alloc: Global,
    a: &WellFormed,
    a_rows: &DataSet,
    b: &WellFormed,
    b_rows: &DataSet,
) -> Result<Verdict, AllocError>
    requires first { values_fault a.now a_rows.now ≡ None }
    requires second { values_fault b.now b_rows.now ≡ None }
    ensures { IfOk result (λ verdict. IsVerdict (catalogue_named a.now (rows_by_oid a_rows.now)) (catalogue_named b.now (rows_by_oid b_rows.now)) verdict) }
{
    let of_a = named(alloc, a, a_rows)?;
    let of_b = named(alloc, b, b_rows)?;
    compare_maps(&of_a, &of_b)
}
