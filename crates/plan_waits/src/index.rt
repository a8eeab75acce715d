//! The places of entries, under what they read and write and under their dump ids.
ghost use Rattle.std.specs.Prelude.{◌≡◌, true, None, ℕ, OnOk};
ghost use Rattle.std.specs.Ordering.{nat_cmp};
ghost use Rattle.std.specs.BTreeMap.{get};
ghost use Rattle.std.specs.List.{AllByRecursion};
ghost use Rattle.cat_model.specs.declared.key.Key.{Key as TheKey};
ghost use Rattle.cat_model.specs.declared.class.Mark.{Mark as TheMark};
ghost use Rattle.cat_model.specs.Keys.{key_cmp};
ghost use Rattle.plan_waits.specs.Buckets.{bucket, has, has_id, is_listed};

use crate::buckets::bucket;
use cat_model::{Key, Mark};
use eng_steps::let_go_key;
use std::alloc::{AllocError, Global};
use std::collections::BTreeMap;

/// Places under keys.
pub(crate) type Index = BTreeMap<Key, Vec<usize>>;

/// Places under dump ids.
pub(crate) type Ids = BTreeMap<u32, Vec<usize>>;

#[tactic(auto, using(std::proofs::lemmas::List::Folds::list_any_kept, crate::proofs::Listing::has_pushed, crate::proofs::Listing::has_still))]
fn push_place(places: &mut Vec<usize>, place: usize) -> Result<(), AllocError>
    ensures kept { (i : ℕ) → has places.old.items i ≡ true → has places.new.items i ≡ true }
    ensures added { OnOk result (has places.new.items place ≡ true) }
{
    places.push(place)?;
    Ok(())
}

// A place under a key that has none yet.
fn add_first(alloc: Global, index: &mut Index, key: &Key, place: usize) -> Result<(), AllocError>
    requires { get key_cmp index.old key.now ≡ None }
    ensures kept { (k : TheKey) (i : ℕ) → is_listed index.old k i ≡ true → is_listed index.new k i ≡ true }
    ensures added { OnOk result (is_listed index.new key.now place ≡ true) }
{
    let mut places = Vec::new(alloc);
    push_place(&mut places, place)?;
    index.insert(key.clone()?, places)?;
    Ok(())
}

// A place under a key.
fn add_under(alloc: Global, index: &mut Index, key: &Key, place: usize) -> Result<(), AllocError>
    ensures kept { (k : TheKey) (i : ℕ) → is_listed index.old k i ≡ true → is_listed index.new k i ≡ true }
    ensures added { OnOk result (is_listed index.new key.now place ≡ true) }
{
    match index.get_mut(key) {
        Some(places) => push_place(places, place),
        None => add_first(alloc, index, key, place),
    }
}

fn add_mark(alloc: Global, index: &mut Index, mark: &Mark, place: usize) -> Result<(), AllocError>
    ensures kept { (k : TheKey) (i : ℕ) → is_listed index.old k i ≡ true → is_listed index.new k i ≡ true }
    ensures added { OnOk result (is_listed index.new (bucket mark.now) place ≡ true) }
{
    let key = bucket(mark)?;
    let added = add_under(alloc, index, &key, place);
    let_go_key(key);
    added
}

/// A place under each of these marks. What was listed stays.
pub(crate) fn add_marks(
    alloc: Global,
    index: &mut Index,
    marks: &[Mark],
    place: usize,
) -> Result<(), AllocError>
    ensures kept { (k : TheKey) (i : ℕ) → is_listed index.old k i ≡ true → is_listed index.new k i ≡ true }
    ensures added { OnOk result (AllByRecursion (λ (m : TheMark). is_listed index.new (bucket m) place ≡ true) marks.now) }
{
    for mark in marks {
        add_mark(alloc, index, mark, place)?;
    }
    Ok(())
}

fn add_first_id(alloc: Global, ids: &mut Ids, id: u32, place: usize) -> Result<(), AllocError>
    requires { get nat_cmp ids.old id ≡ None }
    ensures kept { (k i : ℕ) → has_id ids.old k i ≡ true → has_id ids.new k i ≡ true }
    ensures added { OnOk result (has_id ids.new id place ≡ true) }
{
    let mut places = Vec::new(alloc);
    push_place(&mut places, place)?;
    ids.insert(id, places)?;
    Ok(())
}

/// A place under a dump id. What was listed stays.
pub(crate) fn add_id(alloc: Global, ids: &mut Ids, id: u32, place: usize) -> Result<(), AllocError>
    ensures kept { (k i : ℕ) → has_id ids.old k i ≡ true → has_id ids.new k i ≡ true }
    ensures added { OnOk result (has_id ids.new id place ≡ true) }
{
    match ids.get_mut(&id) {
        Some(places) => push_place(places, place),
        None => add_first_id(alloc, ids, id, place),
    }
}
