//! Numbers by their places, and other keys by their hashes.
ghost use Rattle.std.specs.Prelude.{◌≡◌, ◌<◌, ◌||◌, ◌&&◌, List, ℕ, not, true, false, IfOk, IsTrue, OnOk, length, get_or, set};
ghost use Rattle.cat_model.specs.Lexemes.{same_text};
ghost use Rattle.key_sets.specs.Numbers.{is_numbered};
ghost use Rattle.key_sets.specs.Holding.{holds};

use crate::number::place_of;
use std::alloc::{AllocError, Global};
use std::collections::HashSet;

/// A set of keys, each a slice of a text.
#[derive(Drop)]
pub struct KeySet<'t> {
    numbered: Vec<bool>,
    others: HashSet<&'t [u8]>,
}

impl<'t> KeySet<'t> {
    /// A set without keys, in which numbers up to about this one have places of a byte each: keys of k digits have those from
    /// 10 ^ k to 2 * 10 ^ k. The error is that memory ran out.
    pub fn new(alloc: Global, places: usize) -> Result<KeySet<'t>, AllocError>
        ensures { IfOk result (λ set. (key : List ℕ) → holds set key ≡ false) }
    {
        Ok(KeySet {
            numbered: vec![in alloc; false; places]?,
            others: HashSet::new(alloc),
        })
    }

    /// Whether a key is in the set.
    pub fn contains(&self, key: &[u8]) -> bool
        ensures { result ≡ holds self.now key.now }
    {
        match place_of(key, self.numbered.len()) {
            Some(place) => self.numbered[place],
            None => self.others.contains(key),
        }
    }

    /// Adds a key; whether it is new. The error is that memory ran out.
    pub fn insert(&mut self, key: &'t [u8]) -> Result<bool, AllocError>
        ensures new { IfOk result (λ new. new ≡ not (holds self.old key.now)) }
        ensures added { OnOk result ((other : List ℕ) → holds self.new other ≡ (same_text key.now other || holds self.old other)) }
    {
        match place_of(key, self.numbered.len()) {
            Some(place) => Ok(mark(&mut self.numbered, place)),
            None => Ok(self.others.insert(key)?),
        }
    }

    /// Adds a key that has a place and is new; whether it was added. Nothing of the key is held, and no memory is taken.
    pub fn insert_number(&mut self, key: &[u8]) -> bool
        ensures new { result ≡ (is_numbered (length self.old.numbered.items) key.now && not (holds self.old key.now)) }
        ensures added { IsTrue result → (other : List ℕ) → holds self.new other ≡ (same_text key.now other || holds self.old other) }
        ensures kept { result ≡ false → self.new ≡ self.old }
    {
        let Some(place) = place_of(key, self.numbered.len()) else {
            return false;
        };
        if self.numbered[place] {
            return false;
        }
        self.numbered[place] = true;
        true
    }
}

// Marks a place; whether it wasn't.
fn mark(numbered: &mut Vec<bool>, place: usize) -> bool
    requires { place < length numbered.old.items }
    ensures new { result ≡ not (get_or numbered.old.items place false) }
    ensures marked { numbered.new.items ≡ set numbered.old.items place true }
{
    let new = !numbered[place];
    numbered[place] = true;
    new
}
