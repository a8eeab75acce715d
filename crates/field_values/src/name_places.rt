//! Names by their places in a list.
ghost use Rattle.std.specs.Prelude.{◌≡◌, ◌++◌, ◌∷◌, [], ℕ, List, map, length, IfOk, OnOk};
ghost use Rattle.std.specs.List.{position_from, list_any};
ghost use Rattle.cat_model.specs.Lexemes.{same_text};
ghost use Rattle.field_values.specs.Places.{ArePlaces};

use copy_text::Name;
use std::alloc::{AllocError, Global};
use std::collections::HashMap;
use std::marker::Model;

/// A list of names in which each is found by a look-up. A contract sees the list.
#[derive(Drop)]
pub struct NamePlaces<'a> {
    names: Vec<&'a [u8]>,
    first: HashMap<&'a [u8], usize>,
}

impl<'a> Model for NamePlaces<'a> {
    ghost use Rattle.std.specs.Prelude.{List, ℕ, map};
    ghost use Rattle.field_values.specs.Places.{ArePlaces};

    ghost Value = { List (List ℕ) };

    ghost view = { λ p. map (λ name. name.now) p.names.items };

    ghost invariant = { λ p. ArePlaces (map (λ name. name.now) p.names.items) p.first };
}

impl<'a> NamePlaces<'a> {
    /// The list of these names, of which some may be equal. The error says that there was no memory.
    pub fn new(alloc: Global, names: Vec<&'a [u8]>) -> Result<NamePlaces<'a>, AllocError>
        ensures { IfOk result (λ places. places ≡ map (λ name. name.now) names.entry.items) }
    {
        let first = first_places(alloc, &names)?;
        Ok(NamePlaces { names, first })
    }

    /// The list of these names. The error says that there was no memory.
    pub fn of_names(alloc: Global, names: &'a [Name]) -> Result<NamePlaces<'a>, AllocError>
        ensures { IfOk result (λ places. places ≡ names.now) }
    {
        let bytes = name_bytes(alloc, names)?;
        Ok(NamePlaces::new(alloc, bytes)?)
    }

    /// Whether a name stands in the list.
    pub fn has(&self, name: &[u8]) -> bool
        ensures { result ≡ list_any (same_text name.now) self.now }
    {
        self.place(name).is_some()
    }

    /// The place at which a name stands first.
    pub fn place(&self, name: &[u8]) -> Option<usize>
        ensures { result ≡ position_from (same_text name.now) 0 self.now }
    {
        self.first.get(name).copied()
    }
}

fn name_bytes<'a>(alloc: Global, names: &'a [Name]) -> Result<Vec<&'a [u8]>, AllocError>
    ensures { IfOk result (λ bytes. map (λ name. name.now) bytes.items ≡ names.now) }
{
    let mut bytes = Vec::with_capacity(alloc, names.len())?;
    for name in names {
        bytes.push(name.as_bytes())?;
    }
    Ok(bytes)
}

fn first_places<'a>(
    alloc: Global,
    names: &[&'a [u8]],
) -> Result<HashMap<&'a [u8], usize>, AllocError>
    ensures { IfOk result (ArePlaces (map (λ name. name.now) names.now)) }
{
    let mut first = HashMap::new(alloc);
    for i in 0..names.len() {
        add_place(&mut first, names[i], i)?;
    }
    Ok(first)
}

// Adds the name at this place, where it doesn't stand before.
fn add_place<'a>(
    first: &mut HashMap<&'a [u8], usize>,
    name: &'a [u8],
    place: usize,
) -> Result<(), AllocError>
    ensures { OnOk result ((names : List (List ℕ)) → ArePlaces names first.old → place ≡ length names → ArePlaces (names ++ name.now ∷ []) first.new) }
{
    if first.contains_key(name) {
        return Ok(());
    }
    first.insert(name, place)?;
    Ok(())
}
