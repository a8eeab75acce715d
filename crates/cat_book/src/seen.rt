//! What is kept of a table's rows while its lines are tried.
ghost use Rattle.std.specs.Prelude.{◌≡◌, [], ◌∷◌, ◌++◌, ℕ, ℤ, List, filter_map, Some, IfOk, OnOk, option_map};
ghost use Rattle.std.specs.Ordering.{nat_cmp};
ghost use Rattle.cat_names.specs.Indexed.{AreKeys};
ghost use Rattle.cat_book.specs.Rules.{RowName as NameSeen, Place as PlaceSeen, name_cmp, place_cmp, is_among};
ghost use Rattle.cat_book.specs.Sets.{HoldsSeen, seen_name};

use crate::lines::RowName;
use cat_names::add_key;
use std::alloc::{AllocError, Global};
use std::collections::BTreeSet;

/// The keys of the rows before a line.
#[derive(Drop)]
pub(crate) struct Seen<'a> {
    pub(crate) oids: BTreeSet<u32>,
    pub(crate) names: BTreeSet<RowName<'a>>,
    pub(crate) places: BTreeSet<(u32, i64)>,
    pub(crate) is_marked: bool,
}

/// Adds a row's own oid, if it has one, and answers whether it was there.
pub(crate) fn add_oid(oids: &mut BTreeSet<u32>, oid: Option<u32>) -> Result<bool, AllocError>
    ensures again { IfOk result (λ again. (os : List ℕ) → AreKeys nat_cmp oids.old os → again ≡ is_among nat_cmp os oid) }
    ensures added { OnOk result ((os : List ℕ) → AreKeys nat_cmp oids.old os → AreKeys nat_cmp oids.new (os ++ filter_map (λ o. o) (oid ∷ []))) }
{
    match oid {
        Some(oid) => Ok(!add_key(oids, oid)?),
        None => Ok(false),
    }
}

/// Adds a row's place, if it has one, and answers whether it was there.
pub(crate) fn add_place(
    places: &mut BTreeSet<(u32, i64)>,
    place: Option<(u32, i64)>,
) -> Result<bool, AllocError>
    ensures again { IfOk result (λ again. (ps : List PlaceSeen) → AreKeys place_cmp places.old ps → again ≡ is_among place_cmp ps place) }
    ensures added { OnOk result ((ps : List PlaceSeen) → AreKeys place_cmp places.old ps → AreKeys place_cmp places.new (ps ++ filter_map (λ p. p) (place ∷ []))) }
{
    match place {
        Some(place) => Ok(!add_key(places, place)?),
        None => Ok(false),
    }
}

/// Adds a row's name, if it has one, and answers whether it was there.
pub(crate) fn add_name<'a>(
    names: &mut BTreeSet<RowName<'a>>,
    name: Option<RowName<'a>>,
) -> Result<bool, AllocError>
    ensures again { IfOk result (λ again. (ns : List NameSeen) → HoldsSeen seen_name name_cmp names.old ns → again ≡ is_among name_cmp ns (option_map seen_name name.entry)) }
    ensures added { OnOk result ((ns : List NameSeen) → HoldsSeen seen_name name_cmp names.old ns → HoldsSeen seen_name name_cmp names.new (ns ++ filter_map (λ n. n) (option_map seen_name name.entry ∷ []))) }
{
    match name {
        Some(name) => Ok(!add_key(names, name)?),
        None => Ok(false),
    }
}
