//! What stands beside a catalogue, so that what its rows name is found without going through its tables.
ghost use Rattle.std.specs.Prelude.{◌≡◌, [], ◌∷◌, ◌++◌, ℕ, List, Some, None, map, filter_map, option_map, unwrap_or, IfOk, OnOk};
ghost use Rattle.std.specs.List.{find, filter, slice_get};
ghost use Rattle.std.specs.Option.{option_and_then};
ghost use Rattle.std.specs.Ordering.{nat_cmp};
ghost use Rattle.cat_model.specs.declared.object.QName.{QName as Path};
ghost use Rattle.cat_names.specs.Indexed.{AreKeys};
ghost use Rattle.cat_names.specs.Lookups.{same_oid};
ghost use Rattle.cat_book.specs.Leads.{is_key};
ghost use Rattle.cat_book.specs.Paths.{path_cmp};
ghost use Rattle.graph_parts.specs.declared.object.ObjId.{ObjId as IdValue};
ghost use Rattle.obj_beside.specs.Beside.{AreEnds, ArePlaces};
ghost use Rattle.obj_beside.specs.Firsts.{AreFirsts};
ghost use Rattle.obj_graph.specs.Chosen.{owner_of};
ghost use Rattle.obj_graph.specs.ConstraintLinks.{keys_on};
ghost use Rattle.obj_graph.specs.DependLinks.{default_of, rewrite_of, rewrite_of_view};
ghost use Rattle.obj_graph.specs.Ids.{relation_id, constraint_id};
ghost use Rattle.obj_graph.specs.RelationLinks.{pair_cmp, has_column_type};
ghost use Rattle.obj_graph.specs.Links.{first_at, key_ends, relation_end, relation_at, relation_ends, type_at, type_ends, reference_end};

use crate::firsts::add_first;
use crate::keys::Keys;
use cat_book::{Book, keys};
use cat_model::{Key, QName};
use cat_names::{OidIndex, add_key};
use cat_rows::{
    AttrdefRow, AttributeRow, Catalogue, ClassRow, ConstraintRow, RewriteRow, SequenceRow, TypeRow,
};
use copy_text::Name;
use graph_parts::ObjId;
use obj_graph::{constraint_id, relation_id, type_id};
use std::alloc::{AllocError, Global};
use std::collections::{BTreeMap, BTreeSet};
use std::marker::Model;

/// The places of rows.
#[derive(Drop)]
pub(crate) struct RowPlaces {
    /// Those of pg_sequence, by their sequences.
    pub(crate) sequences: OidIndex,
    /// Those of pg_attrdef.
    pub(crate) defaults: OidIndex,
    /// Those of pg_rewrite.
    pub(crate) rewrites: OidIndex,
    /// The same, by their views.
    pub(crate) views: OidIndex,
}

/// The objects that names lead to.
#[derive(Drop)]
pub(crate) struct Ends {
    /// The primary keys and unique constraints, by the oids of their indexes.
    pub(crate) keys: BTreeMap<u32, ObjId>,
    /// The relations by their paths, with constraints in place of their indexes.
    pub(crate) relations: BTreeMap<QName, ObjId>,
    /// The types by their paths.
    pub(crate) types: BTreeMap<QName, ObjId>,
}

/// A catalogue's book, with what the rows of its tables name. A contract sees the catalogue.
#[derive(Drop)]
pub struct Beside<'a> {
    book: &'a Book<'a>,
    places: RowPlaces,
    ends: Ends,
    // The types of columns, by their relations.
    column_types: BTreeSet<(u32, u32)>,
    keys: Keys,
}

impl<'a> Model for Beside<'a> {
    ghost use Rattle.cat_rows.specs.declared.catalogue.Catalogue.{Catalogue};
    ghost use Rattle.obj_beside.specs.Beside.{IsBeside};

    ghost Value = { Catalogue };

    ghost view = { λ b. b.book.now };

    ghost invariant = { λ b. IsBeside b.book.now b.places b.ends b.column_types b.keys };
}

// The primary keys and unique constraints, by the oids of their indexes.
fn key_ends(alloc: Global, rows: &[&ConstraintRow]) -> Result<BTreeMap<u32, ObjId>, AllocError>
    ensures { IfOk result (λ ends. AreFirsts nat_cmp ends (map (λ c. (c.now.conindid, constraint_id c.now.oid)) rows.now)) }
{
    let mut ends = BTreeMap::new(alloc);
    for row in rows {
        add_first(&mut ends, row.conindid, constraint_id(row.oid))?;
    }
    Ok(ends)
}

// What stands for a relation: the constraint that it is the index of, or itself.
fn relation_end(keys: &BTreeMap<u32, ObjId>, oid: u32) -> ObjId
    ensures { (es : List (ℕ × IdValue)) → AreFirsts nat_cmp keys.now es → result ≡ unwrap_or (first_at nat_cmp es oid) (relation_id oid) }
{
    keys.get(&oid).copied().unwrap_or(relation_id(oid))
}

// Keeps what stands first at a path, where there is one.
fn add_path(
    ends: &mut BTreeMap<QName, ObjId>,
    path: Option<QName>,
    id: ObjId,
) -> Result<(), AllocError>
    ensures { OnOk result ((es : List (Path × IdValue)) → AreFirsts path_cmp ends.old es → AreFirsts path_cmp ends.new (es ++ filter_map (λ e. e) (option_map (λ q. (q, id)) path ∷ []))) }
{
    if let Some(path) = path {
        add_first(ends, path, id)?;
    }
    Ok(())
}

// These relations by their paths.
fn relation_ends(
    alloc: Global,
    book: &Book<'_>,
    keys: &BTreeMap<u32, ObjId>,
    rows: &[ClassRow],
) -> Result<BTreeMap<QName, ObjId>, AllocError>
    requires { AreFirsts nat_cmp keys.now (key_ends book.now) }
    ensures { IfOk result (λ ends. AreFirsts path_cmp ends (filter_map (relation_at book.now) rows.now)) }
{
    let mut ends = BTreeMap::new(alloc);
    for row in rows {
        let path = book.class_path(row)?;
        add_path(&mut ends, path, relation_end(keys, row.oid))?;
    }
    Ok(ends)
}

// These types by their paths.
fn type_ends(
    alloc: Global,
    book: &Book<'_>,
    rows: &[TypeRow],
) -> Result<BTreeMap<QName, ObjId>, AllocError>
    ensures { IfOk result (λ ends. AreFirsts path_cmp ends (filter_map (type_at book.now) rows.now)) }
{
    let mut ends = BTreeMap::new(alloc);
    for row in rows {
        let path = book.type_path(row)?;
        add_path(&mut ends, path, type_id(row.oid))?;
    }
    Ok(ends)
}

// The objects that names lead to.
#[tactic(auto, unfolding(obj_graph::specs::Links::key_ends, obj_graph::specs::Links::relation_ends, obj_graph::specs::Links::type_ends))]
fn ends_of(alloc: Global, book: &Book<'_>) -> Result<Ends, AllocError>
    ensures { IfOk result (λ ends. AreEnds book.now ends) }
{
    let rows = keys(alloc, book.tables().pg_constraint.as_slice())?;
    let keys = key_ends(alloc, &rows)?;
    let relations = relation_ends(alloc, book, &keys, book.tables().pg_class.as_slice())?;
    let types = type_ends(alloc, book, book.tables().pg_type.as_slice())?;
    Ok(Ends {
        keys,
        relations,
        types,
    })
}

// The sequences of rows of pg_sequence.
fn sequence_oids(alloc: Global, rows: &[SequenceRow]) -> Result<OidIndex, AllocError>
    ensures { IfOk result (λ oids. oids ≡ map (λ s. s.seqrelid) rows.now) }
{
    let oids: Vec<u32> = rows.iter().map(|s| s.seqrelid).collect(alloc)?;
    OidIndex::of(alloc, &oids)
}

// The oids of defaults.
fn default_oids(alloc: Global, rows: &[AttrdefRow]) -> Result<OidIndex, AllocError>
    ensures { IfOk result (λ oids. oids ≡ map (λ d. d.oid) rows.now) }
{
    let oids: Vec<u32> = rows.iter().map(|d| d.oid).collect(alloc)?;
    OidIndex::of(alloc, &oids)
}

// The oids of rewrite rows.
fn rewrite_oids(alloc: Global, rows: &[RewriteRow]) -> Result<OidIndex, AllocError>
    ensures { IfOk result (λ oids. oids ≡ map (λ r. r.oid) rows.now) }
{
    let oids: Vec<u32> = rows.iter().map(|r| r.oid).collect(alloc)?;
    OidIndex::of(alloc, &oids)
}

// The views of rewrite rows.
fn view_oids(alloc: Global, rows: &[RewriteRow]) -> Result<OidIndex, AllocError>
    ensures { IfOk result (λ oids. oids ≡ map (λ r. r.ev_class) rows.now) }
{
    let oids: Vec<u32> = rows.iter().map(|r| r.ev_class).collect(alloc)?;
    OidIndex::of(alloc, &oids)
}

// The places of rows.
fn places_of(alloc: Global, cat: &Catalogue) -> Result<RowPlaces, AllocError>
    ensures { IfOk result (λ places. ArePlaces cat.now places) }
{
    let sequences = sequence_oids(alloc, cat.pg_sequence.as_slice())?;
    let defaults = default_oids(alloc, cat.pg_attrdef.as_slice())?;
    let rewrites = rewrite_oids(alloc, cat.pg_rewrite.as_slice())?;
    let views = view_oids(alloc, cat.pg_rewrite.as_slice())?;
    Ok(RowPlaces {
        sequences,
        defaults,
        rewrites,
        views,
    })
}

// Adds the type of a column, by its relation.
fn add_column_type(types: &mut BTreeSet<(u32, u32)>, row: &AttributeRow) -> Result<(), AllocError>
    ensures { OnOk result ((ts : List (ℕ × ℕ)) → AreKeys pair_cmp types.old ts → AreKeys pair_cmp types.new (ts ++ (row.now.attrelid, row.now.atttypid) ∷ [])) }
{
    add_key(types, (row.attrelid, row.atttypid))?;
    Ok(())
}

// The types of columns, by their relations.
fn column_types(alloc: Global, rows: &[AttributeRow]) -> Result<BTreeSet<(u32, u32)>, AllocError>
    ensures { IfOk result (λ types. AreKeys pair_cmp types (map (λ a. (a.attrelid, a.atttypid)) rows.now)) }
{
    let mut types = BTreeSet::new(alloc);
    for row in rows {
        add_column_type(&mut types, row)?;
    }
    Ok(types)
}

// A row at a place, if there is one.
fn row_at<R>(rows: &[R], place: Option<usize>) -> Option<&R>
    ensures { option_map (λ r. r.now) result ≡ option_and_then (slice_get rows.now) place }
{
    match place {
        Some(place) => rows.get(place),
        None => None,
    }
}

impl<'a> Beside<'a> {
    /// This book, with what the rows of its catalogue's tables name.
    pub fn of(alloc: Global, book: &'a Book<'a>) -> Result<Beside<'a>, AllocError>
        ensures { IfOk result (λ beside. beside ≡ book.now) }
    {
        let places = places_of(alloc, book.tables())?;
        let ends = ends_of(alloc, book)?;
        let column_types = column_types(alloc, book.tables().pg_attribute.as_slice())?;
        let keys = Keys::of(alloc, book.tables())?;
        Ok(Beside {
            book,
            places,
            ends,
            column_types,
            keys,
        })
    }

    /// The book.
    pub fn book(&self) -> &Book<'a>
        ensures { result.now ≡ self.now }
    {
        self.book
    }

    // The first row of pg_sequence of a sequence.
    fn sequence_of(&self, oid: u32) -> Option<&SequenceRow>
        ensures { option_map (λ s. s.now) result ≡ find (λ s. same_oid oid s.seqrelid) self.now.pg_sequence }
    {
        let rows = self.book.tables().pg_sequence.as_slice();
        row_at(rows, self.places.sequences.find(oid))
    }

    /// The table whose column owns a sequence; `None` where none does.
    pub fn owner_of(&self, oid: u32) -> Option<&ClassRow>
        ensures { option_map (λ r. r.now) result ≡ owner_of self.now oid }
    {
        match self.sequence_of(oid) {
            Some(row) => self.book.class_of(row.ownrel),
            None => None,
        }
    }

    /// The first default of this oid; `None` where there is none.
    pub fn default_of(&self, oid: u32) -> Option<&AttrdefRow>
        ensures { option_map (λ d. d.now) result ≡ default_of self.now oid }
    {
        let rows = self.book.tables().pg_attrdef.as_slice();
        row_at(rows, self.places.defaults.find(oid))
    }

    /// The first rewrite row of this oid; `None` where there is none.
    pub fn rewrite_of(&self, oid: u32) -> Option<&RewriteRow>
        ensures { option_map (λ r. r.now) result ≡ rewrite_of self.now oid }
    {
        let rows = self.book.tables().pg_rewrite.as_slice();
        row_at(rows, self.places.rewrites.find(oid))
    }

    /// The first rewrite row of this view; `None` where there is none.
    pub fn rewrite_of_view(&self, oid: u32) -> Option<&RewriteRow>
        ensures { option_map (λ r. r.now) result ≡ rewrite_of_view self.now oid }
    {
        let rows = self.book.tables().pg_rewrite.as_slice();
        row_at(rows, self.places.views.find(oid))
    }

    /// What stands for a relation: the constraint that it is the index of, or itself.
    pub fn relation_end(&self, oid: u32) -> ObjId
        ensures { result ≡ relation_end self.now oid }
    {
        relation_end(&self.ends.keys, oid)
    }

    /// What a reference leads to; `None` where it leads nowhere.
    pub fn reference_end(&self, key: &Key) -> Option<ObjId>
        ensures { result ≡ reference_end self.now key.now }
    {
        match key {
            Key::Rel(q) => self.ends.relations.get(q).copied(),
            Key::UserType(q) => self.ends.types.get(q).copied(),
            _ => None,
        }
    }

    /// Whether a relation has a column of this type.
    pub fn has_column_type(&self, relation: u32, to: ObjId) -> bool
        ensures { result ≡ has_column_type self.now relation to }
    {
        to.class == 1247 && self.column_types.contains(&(relation, to.oid))
    }

    /// The keys of a table on this set of columns: the primary keys and unique constraints, and behind them the unique
    /// indexes over plain columns. It looks only at the keys of the table. The only error is that memory ran out.
    pub fn keys_on(
        &self,
        alloc: Global,
        table: u32,
        names: &[Name],
    ) -> Result<Vec<ObjId>, AllocError>
        ensures { IfOk result (λ ids. ids.items ≡ keys_on self.now table names.now) }
    {
        self.keys.on(alloc, table, names)
    }
}
