//! The entries of objects, without their numbers.
ghost use Rattle.std.specs.Prelude.{◌≡◌, false, [], ◌∷◌, ◌++◌, Some, option_map, IfOk, OnOk};
ghost use Rattle.std.specs.List.{filter, slice_get};
ghost use Rattle.std.specs.Option.{option_to_list};
ghost use Rattle.dump_toc.specs.Drafts.{section_of, oid_of, copy_of_kind, tableam_of, with_texts, object_draft, is_that, is_relation, owner_table, owner_needs, owned_with, owned_drafts_of};

use crate::draft::{Draft, beside};
use crate::owner::{name_text, owner_of};
use crate::tags::{desc_of, tag_of};
use cat_model::Items;
use cat_names::OidIndex;
use copy_text::Text;
use dump_rows::DumpRows;
use dump_stmts::{copy_line, defn_of, drop_of, owned_by, text_of};
use graph_parts::{Obj, ObjKind};
use std::alloc::{AllocError, Global};

/// The sections of entries: what stands before the data, the data, and what is made behind them.
const PRE_DATA: u8 = 2;

const DATA: u8 = 3;

const POST_DATA: u8 = 4;

// The section of the entry of an object.
fn section_of(kind: ObjKind) -> u8
    ensures { result ≡ section_of kind }
{
    match kind {
        ObjKind::Schema
        | ObjKind::UserType
        | ObjKind::Table
        | ObjKind::View
        | ObjKind::Dummy
        | ObjKind::Sequence
        | ObjKind::Default
        | ObjKind::PreData => PRE_DATA,
        ObjKind::TableData | ObjKind::SeqValue => DATA,
        ObjKind::PostData
        | ObjKind::Constraint
        | ObjKind::Index
        | ObjKind::Rule
        | ObjKind::Foreign => POST_DATA,
    }
}

// The oid that an entry tells; that of a sequence's value tells none.
fn oid_of(object: &Obj) -> u32
    ensures { result ≡ oid_of object.now object.now.kind }
{
    match object.kind {
        ObjKind::SeqValue => 0,
        _ => object.id.oid,
    }
}

// The line of COPY, where there are rows.
fn copy_of(alloc: Global, rows: &DumpRows<'_>, object: &Obj) -> Result<Option<Text>, AllocError>
    ensures { IfOk result (λ line. line ≡ copy_of_kind rows.now object.now object.now.kind) }
{
    match object.kind {
        ObjKind::TableData => {
            let line = copy_line(alloc, rows, object)?;
            Ok(Some(line))
        }
        _ => Ok(None),
    }
}

// The table access method, which tables have.
fn tableam_of(alloc: Global, kind: ObjKind) -> Result<Option<Text>, AllocError>
    ensures { IfOk result (λ method. method ≡ tableam_of kind) }
{
    match kind {
        ObjKind::Table => {
            let heap = text_of(alloc, b"heap")?;
            Ok(Some(heap))
        }
        _ => Ok(None),
    }
}

// These places.
fn places(alloc: Global, places: &[u32]) -> Result<Items<u32>, AllocError>
    ensures { IfOk result (λ same. same ≡ places.now) }
{
    Ok(Items::new(places.to_vec(alloc)?))
}

// The draft of an object with these statements.
fn with_texts(
    alloc: Global,
    rows: &DumpRows<'_>,
    object: &Obj,
    defn: Text,
    drop_stmt: Text,
    copy_stmt: Option<Text>,
    needs: Items<u32>,
) -> Result<Draft, AllocError>
    ensures { IfOk result (λ draft. draft ≡ with_texts rows.now object.now defn drop_stmt copy_stmt needs) }
{
    let tag = tag_of(alloc, rows, object)?;
    let desc = text_of(alloc, desc_of(rows, object))?;
    let namespace = name_text(alloc, object.schema.as_ref())?;
    let tableam = tableam_of(alloc, object.kind)?;
    let owner = name_text(alloc, owner_of(rows, object))?;
    Ok(Draft {
        tableoid: object.id.class,
        oid: oid_of(object),
        tag,
        desc,
        section: section_of(object.kind),
        defn,
        drop_stmt,
        copy_stmt,
        namespace,
        tableam,
        owner,
        needs,
    })
}

/// The draft of an object that needs those at these places. A table has the defaults but for those of the given oids.
#[tactic(auto, unfolding(crate::specs::Drafts::object_draft))]
pub(crate) fn object_draft(
    alloc: Global,
    rows: &DumpRows<'_>,
    standing: &OidIndex,
    object: &Obj,
    needs: &[u32],
) -> Result<Draft, AllocError>
    ensures { IfOk result (λ draft. draft ≡ object_draft rows.now standing.now object.now needs.now) }
{
    let defn = defn_of(alloc, rows, standing, object)?;
    let drop_stmt = drop_of(alloc, rows, object)?;
    let copy_stmt = copy_of(alloc, rows, object)?;
    let needs = places(alloc, needs)?;
    with_texts(alloc, rows, object, defn, drop_stmt, copy_stmt, needs)
}

// ---- the owners of sequences

// Whether an object is the relation of this oid.
fn is_that(object: &Obj, relation: u32) -> bool
    ensures { result ≡ is_that relation object.now }
{
    object.id.class == 1259 && object.id.oid == relation
}

// The same of the object at a place.
fn is_relation(objects: &[Obj], place: u32, relation: u32) -> bool
    ensures { result ≡ is_relation objects.now relation place }
{
    match objects.get(place as usize) {
        Some(object) => is_that(object, relation),
        None => false,
    }
}

// Those of these places at which the relation of an oid is.
fn relation_places(
    alloc: Global,
    objects: &[Obj],
    needs: &[u32],
    relation: u32,
) -> Result<Vec<u32>, AllocError>
    ensures { IfOk result (λ places. places.items ≡ filter (is_relation objects.now relation) needs.now) }
{
    needs
        .iter()
        .copied()
        .filter(|place| is_relation(objects, *place, relation))
        .collect(alloc)
}

// Those places, and a sequence's own.
fn owner_needs(
    alloc: Global,
    objects: &[Obj],
    needs: &[u32],
    table: u32,
    place: u32,
) -> Result<Items<u32>, AllocError>
    ensures { IfOk result (λ places. places ≡ owner_needs objects.now needs.now table place) }
{
    let mut places = relation_places(alloc, objects, needs, table)?;
    places.push(place)?;
    Ok(Items::new(places))
}

// The table of the column that owns a sequence; 0 where none does.
fn owner_table(rows: &DumpRows<'_>, oid: u32) -> u32
    ensures { result ≡ owner_table rows.now oid }
{
    match rows.sequence_of(oid) {
        Some(row) => row.ownrel,
        None => 0,
    }
}

// The draft of the column that owns a sequence, by its statement.
fn owned_with(
    alloc: Global,
    rows: &DumpRows<'_>,
    objects: &[Obj],
    object: &Obj,
    needs: &[u32],
    place: u32,
    defn: Text,
) -> Result<Draft, AllocError>
    ensures { IfOk result (λ draft. draft ≡ owned_with rows.now objects.now object.now needs.now place defn) }
{
    let tag = tag_of(alloc, rows, object)?;
    let table = owner_table(rows, object.id.oid);
    let needs = owner_needs(alloc, objects, needs, table, place)?;
    beside(
        alloc,
        rows,
        object,
        b"SEQUENCE OWNED BY",
        PRE_DATA,
        tag,
        defn,
        needs,
    )
}

/// The draft of the column that owns the sequence at a place; `None` where the object is none, or no column owns it.
pub(crate) fn owned_draft(
    alloc: Global,
    rows: &DumpRows<'_>,
    objects: &[Obj],
    object: &Obj,
    needs: &[u32],
    place: u32,
) -> Result<Option<Draft>, AllocError>
    ensures { IfOk result (λ draft. draft ≡ owned_drafts_of rows.now objects.now object.now needs.now place object.now.kind) }
{
    if !matches!(object.kind, ObjKind::Sequence) {
        return Ok(None);
    }
    match owned_by(alloc, rows, object)? {
        Some(defn) => {
            let draft = owned_with(alloc, rows, objects, object, needs, place, defn)?;
            Ok(Some(draft))
        }
        None => Ok(None),
    }
}
