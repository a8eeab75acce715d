//! The objects that a selection chooses.
ghost use Rattle.std.specs.Prelude.{◌≡◌, [], ◌∷◌, ◌++◌, None, filter_map, option_map, IfOk, OnOk};
ghost use Rattle.cat_book.specs.Paths.{class_path, class_path_of};
ghost use Rattle.obj_graph.specs.Chosen.{schema_name};
ghost use Rattle.obj_graph.specs.Objects.{object, at_path, schema_object, type_object, object_kind, data_kind, relation_object, is_data_left_out, data_object, constraint_kind, schema_name_of, constraint_object, index_object, holders, contents, followers, unless, objects_of, default_object, rule_object};

use crate::chosen::{is_in_chosen, is_oid_chosen, is_relation_chosen, is_schema_chosen};
use cat_book::{Book, is_key};
use cat_model::QName;
use cat_names::{RelationKind, relation_kind};
use cat_rows::{AttrdefRow, ClassRow, ConstraintRow, IndexRow, NamespaceRow, RewriteRow, TypeRow};
use copy_text::Name;
use graph_parts::{Obj, ObjId, ObjKind};
use obj_beside::Beside;
use obj_graph::{
    Select, constraint_id, data_id, default_id, is_path_hit, post_data, pre_data, relation_id,
    rule_id, schema_id, type_id,
};
use std::alloc::{AllocError, Global};

// ---- rows as objects

// An object of this path.
fn at_path(id: ObjId, kind: ObjKind, path: Option<QName>) -> Obj
    ensures { result ≡ at_path id kind path }
{
    match path {
        Some(QName { schema, name }) => Obj {
            id,
            kind,
            schema: Some(schema),
            name: Some(name),
            attnum: 0,
        },
        None => Obj {
            id,
            kind,
            schema: None,
            name: None,
            attnum: 0,
        },
    }
}

// The name of the schema of an oid.
fn schema_name<'b>(book: &'b Book<'_>, oid: u32) -> Option<&'b Name>
    ensures { option_map (λ n. n.now) result ≡ schema_name book.now oid }
{
    match book.schema_of(oid) {
        Some(schema) => Some(&schema.nspname),
        None => None,
    }
}

// The same name once more, where there is one.
fn same_name(name: Option<&Name>) -> Result<Option<Name>, AllocError>
    ensures { IfOk result (λ same. same ≡ option_map (λ n. n.now) name.entry) }
{
    match name {
        Some(name) => Ok(Some(name.clone()?)),
        None => Ok(None),
    }
}

/// A default that stands alone.
pub(crate) fn default_object(book: &Book<'_>, row: &AttrdefRow) -> Result<Obj, AllocError>
    ensures { IfOk result (λ o. o ≡ default_object book.now row.now) }
{
    let path = book.class_path_of(row.adrelid)?;
    let mut object = at_path(default_id(row.oid), ObjKind::Default, path);
    object.attnum = row.adnum;
    Ok(object)
}

/// The rule of a dummy view.
pub(crate) fn rule_object(book: &Book<'_>, row: &RewriteRow) -> Result<Obj, AllocError>
    ensures { IfOk result (λ o. o ≡ rule_object book.now row.now) }
{
    let path = book.class_path_of(row.ev_class)?;
    Ok(at_path(rule_id(row.oid), ObjKind::Rule, path))
}

/// Rows of a table that a selection chooses as objects.
trait Chosen {
    /// The rows of the table.
    type Row;

    ghost use Rattle.std.specs.Prelude.{Option};
    ghost use Rattle.cat_rows.specs.declared.catalogue.Catalogue.{Catalogue};
    ghost use Rattle.graph_parts.specs.declared.object.Obj.{Obj};
    ghost use Rattle.obj_graph.specs.declared.select.Select.{Select};

    ghost chosen: { Catalogue → Select → Self.Row → Option Obj };

    /// The row as an object, where it is chosen.
    fn object(
        beside: &Beside<'_>,
        select: &Select,
        row: &Self::Row,
    ) -> Result<Option<Obj>, AllocError>
        ensures { IfOk result (λ o. o ≡ chosen beside.now select.now row.now) };
}

// The schemas.
struct Schemas;

impl Chosen for Schemas {
    type Row = NamespaceRow;

    ghost chosen = { λ cat select row. schema_object select row };

    fn object(
        beside: &Beside<'_>,
        select: &Select,
        row: &NamespaceRow,
    ) -> Result<Option<Obj>, AllocError> {
        if !is_schema_chosen(select, &row.nspname) {
            return Ok(None);
        }
        let name = row.nspname.clone()?;
        Ok(Some(Obj {
            id: schema_id(row.oid),
            kind: ObjKind::Schema,
            schema: None,
            name: Some(name),
            attnum: 0,
        }))
    }
}

// The enums and domains.
struct Types;

impl Chosen for Types {
    type Row = TypeRow;

    ghost chosen = { type_object };

    fn object(
        beside: &Beside<'_>,
        select: &Select,
        row: &TypeRow,
    ) -> Result<Option<Obj>, AllocError> {
        let schema = schema_name(beside.book(), row.typnamespace);
        if !is_in_chosen(select, schema) {
            return Ok(None);
        }
        let schema = same_name(schema)?;
        let name = row.typname.clone()?;
        Ok(Some(Obj {
            id: type_id(row.oid),
            kind: ObjKind::UserType,
            schema,
            name: Some(name),
            attnum: 0,
        }))
    }
}

// What a relation is as an object.
fn object_kind(kind: RelationKind) -> Option<ObjKind>
    ensures { result ≡ object_kind kind }
{
    match kind {
        RelationKind::Table => Some(ObjKind::Table),
        RelationKind::View => Some(ObjKind::View),
        RelationKind::Sequence => Some(ObjKind::Sequence),
        RelationKind::Index | RelationKind::Other(_) => None,
    }
}

// The tables, views and sequences.
struct Relations;

impl Chosen for Relations {
    type Row = ClassRow;

    ghost chosen = { relation_object };

    fn object(
        beside: &Beside<'_>,
        select: &Select,
        row: &ClassRow,
    ) -> Result<Option<Obj>, AllocError> {
        let Some(kind) = object_kind(relation_kind(row.relkind)) else {
            return Ok(None);
        };
        if !is_relation_chosen(beside, select, row) {
            return Ok(None);
        }
        let path = beside.book().class_path(row)?;
        Ok(Some(at_path(relation_id(row.oid), kind, path)))
    }
}

// What a relation holds.
fn data_kind(kind: RelationKind) -> Option<ObjKind>
    ensures { result ≡ data_kind kind }
{
    match kind {
        RelationKind::Table => Some(ObjKind::TableData),
        RelationKind::Sequence => Some(ObjKind::SeqValue),
        RelationKind::View | RelationKind::Index | RelationKind::Other(_) => None,
    }
}

// Whether what a relation holds is left out.
fn is_data_left_out(book: &Book<'_>, select: &Select, row: &ClassRow, kind: ObjKind) -> bool
    ensures { result ≡ is_data_left_out book.now select.now row.now kind }
{
    match kind {
        ObjKind::TableData => is_path_hit(book, select.not_table_data.as_slice(), row),
        _ => false,
    }
}

// The rows of tables and the values of sequences.
struct Data;

impl Chosen for Data {
    type Row = ClassRow;

    ghost chosen = { data_object };

    fn object(
        beside: &Beside<'_>,
        select: &Select,
        row: &ClassRow,
    ) -> Result<Option<Obj>, AllocError> {
        let Some(kind) = data_kind(relation_kind(row.relkind)) else {
            return Ok(None);
        };
        if !is_relation_chosen(beside, select, row)
            || is_data_left_out(beside.book(), select, row, kind)
        {
            return Ok(None);
        }
        let path = beside.book().class_path(row)?;
        Ok(Some(at_path(data_id(row.oid), kind, path)))
    }
}

// What a constraint is as an object; a check is none.
fn constraint_kind(row: &ConstraintRow) -> Option<ObjKind>
    ensures { result ≡ constraint_kind row.now }
{
    if is_key(row) {
        Some(ObjKind::Constraint)
    } else if row.contype.byte() == b'f' {
        Some(ObjKind::Foreign)
    } else {
        None
    }
}

// The name of the schema of a relation.
fn schema_name_of<'b>(book: &'b Book<'_>, oid: u32) -> Option<&'b Name>
    ensures { option_map (λ n. n.now) result ≡ schema_name_of book.now oid }
{
    match book.class_of(oid) {
        Some(row) => schema_name(book, row.relnamespace),
        None => None,
    }
}

// The primary keys, unique constraints and foreign keys.
struct Constraints;

impl Chosen for Constraints {
    type Row = ConstraintRow;

    ghost chosen = { constraint_object };

    fn object(
        beside: &Beside<'_>,
        select: &Select,
        row: &ConstraintRow,
    ) -> Result<Option<Obj>, AllocError> {
        let Some(kind) = constraint_kind(row) else {
            return Ok(None);
        };
        if !is_oid_chosen(beside, select, row.conrelid) {
            return Ok(None);
        }
        let schema = same_name(schema_name_of(beside.book(), row.conrelid))?;
        let name = row.conname.clone()?;
        Ok(Some(Obj {
            id: constraint_id(row.oid),
            kind,
            schema,
            name: Some(name),
            attnum: 0,
        }))
    }
}

// The indexes of no constraint.
struct Indexes;

impl Chosen for Indexes {
    type Row = IndexRow;

    ghost chosen = { index_object };

    fn object(
        beside: &Beside<'_>,
        select: &Select,
        row: &IndexRow,
    ) -> Result<Option<Obj>, AllocError> {
        if !is_oid_chosen(beside, select, row.indrelid) {
            return Ok(None);
        }
        let path = beside.book().class_path_of(row.indexrelid)?;
        Ok(Some(at_path(relation_id(row.indexrelid), ObjKind::Index, path)))
    }
}

// ---- all objects

// Adds an object, where there is one.
fn push_some(objects: &mut Vec<Obj>, object: Option<Obj>) -> Result<(), AllocError>
    ensures { OnOk result (objects.new.items ≡ objects.old.items ++ filter_map (λ o. o) (object ∷ [])) }
{
    if let Some(object) = object {
        objects.push(object)?;
    }
    Ok(())
}

// Adds the objects that are chosen of these rows.
fn push_chosen<C: Chosen>(
    beside: &Beside<'_>,
    select: &Select,
    rows: &[C::Row],
    objects: &mut Vec<Obj>,
) -> Result<(), AllocError>
    ensures { OnOk result (objects.new.items ≡ objects.old.items ++ filter_map (C.chosen beside.now select.now) rows.now) }
{
    for row in rows {
        let object = C::object(beside, select, row)?;
        push_some(objects, object)?;
    }
    Ok(())
}

// Adds what stands before the data, unless the data alone are taken.
fn push_holders(
    beside: &Beside<'_>,
    select: &Select,
    objects: &mut Vec<Obj>,
) -> Result<(), AllocError>
    ensures { OnOk result (objects.new.items ≡ objects.old.items ++ unless select.now.data_only (holders beside.now select.now)) }
{
    if select.data_only {
        return Ok(());
    }
    let tables = beside.book().tables();
    push_chosen::<Schemas>(beside, select, tables.pg_namespace.as_slice(), objects)?;
    push_chosen::<Types>(beside, select, tables.pg_type.as_slice(), objects)?;
    push_chosen::<Relations>(beside, select, tables.pg_class.as_slice(), objects)?;
    Ok(())
}

// Adds the data, unless all else alone is taken.
fn push_data(beside: &Beside<'_>, select: &Select, objects: &mut Vec<Obj>) -> Result<(), AllocError>
    ensures { OnOk result (objects.new.items ≡ objects.old.items ++ unless select.now.schema_only (contents beside.now select.now)) }
{
    if select.schema_only {
        return Ok(());
    }
    let tables = beside.book().tables();
    push_chosen::<Data>(beside, select, tables.pg_class.as_slice(), objects)?;
    Ok(())
}

// Adds what stands behind the data, unless the data alone are taken.
fn push_followers(
    beside: &Beside<'_>,
    select: &Select,
    objects: &mut Vec<Obj>,
) -> Result<(), AllocError>
    ensures { OnOk result (objects.new.items ≡ objects.old.items ++ unless select.now.data_only (followers beside.now select.now)) }
{
    if select.data_only {
        return Ok(());
    }
    let tables = beside.book().tables();
    push_chosen::<Constraints>(beside, select, tables.pg_constraint.as_slice(), objects)?;
    push_chosen::<Indexes>(beside, select, tables.pg_index.as_slice(), objects)?;
    Ok(())
}

// A boundary, which has no names.
fn boundary(id: ObjId, kind: ObjKind) -> Obj
    ensures { result ≡ object id kind None None }
{
    Obj {
        id,
        kind,
        schema: None,
        name: None,
        attnum: 0,
    }
}

/// The chosen objects.
#[tactic(auto, unfolding(obj_graph::specs::Objects::objects_of))]
pub(crate) fn objects_of(
    alloc: Global,
    beside: &Beside<'_>,
    select: &Select,
) -> Result<Vec<Obj>, AllocError>
    ensures { IfOk result (λ os. os.items ≡ objects_of beside.now select.now) }
{
    let mut objects = Vec::new(alloc);
    push_holders(beside, select, &mut objects)?;
    objects.push(boundary(pre_data(), ObjKind::PreData))?;
    push_data(beside, select, &mut objects)?;
    objects.push(boundary(post_data(), ObjKind::PostData))?;
    push_followers(beside, select, &mut objects)?;
    Ok(objects)
}
