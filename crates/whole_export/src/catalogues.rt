//! The fifteen tables together.
ghost use Rattle.std.specs.Prelude.{◌≡◌, ◌++◌, [], map, IfOk, OnOk};
ghost use Rattle.std.specs.Map.Iter.{deref_pair};
ghost use Rattle.cat_model.specs.declared.key.Key.{Key as TheKey};
ghost use Rattle.cat_model.specs.declared.value.Value.{Value as TheValue};
ghost use Rattle.object_loops.specs.Oids.{with_numbers};
ghost use Rattle.whole_export.specs.Made.{other_columns, catalogue_with, joined_with, AreMade};

use crate::cluster::{Cluster, cluster_tables};
use crate::objects::{Objects, object_tables};
use crate::parts::{Parts, part_tables};
use cat_book::Book;
use cat_model::{Key, Value};
use cat_rows::{AttributeRow, Catalogue, ClassRow, DependRow, EnumRow, Rows, TypeRow};
use column_numbers::Numbers;
use copy_text::Name;
use eng_map::NamedMap;
use kept_rows::{keep_columns, kept_depends};
use object_ids::Ids;
use std::alloc::{AllocError, Global};

// These tables, without columns.
fn assembled(
    alloc: Global,
    cluster: Cluster,
    types: Rows<TypeRow>,
    labels: Rows<EnumRow>,
    relations: Rows<ClassRow>,
    parts: Parts,
    depends: Rows<DependRow>,
) -> Catalogue
    ensures { result ≡ catalogue_with cluster types labels relations parts [] depends }
{
    let Cluster {
        roles,
        members,
        databases,
        schemas,
    } = cluster;
    let Parts {
        defaults,
        constraints,
        indexes,
        sequences,
        bodies,
        comments,
    } = parts;
    Catalogue {
        pg_authid: roles,
        pg_auth_members: members,
        pg_database: databases,
        pg_namespace: schemas,
        pg_type: types,
        pg_enum: labels,
        pg_class: relations,
        pg_attribute: Rows::new(alloc),
        pg_attrdef: defaults,
        pg_constraint: constraints,
        pg_index: indexes,
        pg_sequence: sequences,
        pg_rewrite: bodies,
        pg_description: comments,
        pg_depend: depends,
    }
}

// Adds those of the opening's columns that are of no table of the catalogue.
fn keep_others(
    alloc: Global,
    cat: &Catalogue,
    opening: &[AttributeRow],
    columns: &mut Rows<AttributeRow>,
) -> Result<(), AllocError>
    ensures { OnOk result (columns.new ≡ columns.old ++ other_columns cat.now.pg_class opening.now) }
{
    let book = Book::of(alloc, cat)?;
    keep_columns(&book, opening, columns)
}

// The catalogue with these columns, and those of the opening that are of none of its tables.
fn with_columns(
    alloc: Global,
    mut cat: Catalogue,
    mut columns: Rows<AttributeRow>,
    opening: &[AttributeRow],
) -> Result<Catalogue, AllocError>
    ensures { IfOk result (λ made. made ≡ record cat { pg_attribute = columns ++ other_columns cat.pg_class opening.now }) }
{
    keep_others(alloc, &cat, opening, &mut columns)?;
    cat.pg_attribute = columns;
    Ok(cat)
}

// The tables of these parts.
fn joined(
    alloc: Global,
    cluster: Cluster,
    objects: Objects,
    parts: Parts,
    opening: &Catalogue,
) -> Result<Catalogue, AllocError>
    ensures { IfOk result (λ made. made ≡ joined_with cluster objects parts opening.now) }
{
    let Objects {
        types,
        labels,
        relations,
        columns,
    } = objects;
    let others = opening.pg_attribute.as_slice();
    let depends = kept_depends(alloc, opening.pg_depend.as_slice())?;
    let cat = assembled(alloc, cluster, types, labels, relations, parts, depends);
    Ok(with_columns(alloc, cat, columns, others)?)
}

/// The fifteen tables of these entries, with what they keep of the opening.
pub(crate) fn catalogue_of(
    alloc: Global,
    named: &NamedMap,
    ids: &Ids,
    numbers: &Numbers,
    current: &Name,
    entries: &[(&Key, &Value)],
    opening: &Catalogue,
) -> Result<Catalogue, AllocError>
    ensures { IfOk result (AreMade named.now (with_numbers ids.now numbers.now) current.now opening.now (map (deref_pair {K = TheKey} {X = TheValue}) entries.now)) }
{
    let cluster = cluster_tables(alloc, named, ids, current, entries)?;
    let objects = object_tables(alloc, named, ids, numbers, entries)?;
    let parts = part_tables(alloc, named, ids, numbers, entries)?;
    Ok(joined(alloc, cluster, objects, parts, opening)?)
}
