//! The oids that rows have or lead to, table by table.
ghost use Rattle.std.specs.Prelude.{◌≡◌, map, IfOk};
ghost use Rattle.std.specs.List.{filter};
ghost use Rattle.cat_names.specs.Kinds.{class_oids};
ghost use Rattle.cat_names.specs.Lookups.{schema_oids};
ghost use Rattle.cat_book.specs.Leads.{type_oids, label_types, column_relations, constraint_oids, is_key, is_primary, key_indexes, primary_tables, view_oids, sequence_oids, index_oids};

use cat_names::{OidCounts, OidIndex};
use cat_rows::{Catalogue, ClassRow, ConstraintRow, NamespaceRow, TypeRow};
use std::alloc::{AllocError, Global};

/// The oids of the schemas.
pub(crate) fn schemas(alloc: Global, rows: &[NamespaceRow]) -> Result<OidIndex, AllocError>
    ensures { IfOk result (λ oids. oids ≡ schema_oids rows.now) }
{
    let oids: Vec<u32> = rows.iter().map(|s| s.oid).collect(alloc)?;
    OidIndex::of(alloc, &oids)
}

/// The oids of the types.
pub(crate) fn types(alloc: Global, rows: &[TypeRow]) -> Result<OidIndex, AllocError>
    ensures { IfOk result (λ oids. oids ≡ type_oids rows.now) }
{
    let oids: Vec<u32> = rows.iter().map(|t| t.oid).collect(alloc)?;
    OidIndex::of(alloc, &oids)
}

/// The oids of the relations.
pub(crate) fn classes(alloc: Global, rows: &[ClassRow]) -> Result<OidIndex, AllocError>
    ensures { IfOk result (λ oids. oids ≡ class_oids rows.now) }
{
    let oids: Vec<u32> = rows.iter().map(|r| r.oid).collect(alloc)?;
    OidIndex::of(alloc, &oids)
}

/// The oids of the constraints.
pub(crate) fn constraints(alloc: Global, cat: &Catalogue) -> Result<OidIndex, AllocError>
    ensures { IfOk result (λ oids. oids ≡ constraint_oids cat.now) }
{
    let oids: Vec<u32> = cat
        .pg_constraint
        .as_slice()
        .iter()
        .map(|c| c.oid)
        .collect(alloc)?;
    OidIndex::of(alloc, &oids)
}

/// The views that have a row of pg_rewrite.
pub(crate) fn views(alloc: Global, cat: &Catalogue) -> Result<OidIndex, AllocError>
    ensures { IfOk result (λ oids. oids ≡ view_oids cat.now) }
{
    let oids: Vec<u32> = cat
        .pg_rewrite
        .as_slice()
        .iter()
        .map(|r| r.ev_class)
        .collect(alloc)?;
    OidIndex::of(alloc, &oids)
}

/// The sequences that have a row of pg_sequence.
pub(crate) fn sequences(alloc: Global, cat: &Catalogue) -> Result<OidIndex, AllocError>
    ensures { IfOk result (λ oids. oids ≡ sequence_oids cat.now) }
{
    let oids: Vec<u32> = cat
        .pg_sequence
        .as_slice()
        .iter()
        .map(|s| s.seqrelid)
        .collect(alloc)?;
    OidIndex::of(alloc, &oids)
}

/// The indexes that have a row of pg_index.
pub(crate) fn indexes(alloc: Global, cat: &Catalogue) -> Result<OidIndex, AllocError>
    ensures { IfOk result (λ oids. oids ≡ index_oids cat.now) }
{
    let oids: Vec<u32> = cat
        .pg_index
        .as_slice()
        .iter()
        .map(|i| i.indexrelid)
        .collect(alloc)?;
    OidIndex::of(alloc, &oids)
}

/// The types of the labels.
pub(crate) fn labels(alloc: Global, cat: &Catalogue) -> Result<OidCounts, AllocError>
    ensures { IfOk result (λ oids. oids ≡ label_types cat.now) }
{
    let oids: Vec<u32> = cat
        .pg_enum
        .as_slice()
        .iter()
        .map(|e| e.enumtypid)
        .collect(alloc)?;
    OidCounts::of(alloc, &oids)
}

/// The relations of the columns.
pub(crate) fn columns(alloc: Global, cat: &Catalogue) -> Result<OidCounts, AllocError>
    ensures { IfOk result (λ oids. oids ≡ column_relations cat.now) }
{
    let oids: Vec<u32> = cat
        .pg_attribute
        .as_slice()
        .iter()
        .map(|a| a.attrelid)
        .collect(alloc)?;
    OidCounts::of(alloc, &oids)
}

/// Whether a constraint is a primary key or a unique constraint.
pub fn is_key(row: &ConstraintRow) -> bool
    ensures { result ≡ is_key row.now }
{
    matches!(row.contype.byte(), b'p' | b'u')
}

/// Whether a constraint is a primary key.
pub fn is_primary(row: &ConstraintRow) -> bool
    ensures { result ≡ is_primary row.now }
{
    row.contype.byte() == b'p'
}

/// The primary keys and unique constraints among these.
pub fn keys(alloc: Global, rows: &[ConstraintRow]) -> Result<Vec<&ConstraintRow>, AllocError>
    ensures { IfOk result (λ v. map (λ c. c.now) v.items ≡ filter is_key rows.now) }
{
    rows.iter().filter(|c| is_key(*c)).collect(alloc)
}

fn primary_keys(alloc: Global, rows: &[ConstraintRow]) -> Result<Vec<&ConstraintRow>, AllocError>
    ensures { IfOk result (λ v. map (λ c. c.now) v.items ≡ filter is_primary rows.now) }
{
    rows.iter().filter(|c| is_primary(*c)).collect(alloc)
}

fn indexes_of(alloc: Global, rows: &[&ConstraintRow]) -> Result<OidCounts, AllocError>
    ensures { IfOk result (λ oids. oids ≡ map (λ c. c.now.conindid) rows.now) }
{
    let oids: Vec<u32> = rows.iter().map(|c| c.conindid).collect(alloc)?;
    OidCounts::of(alloc, &oids)
}

fn tables_of(alloc: Global, rows: &[&ConstraintRow]) -> Result<OidCounts, AllocError>
    ensures { IfOk result (λ oids. oids ≡ map (λ c. c.now.conrelid) rows.now) }
{
    let oids: Vec<u32> = rows.iter().map(|c| c.conrelid).collect(alloc)?;
    OidCounts::of(alloc, &oids)
}

/// The indexes of the keys.
pub(crate) fn key_indexes(alloc: Global, cat: &Catalogue) -> Result<OidCounts, AllocError>
    ensures { IfOk result (λ oids. oids ≡ key_indexes cat.now) }
{
    let keys = keys(alloc, cat.pg_constraint.as_slice())?;
    let oids = indexes_of(alloc, &keys)?;
    Ok(oids)
}

/// The tables of the primary keys.
pub(crate) fn primary_tables(alloc: Global, cat: &Catalogue) -> Result<OidCounts, AllocError>
    ensures { IfOk result (λ oids. oids ≡ primary_tables cat.now) }
{
    let keys = primary_keys(alloc, cat.pg_constraint.as_slice())?;
    let oids = tables_of(alloc, &keys)?;
    Ok(oids)
}
