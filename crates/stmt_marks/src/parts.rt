//! What parts of statements read and write.
ghost use Rattle.std.specs.Prelude.{◌≡◌, ◌++◌, [], ◌∷◌, List, IfOk, OnOk, map};
ghost use Rattle.std.specs.List.{flat_map};
ghost use Rattle.cat_model.specs.declared.key.Key.TheVariants as key;
ghost use Rattle.cat_model.specs.declared.class.Mark.TheVariants as mark;
ghost use Rattle.cat_model.specs.declared.object.QName.{QName};
ghost use Rattle.cat_model.specs.References.{is_system};
ghost use Rattle.cat_model.specs.TypeEffects.{but, default_references, check_references};
ghost use Rattle.cat_model.specs.Footprints.{marks, type_reads, column_reads, grantee_reads, grantor_reads, parent_reads, row_reads, default_writes};

use crate::lists::{push_marks, without_relation};
use crate::single::{constraint, default, relation, role, rows, user_type};
use cat_model::{CheckDef, ColumnDef, Grantee, Items, Key, Mark, QName, TypeName};
use copy_text::{Name, Text};
use std::alloc::{AllocError, Global};
use stmt_refs::expr_refs;

fn is_system(schema: &Name) -> bool
    ensures { result ≡ is_system schema.now }
{
    let schema = schema.as_bytes();
    schema == b"pg_catalog".as_slice() || schema == b"information_schema".as_slice()
}

pub(crate) fn push_type(marks: &mut Vec<Mark>, name: &TypeName) -> Result<(), AllocError>
    ensures { OnOk result (marks.new.items ≡ marks.old.items ++ type_reads name.now) }
{
    if let TypeName::Path(q) = name
        && !is_system(&q.schema)
    {
        marks.push(user_type(q)?)?;
    }
    Ok(())
}

/// What a default refers to.
pub(crate) fn default_refs(alloc: Global, text: &Option<Text>) -> Result<Vec<Key>, AllocError>
    ensures { IfOk result (λ v. v.items ≡ default_references text.now) }
{
    match text {
        Some(text) => expr_refs(alloc, text.as_bytes()),
        None => Ok(Vec::new(alloc)),
    }
}

/// What checks refer to.
pub(crate) fn check_refs(alloc: Global, checks: &[CheckDef]) -> Result<Vec<Key>, AllocError>
    ensures { IfOk result (λ v. v.items ≡ check_references checks.now) }
{
    let mut keys = Vec::new(alloc);
    for check in checks {
        let mut more = expr_refs(alloc, check.text.as_bytes())?;
        keys.append(&mut more)?;
    }
    Ok(keys)
}

fn push_column(
    alloc: Global,
    marks: &mut Vec<Mark>,
    table: &QName,
    column: &ColumnDef,
) -> Result<(), AllocError>
    ensures { OnOk result (marks.new.items ≡ marks.old.items ++ column_reads table.now column.now) }
{
    push_type(marks, &column.type_name)?;
    let keys = default_refs(alloc, &column.default)?;
    let keys = without_relation(alloc, table, keys)?;
    push_marks(alloc, marks, keys)
}

pub(crate) fn push_columns(
    alloc: Global,
    marks: &mut Vec<Mark>,
    table: &QName,
    columns: &[ColumnDef],
) -> Result<(), AllocError>
    ensures { OnOk result (marks.new.items ≡ marks.old.items ++ flat_map (column_reads table.now) columns.now) }
{
    for column in columns {
        push_column(alloc, marks, table, column)?;
    }
    Ok(())
}

pub(crate) fn push_grantee(marks: &mut Vec<Mark>, who: &Grantee) -> Result<(), AllocError>
    ensures { OnOk result (marks.new.items ≡ marks.old.items ++ grantee_reads who.now) }
{
    if let Grantee::Role(name) = who {
        marks.push(role(name)?)?;
    }
    Ok(())
}

pub(crate) fn push_grantor(marks: &mut Vec<Mark>, who: &Option<Name>) -> Result<(), AllocError>
    ensures { OnOk result (marks.new.items ≡ marks.old.items ++ grantor_reads who.now) }
{
    if let Some(name) = who {
        marks.push(role(name)?)?;
    }
    Ok(())
}

/// The relation and the rows of each parent of the table.
pub(crate) fn push_parents(
    marks: &mut Vec<Mark>,
    table: &QName,
    pairs: &[(QName, QName)],
) -> Result<(), AllocError>
    ensures { OnOk result (marks.new.items ≡ marks.old.items ++ parent_reads table.now pairs.now) }
{
    for pair in pairs {
        push_parent(marks, table, pair)?;
    }
    Ok(())
}

fn push_parent(
    marks: &mut Vec<Mark>,
    table: &QName,
    pair: &(QName, QName),
) -> Result<(), AllocError>
    ensures { OnOk result (marks.new.items ≡ marks.old.items ++ parent_reads table.now (pair.now ∷ [])) }
{
    if table == &pair.0 {
        marks.push(relation(&pair.1)?)?;
        marks.push(rows(&pair.1)?)?;
    }
    Ok(())
}

/// The rows of a table, where an index of it is unique on plain columns.
pub(crate) fn push_rows(
    marks: &mut Vec<Mark>,
    table: &QName,
    columns: &Option<Items<Name>>,
) -> Result<(), AllocError>
    ensures { OnOk result (marks.new.items ≡ marks.old.items ++ row_reads table.now columns.now) }
{
    if columns.is_some() {
        marks.push(rows(table)?)?;
    }
    Ok(())
}

fn push_default(marks: &mut Vec<Mark>, table: &QName, column: &ColumnDef) -> Result<(), AllocError>
    ensures { OnOk result (marks.new.items ≡ marks.old.items ++ default_writes table.now column.now) }
{
    if column.default.is_some() {
        marks.push(default(table, &column.name)?)?;
    }
    Ok(())
}

pub(crate) fn push_defaults(
    marks: &mut Vec<Mark>,
    table: &QName,
    columns: &[ColumnDef],
) -> Result<(), AllocError>
    ensures { OnOk result (marks.new.items ≡ marks.old.items ++ flat_map (default_writes table.now) columns.now) }
{
    for column in columns {
        push_default(marks, table, column)?;
    }
    Ok(())
}

pub(crate) fn push_checks(
    marks: &mut Vec<Mark>,
    table: &QName,
    checks: &[CheckDef],
) -> Result<(), AllocError>
    ensures { OnOk result (marks.new.items ≡ marks.old.items ++ map (λ c. mark.Key (key.Con table.now c.name)) checks.now) }
{
    for check in checks {
        marks.push(constraint(table, &check.name)?)?;
    }
    Ok(())
}
