//! CREATE TABLE.
ghost use Rattle.std.specs.Prelude.{◌≡◌, [], ◌∷◌, ◌++◌, Ok, Some, map, List, IfOk, OnOk};
ghost use Rattle.std.specs.List.{flat_map};
ghost use Rattle.cat_model.specs.declared.cause.Cause.TheVariants as cause;
ghost use Rattle.cat_model.specs.declared.key.Key.TheVariants as key;
ghost use Rattle.cat_model.specs.declared.object.Object.TheVariants as object;
ghost use Rattle.cat_model.specs.declared.value.Column.{Column as ColumnValue};
ghost use Rattle.cat_model.specs.declared.value.Value.TheVariants as value;
ghost use Rattle.cat_model.specs.Conditions.{check};
ghost use Rattle.cat_model.specs.Grants.{owner_only, table_rights};
ghost use Rattle.cat_model.specs.ObjectEffects.{made};
ghost use Rattle.cat_model.specs.RelationEffects.{needs_columns, default_set, check_value, fits_table, create_table};
ghost use Rattle.cat_model.specs.Tables.{distinct};
ghost use Rattle.cat_model.specs.Trees.{Tree, Seen, outcome, seen};
ghost use Rattle.eng_steps.specs.Outcomes.{Steps};
ghost use Rattle.relation_effects.specs.NewTables.{column_with, default_then, column_then, table_changes, table_made, table_here};

use crate::relations::with_made_relation;
use cat_model::{
    Cause, CheckDef, Column, ColumnDef, Constraint, ConstraintKind, Items, Key, QName, Resolved,
    TableRows, Value,
};
use copy_text::{Name, Text};
use distinct_names::are_distinct;
use eng_map::{Change, NamedMap};
use eng_steps::{ApplyError, check_refs, default_refs, free, needs, needs_but_relation, one, set};
use grant_changes::TABLE_RIGHTS;
use std::alloc::{AllocError, Global};
use type_effects::{check_names, needs_type};

/// The most columns that a table can have.
const MOST_COLUMNS: usize = 1600;

// ---- conditions

// The names of columns.
fn column_names(alloc: Global, columns: &[ColumnDef]) -> Result<Vec<Name>, AllocError>
    ensures { IfOk result (λ names. names.items ≡ map (λ c. c.name) columns.now) }
{
    let mut names = Vec::new(alloc);
    for column in columns {
        names.push(column.name.clone()?)?;
    }
    Ok(names)
}

fn are_distinct_columns(alloc: Global, columns: &[ColumnDef]) -> Result<bool, AllocError>
    ensures { IfOk result (λ are. are ≡ distinct (map (λ c. c.name) columns.now)) }
{
    let names = column_names(alloc, columns)?;
    are_distinct(alloc, &names)
}

fn are_distinct_checks(alloc: Global, checks: &[CheckDef]) -> Result<bool, AllocError>
    ensures { IfOk result (λ are. are ≡ distinct (map (λ c. c.name) checks.now)) }
{
    let names = check_names(alloc, checks)?;
    are_distinct(alloc, &names)
}

// Whether a table can have these columns and checks: not too many columns, and no name twice.
fn fits_table(alloc: Global, columns: &[ColumnDef], checks: &[CheckDef]) -> Result<bool, AllocError>
    ensures { IfOk result (λ fits. fits ≡ fits_table columns.now checks.now) }
{
    Ok(
        columns.len() <= MOST_COLUMNS
            && (are_distinct_columns(alloc, columns)? && are_distinct_checks(alloc, checks)?),
    )
}

// A table can have these columns and checks, else `WrongColumns`.
fn needs_fit(alloc: Global, columns: &[ColumnDef], checks: &[CheckDef]) -> Result<(), ApplyError>
    ensures { (next : Tree) → (s : Seen) → Steps result (outcome (check (fits_table columns.now checks.now) cause.WrongColumns next) s) (λ _. outcome next s) }
{
    if !fits_table(alloc, columns, checks)? {
        return Err(ApplyError::Refused(Cause::WrongColumns));
    }
    Ok(())
}

// ---- columns

fn column_with(new: &ColumnDef, resolved: &Resolved) -> Result<Column, AllocError>
    ensures { IfOk result (λ column. column ≡ column_with new.now resolved.now) }
{
    let name = new.name.clone()?;
    let type_name = new.type_name.clone()?;
    Ok(Column {
        name,
        type_name,
        resolved: resolved.clone()?,
        not_null: new.not_null,
    })
}

// What a column's default refers to is there, but for the table itself, and the column has this type then.
fn column_of(
    alloc: Global,
    named: &NamedMap,
    q: &QName,
    new: &ColumnDef,
    resolved: &Resolved,
) -> Result<Column, ApplyError>
    ensures { (next : ColumnValue → Tree) → Steps result (outcome (default_then q.now new.now next resolved.now) (seen named.now)) (λ column. outcome (next column) (seen named.now)) }
{
    needs_but_relation(alloc, named, q, default_refs(alloc, &new.default)?)?;
    Ok(column_with(new, resolved)?)
}

// A column with its type resolved: its type, and what its default refers to, are there.
fn needs_column(
    alloc: Global,
    named: &NamedMap,
    q: &QName,
    new: &ColumnDef,
) -> Result<Column, ApplyError>
    ensures { (next : ColumnValue → Tree) → Steps result (outcome (column_then q.now new.now next) (seen named.now)) (λ column. outcome (next column) (seen named.now)) }
{
    let resolved = needs_type(named, &new.type_name)?;
    column_of(alloc, named, q, new, &resolved)
}

// All columns with their types resolved.
fn needs_columns(
    alloc: Global,
    named: &NamedMap,
    q: &QName,
    columns: &[ColumnDef],
) -> Result<Vec<Column>, ApplyError>
    ensures { (next : List ColumnValue → Tree) → Steps result (outcome (needs_columns q.now columns.now next) (seen named.now)) (λ resolved. outcome (next resolved.items) (seen named.now)) }
{
    let mut resolved = Vec::new(alloc);
    for column in columns {
        let column = needs_column(alloc, named, q, column)?;
        resolved.push(column)?;
    }
    Ok(resolved)
}

// ---- changes

// The table of these columns, without rows.
fn empty_table(
    alloc: Global,
    boot: &Name,
    q: &QName,
    columns: Vec<Column>,
) -> Result<Vec<Change>, AllocError>
    ensures { IfOk result (λ changes. changes.items ≡ (key.Rel q.now, Some (value.Table columns.items)) ∷ (key.Rows q.now, Some (value.Rows [])) ∷ made (object.Relation q.now) boot.now (owner_only table_rights)) }
{
    let columns = Items::new(columns);
    let mut changes = one(alloc, Key::Rel(q.clone()?), Value::Table(columns))?;
    set(
        &mut changes,
        Key::Rows(q.clone()?),
        Value::Rows(TableRows::new(alloc)),
    )?;
    with_made_relation(alloc, changes, boot, q, TABLE_RIGHTS)
}

// A column gets its default, where it has one.
fn add_default(changes: &mut Vec<Change>, q: &QName, column: &ColumnDef) -> Result<(), AllocError>
    ensures { OnOk result (changes.new.items ≡ changes.old.items ++ default_set q.now column.now.name column.now.default) }
{
    match &column.default {
        Some(text) => {
            let q = q.clone()?;
            let name = column.name.clone()?;
            let text = text.clone()?;
            set(changes, Key::Default(q, name), Value::DefaultText(text))
        }
        None => Ok(()),
    }
}

fn add_defaults(
    changes: &mut Vec<Change>,
    q: &QName,
    columns: &[ColumnDef],
) -> Result<(), AllocError>
    ensures { OnOk result (changes.new.items ≡ changes.old.items ++ flat_map (λ c. default_set q.now c.name c.default) columns.now) }
{
    for column in columns {
        add_default(changes, q, column)?;
    }
    Ok(())
}

// A check as a constraint.
fn check_value(alloc: Global, text: &Text) -> Result<Constraint, AllocError>
    ensures { IfOk result (λ constraint. value.Constraint constraint ≡ check_value text.now) }
{
    let text = text.clone()?;
    Ok(Constraint {
        kind: ConstraintKind::Check,
        columns: Items::new(Vec::new(alloc)),
        parent: None,
        text,
    })
}

fn add_check(
    alloc: Global,
    changes: &mut Vec<Change>,
    q: &QName,
    check: &CheckDef,
) -> Result<(), AllocError>
    ensures { OnOk result (changes.new.items ≡ changes.old.items ++ (key.Con q.now check.now.name, Some (check_value check.now.text)) ∷ []) }
{
    let q = q.clone()?;
    let name = check.name.clone()?;
    let constraint = check_value(alloc, &check.text)?;
    set(changes, Key::Con(q, name), Value::Constraint(constraint))
}

fn add_checks(
    alloc: Global,
    changes: &mut Vec<Change>,
    q: &QName,
    checks: &[CheckDef],
) -> Result<(), AllocError>
    ensures { OnOk result (changes.new.items ≡ changes.old.items ++ map (λ c. (key.Con q.now c.name, Some (check_value c.text))) checks.now) }
{
    for check in checks {
        add_check(alloc, changes, q, check)?;
    }
    Ok(())
}

// The table of these columns, with the defaults of the new ones and the checks.
fn table_changes(
    alloc: Global,
    boot: &Name,
    q: &QName,
    columns: &[ColumnDef],
    checks: &[CheckDef],
    resolved: Vec<Column>,
) -> Result<Vec<Change>, AllocError>
    ensures { IfOk result (λ changes. changes.items ≡ table_changes boot.now q.now columns.now checks.now resolved.items) }
{
    let mut changes = empty_table(alloc, boot, q, resolved)?;
    add_defaults(&mut changes, q, columns)?;
    add_checks(alloc, &mut changes, q, checks)?;
    Ok(changes)
}

// ---- the statement

// What the checks refer to is there, but for the table itself, and the table is made.
fn make_table(
    alloc: Global,
    named: &NamedMap,
    boot: &Name,
    q: &QName,
    columns: &[ColumnDef],
    checks: &[CheckDef],
    resolved: Vec<Column>,
) -> Result<Vec<Change>, ApplyError>
    ensures { Steps result (outcome (table_made boot.now q.now columns.now checks.now resolved.items) (seen named.now)) (λ changes. Ok changes.items) }
{
    needs_but_relation(alloc, named, q, check_refs(alloc, checks)?)?;
    Ok(table_changes(alloc, boot, q, columns, checks, resolved)?)
}

// The types of the columns, and what their defaults refer to, are there, and the table is made.
fn table_of_columns(
    alloc: Global,
    named: &NamedMap,
    boot: &Name,
    q: &QName,
    columns: &[ColumnDef],
    checks: &[CheckDef],
) -> Result<Vec<Change>, ApplyError>
    ensures { Steps result (outcome (needs_columns q.now columns.now (table_made boot.now q.now columns.now checks.now)) (seen named.now)) (λ changes. Ok changes.items) }
{
    let resolved = needs_columns(alloc, named, q, columns)?;
    make_table(alloc, named, boot, q, columns, checks, resolved)
}

// No relation has the path, it can have these columns and checks, and the table is made.
fn table_here(
    alloc: Global,
    named: &NamedMap,
    boot: &Name,
    q: &QName,
    columns: &[ColumnDef],
    checks: &[CheckDef],
) -> Result<Vec<Change>, ApplyError>
    ensures { Steps result (outcome (table_here boot.now q.now columns.now checks.now) (seen named.now)) (λ changes. Ok changes.items) }
{
    free(named, Key::Rel(q.clone()?))?;
    needs_fit(alloc, columns, checks)?;
    table_of_columns(alloc, named, boot, q, columns, checks)
}

/// CREATE TABLE.
pub fn create_table(
    alloc: Global,
    named: &NamedMap,
    boot: &Name,
    q: &QName,
    columns: &[ColumnDef],
    checks: &[CheckDef],
) -> Result<Vec<Change>, ApplyError>
    ensures { Steps result (outcome (create_table boot.now q.now columns.now checks.now) (seen named.now)) (λ changes. Ok changes.items) }
{
    needs(named, Key::Schema(q.schema.clone()?))?;
    table_here(alloc, named, boot, q, columns, checks)
}
