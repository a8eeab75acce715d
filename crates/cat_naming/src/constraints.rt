//! What the rows of pg_constraint and pg_index give.
ghost use Rattle.std.specs.Prelude.{◌≡◌, [], ◌∷◌, ◌++◌, option_map, IfOk, OnOk};
ghost use Rattle.std.specs.List.{flat_map};
ghost use Rattle.std.specs.Option.{option_and_then};
ghost use Rattle.cat_model.specs.KeyEffects.{key_value, foreign_value};
ghost use Rattle.cat_model.specs.RelationEffects.{check_value};
ghost use Rattle.constraint_table.specs.Said.{statement_said};
ghost use Rattle.cat_naming.specs.Constraints.{constraint_value, constraint_entries, index_entry, index_entries};

use cat_lookups::Lookups;
use cat_model::{Constraint, ConstraintKind, Index, Items, Key, QName, Stmt, Value};
use cat_rows::{ConstraintRow, IndexRow};
use constraint_table::{let_go_statements, only_statement, statement_text, statements_of};
use copy_text::{Name, Text};
use eng_map::{Entries, push_entry};
use row_texts::{IndexText, index_said};
use std::alloc::{AllocError, Global};

// The same names once more.
fn same_names(alloc: Global, names: &Items<Name>) -> Result<Items<Name>, AllocError>
    ensures { IfOk result (λ same. same ≡ names.now) }
{
    Ok(Items::new(names.as_slice().to_vec(alloc)?))
}

// A primary key or a unique constraint.
fn key_value(
    alloc: Global,
    kind: ConstraintKind,
    columns: &Items<Name>,
    rest: &Text,
) -> Result<Value, AllocError>
    ensures { IfOk result (λ value. value ≡ key_value kind columns.now rest.now) }
{
    let columns = same_names(alloc, columns)?;
    let text = rest.clone()?;
    Ok(Value::Constraint(Constraint {
        kind,
        columns,
        parent: None,
        text,
    }))
}

// A foreign key.
fn foreign_value(
    alloc: Global,
    columns: &Items<Name>,
    parent: &QName,
    parent_columns: &Items<Name>,
    rest: &Text,
) -> Result<Value, AllocError>
    ensures { IfOk result (λ value. value ≡ foreign_value columns.now parent.now parent_columns.now rest.now) }
{
    let columns = same_names(alloc, columns)?;
    let parent = parent.clone()?;
    let parent_columns = same_names(alloc, parent_columns)?;
    let text = rest.clone()?;
    Ok(Value::Constraint(Constraint {
        kind: ConstraintKind::Foreign,
        columns,
        parent: Some((parent, parent_columns)),
        text,
    }))
}

// A check.
fn check_value(alloc: Global, text: &Text) -> Result<Value, AllocError>
    ensures { IfOk result (λ value. value ≡ check_value text.now) }
{
    let text = text.clone()?;
    Ok(Value::Constraint(Constraint {
        kind: ConstraintKind::Check,
        columns: Items::new(Vec::new(alloc)),
        parent: None,
        text,
    }))
}

// What a statement that adds a constraint sets.
fn constraint_value(alloc: Global, stmt: &Stmt) -> Result<Option<Value>, AllocError>
    ensures { IfOk result (λ value. value ≡ constraint_value stmt.now) }
{
    match stmt {
        Stmt::AddPrimary { columns, rest, .. } => {
            let value = key_value(alloc, ConstraintKind::Primary, columns, rest)?;
            Ok(Some(value))
        }
        Stmt::AddUnique { columns, rest, .. } => {
            let value = key_value(alloc, ConstraintKind::Unique, columns, rest)?;
            Ok(Some(value))
        }
        Stmt::AddForeign {
            columns,
            parent,
            parent_columns,
            rest,
            ..
        } => {
            let value = foreign_value(alloc, columns, parent, parent_columns, rest)?;
            Ok(Some(value))
        }
        Stmt::AddCheck { text, .. } => {
            let value = check_value(alloc, text)?;
            Ok(Some(value))
        }
        _ => Ok(None),
    }
}

// The same of a statement that there may be.
fn value_in(alloc: Global, stmt: Option<&Stmt>) -> Result<Option<Value>, AllocError>
    ensures { IfOk result (λ value. value ≡ option_and_then constraint_value (option_map (λ s. s.now) stmt.entry)) }
{
    match stmt {
        Some(stmt) => constraint_value(alloc, stmt),
        None => Ok(None),
    }
}

// What the text of a constraint says.
fn value_said(alloc: Global, text: &Text) -> Result<Option<Value>, AllocError>
    ensures { IfOk result (λ value. value ≡ option_and_then constraint_value (statement_said text.now)) }
{
    let text = statement_text(alloc, text.as_bytes())?;
    let statements = statements_of(alloc, &text)?;
    let value = value_in(alloc, only_statement(text.len(), &statements));
    let_go_statements(statements);
    value
}

// Adds a constraint of a table.
fn push_constraint(
    alloc: Global,
    entries: &mut Entries,
    lookups: &Lookups<'_>,
    row: &ConstraintRow,
) -> Result<(), AllocError>
    ensures { OnOk result (entries.new.items ≡ entries.old.items ++ constraint_entries lookups.now row.now) }
{
    let Some(table) = lookups.book().class_path_of(row.conrelid)? else {
        return Ok(());
    };
    let name = row.conname.clone()?;
    match value_said(alloc, &row.condef)? {
        Some(value) => push_entry(entries, Key::Con(table, name), value),
        None => Ok(()),
    }
}

/// Adds what the constraints of tables give.
pub(crate) fn add_constraints(
    alloc: Global,
    entries: &mut Entries,
    lookups: &Lookups<'_>,
    rows: &[ConstraintRow],
) -> Result<(), AllocError>
    ensures { OnOk result (entries.new.items ≡ entries.old.items ++ flat_map (constraint_entries lookups.now) rows.now) }
{
    for row in rows {
        push_constraint(alloc, entries, lookups, row)?;
    }
    Ok(())
}

// Adds what the text of an index gives.
fn push_said(entries: &mut Entries, said: IndexText) -> Result<(), AllocError>
    ensures { OnOk result (entries.new.items ≡ entries.old.items ++ index_entry said ∷ []) }
{
    let IndexText {
        unique,
        name,
        table,
        method,
        rest,
    } = said;
    let index = Index {
        method,
        unique,
        text: rest,
    };
    push_entry(entries, Key::Index(table, name), Value::Index(index))
}

// Adds an index that isn't a constraint's, as its text says it.
fn push_index(alloc: Global, entries: &mut Entries, row: &IndexRow) -> Result<(), AllocError>
    ensures { OnOk result (entries.new.items ≡ entries.old.items ++ index_entries row.now) }
{
    match index_said(alloc, row.indexdef.as_bytes())? {
        Some(said) => push_said(entries, said),
        None => Ok(()),
    }
}

/// Adds what the indexes give.
pub(crate) fn add_indexes(
    alloc: Global,
    entries: &mut Entries,
    rows: &[IndexRow],
) -> Result<(), AllocError>
    ensures { OnOk result (entries.new.items ≡ entries.old.items ++ flat_map index_entries rows.now) }
{
    for row in rows {
        push_index(alloc, entries, row)?;
    }
    Ok(())
}
