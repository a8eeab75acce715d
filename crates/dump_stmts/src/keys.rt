//! Primary keys, unique constraints, foreign keys and indexes.
ghost use Rattle.std.specs.Prelude.{◌≡◌, Some, option_map, IfOk};
ghost use Rattle.std.specs.Option.{option_and_then};
ghost use Rattle.cat_model.specs.declared.stmt.Stmt.TheVariants as stmts;
ghost use Rattle.dump_stmts.specs.Paths.{written};
ghost use Rattle.dump_stmts.specs.Keys.{added_to, added, constraint_stmt, index_by, index_stmt};

use crate::texts::{empty_text, spelled};
use cat_model::{Items, QName, Stmt};
use cat_rows::ConstraintRow;
use constraint_table::{only_statement, statement_text, statements_of};
use copy_text::{Name, Text};
use dump_rows::DumpRows;
use graph_parts::Obj;
use row_texts::{IndexText, index_said};
use std::alloc::{AllocError, Global};

// The same names.
fn names_of(alloc: Global, names: &Items<Name>) -> Result<Items<Name>, AllocError>
    ensures { IfOk result (λ same. same ≡ names.now) }
{
    Ok(Items::new(names.as_slice().to_vec(alloc)?))
}

// ADD PRIMARY KEY.
fn primary(
    alloc: Global,
    q: QName,
    name: &Name,
    columns: &Items<Name>,
    rest: &Text,
) -> Result<Text, AllocError>
    ensures { IfOk result (λ text. text ≡ written (Some (stmts.AddPrimary q name.now columns.now rest.now))) }
{
    let name = name.clone()?;
    let columns = names_of(alloc, columns)?;
    let rest = rest.clone()?;
    spelled(
        alloc,
        Stmt::AddPrimary {
            q,
            name,
            columns,
            rest,
        },
    )
}

// ADD UNIQUE.
fn unique(
    alloc: Global,
    q: QName,
    name: &Name,
    columns: &Items<Name>,
    rest: &Text,
) -> Result<Text, AllocError>
    ensures { IfOk result (λ text. text ≡ written (Some (stmts.AddUnique q name.now columns.now rest.now))) }
{
    let name = name.clone()?;
    let columns = names_of(alloc, columns)?;
    let rest = rest.clone()?;
    spelled(
        alloc,
        Stmt::AddUnique {
            q,
            name,
            columns,
            rest,
        },
    )
}

// What a foreign key names beside its own columns.
#[derive(Drop)]
struct Parent<'s> {
    q: &'s QName,
    columns: &'s Items<Name>,
}

// ADD FOREIGN KEY.
fn foreign(
    alloc: Global,
    q: QName,
    name: &Name,
    columns: &Items<Name>,
    parent: Parent<'_>,
    rest: &Text,
) -> Result<Text, AllocError>
    ensures { IfOk result (λ text. text ≡ written (Some (stmts.AddForeign q name.now columns.now parent.entry.q.now parent.entry.columns.now rest.now))) }
{
    let name = name.clone()?;
    let columns = names_of(alloc, columns)?;
    let parent_columns = names_of(alloc, parent.columns)?;
    let parent = parent.q.clone()?;
    let rest = rest.clone()?;
    spelled(
        alloc,
        Stmt::AddForeign {
            q,
            name,
            columns,
            parent,
            parent_columns,
            rest,
        },
    )
}

// What a statement adds, as a constraint of this name to this table.
fn added_to(alloc: Global, q: QName, name: &Name, stmt: &Stmt) -> Result<Text, AllocError>
    ensures { IfOk result (λ text. text ≡ written (added_to q name.now stmt.now)) }
{
    match stmt {
        Stmt::AddPrimary { columns, rest, .. } => primary(alloc, q, name, columns, rest),
        Stmt::AddUnique { columns, rest, .. } => unique(alloc, q, name, columns, rest),
        Stmt::AddForeign {
            columns,
            parent,
            parent_columns,
            rest,
            ..
        } => {
            let parent = Parent {
                q: parent,
                columns: parent_columns,
            };
            foreign(alloc, q, name, columns, parent, rest)
        }
        _ => empty_text(alloc),
    }
}

// The same of the only statement of a text of this length.
fn only_added(alloc: Global, q: QName, name: &Name, stmt: Option<&Stmt>) -> Result<Text, AllocError>
    ensures { IfOk result (λ text. text ≡ written (option_and_then (added_to q name.now) (option_map (λ s. s.now) stmt.entry))) }
{
    match stmt {
        Some(stmt) => added_to(alloc, q, name, stmt),
        None => empty_text(alloc),
    }
}

// ADD CONSTRAINT to this table, as the row's text says it.
fn added(alloc: Global, row: &ConstraintRow, q: QName) -> Result<Text, AllocError>
    ensures { IfOk result (λ text. text ≡ written (added row.now q)) }
{
    let text = statement_text(alloc, row.condef.as_bytes())?;
    let statements = statements_of(alloc, &text)?;
    only_added(
        alloc,
        q,
        &row.conname,
        only_statement(text.len(), &statements),
    )
}

/// ADD CONSTRAINT.
#[tactic(auto, unfolding(crate::specs::Keys::constraint_stmt))]
pub(crate) fn constraint_defn(
    alloc: Global,
    rows: &DumpRows<'_>,
    object: &Obj,
) -> Result<Text, AllocError>
    ensures { IfOk result (λ text. text ≡ written (constraint_stmt rows.now object.now)) }
{
    let Some(row) = rows.book().constraint_of(object.id.oid) else {
        return empty_text(alloc);
    };
    match rows.book().class_path_of(row.conrelid)? {
        Some(q) => added(alloc, row, q),
        None => empty_text(alloc),
    }
}

// CREATE INDEX, or CREATE UNIQUE INDEX.
fn index_of(alloc: Global, said: IndexText) -> Result<Text, AllocError>
    ensures { IfOk result (λ text. text ≡ written (Some (index_by said))) }
{
    let IndexText {
        unique,
        name,
        table,
        method,
        rest,
    } = said;
    if unique {
        spelled(
            alloc,
            Stmt::CreateUniqueIndex {
                q: table,
                name,
                method,
                rest,
            },
        )
    } else {
        spelled(
            alloc,
            Stmt::CreateIndex {
                q: table,
                name,
                method,
                rest,
            },
        )
    }
}

/// CREATE INDEX of an index of no constraint.
#[tactic(auto, unfolding(crate::specs::Keys::index_stmt))]
pub(crate) fn index_defn(
    alloc: Global,
    rows: &DumpRows<'_>,
    object: &Obj,
) -> Result<Text, AllocError>
    ensures { IfOk result (λ text. text ≡ written (index_stmt rows.now object.now)) }
{
    let Some(row) = rows.index_of(object.id.oid) else {
        return empty_text(alloc);
    };
    match index_said(alloc, row.indexdef.as_bytes())? {
        Some(said) => index_of(alloc, said),
        None => empty_text(alloc),
    }
}
