//! Texts of constraints, each read as the whole statement that adds it to a table.
ghost use Rattle.std.specs.Prelude.{◌≡◌, ℕ, length, Ok, option_map, IfOk};
ghost use Rattle.std.specs.Option.{option_and_then};
ghost use Rattle.ddl_read.specs.Reading.{statements_of};
ghost use Rattle.constraint_table.specs.declared.constraint_text.ConstraintText.TheVariants as text;
ghost use Rattle.constraint_table.specs.Said.{statement_text, only_statement, said_by, constraint_said};

use cat_model::{Items, QName, Stmt};
use copy_text::{Name, Text};
use ddl_read::{Located, ReadStmtsError, let_go_statements, read_stmts};
use std::alloc::{AllocError, Global};

/// What the text of a constraint says.
#[derive(Drop)]
pub enum ConstraintText {
    /// PRIMARY KEY: its columns.
    Primary(Items<Name>),
    /// UNIQUE: its columns.
    Unique(Items<Name>),
    /// FOREIGN KEY.
    Foreign {
        /// Its columns.
        columns: Items<Name>,
        /// The table of the parents.
        parent: QName,
        /// The parents' columns.
        parent_columns: Items<Name>,
    },
    /// CHECK: the expression between its brackets.
    Check(Text),
}

/// The statement that adds a constraint of this text to some table.
pub fn statement_text(alloc: Global, text: &[u8]) -> Result<Vec<u8>, AllocError>
    ensures { IfOk result (λ bytes. bytes.items ≡ statement_text text.now) }
{
    let mut bytes = Vec::new(alloc);
    bytes.extend_from_slice(b"ALTER TABLE ONLY a.a ADD CONSTRAINT a ")?;
    bytes.extend_from_slice(text)?;
    bytes.extend_from_slice(b"\n;")?;
    Ok(bytes)
}

/// The statement of a text of this length, where it is the only one and ends with the text; else `None`.
pub fn only_statement(end: usize, statements: &[Located]) -> Option<&Stmt>
    ensures { option_map (λ s. s.now) result ≡ only_statement end (Ok statements.now) }
{
    match statements {
        [one] if one.end == end => Some(&one.stmt),
        _ => None,
    }
}

// The same names.
fn names_of(alloc: Global, names: &Items<Name>) -> Result<Items<Name>, AllocError>
    ensures { IfOk result (λ same. same ≡ names.now) }
{
    Ok(Items::new(names.as_slice().to_vec(alloc)?))
}

// What a foreign key says.
fn foreign(
    alloc: Global,
    columns: &Items<Name>,
    parent: &QName,
    parent_columns: &Items<Name>,
) -> Result<ConstraintText, AllocError>
    ensures { IfOk result (λ said. said ≡ text.Foreign columns.now parent.now parent_columns.now) }
{
    let columns = names_of(alloc, columns)?;
    let parent = parent.clone()?;
    let parent_columns = names_of(alloc, parent_columns)?;
    Ok(ConstraintText::Foreign {
        columns,
        parent,
        parent_columns,
    })
}

// What a statement says of a constraint.
fn said_by(alloc: Global, stmt: &Stmt) -> Result<Option<ConstraintText>, AllocError>
    ensures { IfOk result (λ said. said ≡ said_by stmt.now) }
{
    match stmt {
        Stmt::AddPrimary { columns, .. } => {
            let columns = names_of(alloc, columns)?;
            Ok(Some(ConstraintText::Primary(columns)))
        }
        Stmt::AddUnique { columns, .. } => {
            let columns = names_of(alloc, columns)?;
            Ok(Some(ConstraintText::Unique(columns)))
        }
        Stmt::AddForeign {
            columns,
            parent,
            parent_columns,
            ..
        } => {
            let said = foreign(alloc, columns, parent, parent_columns)?;
            Ok(Some(said))
        }
        Stmt::AddCheck { text, .. } => {
            let text = text.clone()?;
            Ok(Some(ConstraintText::Check(text)))
        }
        _ => Ok(None),
    }
}

// What the only statement of a text of this length says of a constraint.
fn said_of(
    alloc: Global,
    end: usize,
    statements: &[Located],
) -> Result<Option<ConstraintText>, AllocError>
    ensures { IfOk result (λ said. said ≡ option_and_then said_by (only_statement end (Ok statements.now))) }
{
    match only_statement(end, statements) {
        Some(stmt) => said_by(alloc, stmt),
        None => Ok(None),
    }
}

/// The statements of a text, or no statement where it has a fault.
pub fn statements_of(alloc: Global, text: &[u8]) -> Result<Vec<Located>, AllocError>
    ensures { IfOk result (λ statements. (end : ℕ) → only_statement end (Ok statements.items) ≡ only_statement end (statements_of text.now)) }
{
    match read_stmts(alloc, text) {
        Ok(statements) => Ok(statements),
        Err(ReadStmtsError::Fault(_)) => Ok(Vec::new(alloc)),
        Err(ReadStmtsError::Memory) => Err(AllocError),
    }
}

// What the only statement of a text says of a constraint, where it ends with the text.
fn said_in(alloc: Global, text: &[u8]) -> Result<Option<ConstraintText>, AllocError>
    ensures { IfOk result (λ said. said ≡ option_and_then said_by (only_statement (length text.now) (statements_of text.now))) }
{
    let statements = statements_of(alloc, text)?;
    let said = said_of(alloc, text.len(), &statements);
    let_go_statements(statements);
    said
}

/// What the text of a constraint says; `None` where the text is none. Blanks and comments around are free.
#[tactic(auto, unfolding(crate::specs::Said::constraint_said))]
pub fn constraint_said(alloc: Global, text: &[u8]) -> Result<Option<ConstraintText>, AllocError>
    ensures { IfOk result (λ said. said ≡ constraint_said text.now) }
{
    let text = statement_text(alloc, text)?;
    let said = said_in(alloc, &text)?;
    Ok(said)
}
