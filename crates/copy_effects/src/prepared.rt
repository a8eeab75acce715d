//! A COPY text whose rows were read.
ghost use Rattle.std.specs.Prelude.{◌≡◌, ◌↔◌, [], ◌∷◌, ◌++◌, length, IfOk, OnOk, IsTrue};
ghost use Rattle.std.specs.Option.{option_map};
ghost use Rattle.copy_text.specs.Lines.{data_lines};
ghost use Rattle.cat_model.specs.CopiedRows.{copied_rows};
ghost use Rattle.copy_effects.specs.declared.prepared.PrepareError.TheVariants.{Memory};
ghost use Rattle.copy_effects.specs.Prepared.{IsPrepared, ReadsAsSome};

use cat_model::{Cause, Items};
use copy_text::{CopyFault, Name, Row};
use data_rows::{read_line, split_line};
use field_values::TableColumns;
use rows_fit::{copied_rows, tried_rows};
use std::alloc::{AllocError, Global};
use std::marker::Model;
use thiserror::Error;

/// Why the rows of a COPY text could not be read.
#[derive(Debug, Drop, Error)]
pub enum PrepareError {
    /// This row, counted from 1, is the first whose line is no COPY text; this is its first fault.
    #[error("row {row}: {fault}")]
    Row {
        /// The row, counted from 1.
        row: u64,
        /// What is wrong with its line.
        fault: CopyFault,
    },
    /// Memory ran out.
    #[error("out of memory")]
    Memory,
}

impl From<AllocError> for PrepareError {
    ghost from_gives = { λ _ e. e ≡ Memory };

    fn from(_e: AllocError) -> PrepareError {
        PrepareError::Memory
    }
}

/// A COPY text with its rows, which were read before it is copied. A contract sees the text.
#[derive(Drop)]
pub struct Prepared<'t> {
    text: &'t [u8],
    rows: Vec<Row>,
}

impl<'t> Model for Prepared<'t> {
    ghost use Rattle.std.specs.Prelude.{List, ℕ};
    ghost use Rattle.copy_effects.specs.Prepared.{ReadsAs};

    ghost Value = { List ℕ };

    ghost view = { λ p. p.text.now };

    ghost invariant = { λ p. ReadsAs p.text.now p.rows.items };
}

impl<'t> Prepared<'t> {
    /// Whether it is this text, byte for byte, that was prepared.
    pub fn is_of(&self, text: &[u8]) -> bool
        ensures { IsTrue result ↔ (self.now ≡ text.now) }
    {
        self.text == text
    }

    /// How many rows the text has.
    pub fn len(&self) -> u64
        ensures { result ≡ length (data_lines self.now) }
    {
        self.rows.len() as u64
    }
}

fn push_row(rows: &mut Vec<Row>, row: Row) -> Result<(), AllocError>
    ensures { OnOk result (rows.new.items ≡ rows.old.items ++ row ∷ []) }
{
    rows.push(row)?;
    Ok(())
}

/// Reads the rows of a text in COPY text format, so that it can be copied into a table later without reading it again. The
/// rows end at the line `\.` or at the text's end. See <https://www.postgresql.org/docs/16/sql-copy.html>.
///
/// # Errors
///
/// `Row` with the first row whose line is no COPY text, and why; or `Memory`.
pub fn prepare(alloc: Global, text: &[u8]) -> Result<Prepared<'_>, PrepareError>
    ensures { IsPrepared text.now result }
{
    let mut rows = Vec::new(alloc);
    let mut rest = text;
    'lines: while let Some((line, behind)) = split_line(rest) {
        match read_line(alloc, line)? {
            Ok(row) => push_row(&mut rows, row)?,
            Err(fault) => {
                let row = rows.len() as u64 + 1;
                return Err(PrepareError::Row { row, fault });
            }
        }
        rest = behind;
    }
    Ok(Prepared { text, rows })
}

/// What is copied: a text, and its rows where they were read before. A contract sees the text.
#[derive(Drop)]
pub(crate) struct Source<'t> {
    text: &'t [u8],
    read: Option<Vec<Row>>,
}

impl<'t> Model for Source<'t> {
    ghost use Rattle.std.specs.Prelude.{List, ℕ};
    ghost use Rattle.std.specs.Option.{option_map};
    ghost use Rattle.copy_effects.specs.Prepared.{ReadsAsSome};

    ghost Value = { List ℕ };

    ghost view = { λ s. s.text.now };

    ghost invariant = { λ s. ReadsAsSome s.text.now (option_map (λ rows. rows.items) s.read) };
}

impl<'t> Source<'t> {
    /// A text whose rows are still to be read.
    pub(crate) fn of_text(text: &'t [u8]) -> Source<'t>
        ensures { result ≡ text.now }
    {
        Source { text, read: None }
    }

    /// A text with the rows that were read of it.
    pub(crate) fn of_prepared(prepared: Prepared<'t>) -> Source<'t>
        ensures { result ≡ prepared.entry }
    {
        Source {
            text: prepared.text,
            read: Some(prepared.rows),
        }
    }

    /// The rows that the text gives for a table's columns, or the first cause for which it is refused. The error is that
    /// memory ran out.
    pub(crate) fn copied(
        self,
        alloc: Global,
        columns: &TableColumns<'_>,
        names: &[Name],
        primary: &[Name],
    ) -> Result<Result<Items<Row>, Cause>, AllocError>
        ensures { IfOk result (λ rows. rows ≡ copied_rows columns.now names.now primary.now self.entry) }
    {
        copied_or_tried(alloc, columns, names, primary, self.text, self.read)
    }
}

// The rows that were read are tried; where none were, those of the text are read.
fn copied_or_tried(
    alloc: Global,
    columns: &TableColumns<'_>,
    names: &[Name],
    primary: &[Name],
    text: &[u8],
    read: Option<Vec<Row>>,
) -> Result<Result<Items<Row>, Cause>, AllocError>
    requires { ReadsAsSome text.now (option_map (λ rows. rows.items) read) }
    ensures { IfOk result (λ rows. rows ≡ copied_rows columns.now names.now primary.now text.now) }
{
    match read {
        Some(rows) => tried_rows(alloc, columns, names, primary, rows),
        None => copied_rows(alloc, columns, names, primary, text),
    }
}
