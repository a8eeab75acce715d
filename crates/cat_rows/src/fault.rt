//! Why a line or a text has no rows.
ghost use Rattle.std.specs.Prelude.{◌≡◌, Some};
ghost use Rattle.cat_rows.specs.Kinds.{kind_text};
ghost use Rattle.cat_rows.specs.declared.fault.ReadCellsError.TheVariants as cells_errors;
ghost use Rattle.cat_rows.specs.declared.fault.ReadTableError.TheVariants as table_errors;

use crate::kind::ColKind;
use copy_text::CopyFault;
use std::alloc::{AllocError, AllocFailed};
use std::fmt;
use thiserror::Error;

/// The first fault of a line. The causes count in this order; among bad columns the first.
#[derive(Clone, Copy, Debug, PartialEq, Eq, Error)]
pub enum RowFault {
    /// The line is no COPY text.
    #[error("{0}")]
    Copy(CopyFault),
    /// The line has this number of fields, and the table another.
    #[error("{0} columns")]
    Columns(u64),
    /// The field in this column, counted from 1, is no cell of its kind.
    #[error("column {0} is no {1}")]
    BadCell(u64, ColKind),
}

/// The first fault of a table's text.
#[derive(Clone, Copy, Debug, Error)]
#[error("line {line}: {fault}")]
pub struct TableFault {
    /// The line, counted from 1.
    pub line: u64,
    /// What is wrong with it.
    pub fault: RowFault,
}

/// Why cells could not be read.
#[derive(Debug, Drop, Error)]
pub enum ReadCellsError {
    /// The line has no such cells.
    #[error("{0}")]
    Fault(RowFault),
    /// Memory ran out.
    #[error("out of memory")]
    Memory,
}

/// Why a table could not be read.
#[derive(Debug, Drop, Error)]
pub enum ReadTableError {
    /// The text has no such rows.
    #[error("{0}")]
    Fault(TableFault),
    /// Memory ran out.
    #[error("out of memory")]
    Memory,
}

impl fmt::Display for ColKind {
    ghost output = { λ kind. Some (kind_text kind) };

    fn fmt<W: fmt::Write>(&self, f: &mut fmt::Formatter<W>) -> fmt::Result {
        f.write_str(self.text())
    }
}

impl From<AllocError> for ReadCellsError {
    ghost from_gives = { λ _ e. e ≡ cells_errors.Memory };

    fn from(_e: AllocError) -> ReadCellsError {
        ReadCellsError::Memory
    }
}

impl<T: Drop> From<AllocFailed<T>> for ReadCellsError {
    ghost from_gives = { λ _ e. e ≡ cells_errors.Memory };

    fn from(_e: AllocFailed<T>) -> ReadCellsError {
        ReadCellsError::Memory
    }
}

impl From<AllocError> for ReadTableError {
    ghost from_gives = { λ _ e. e ≡ table_errors.Memory };

    fn from(_e: AllocError) -> ReadTableError {
        ReadTableError::Memory
    }
}

impl<T: Drop> From<AllocFailed<T>> for ReadTableError {
    ghost from_gives = { λ _ e. e ≡ table_errors.Memory };

    fn from(_e: AllocFailed<T>) -> ReadTableError {
        ReadTableError::Memory
    }
}
