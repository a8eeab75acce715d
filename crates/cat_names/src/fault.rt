//! What is wrong with a catalogue, and where.
ghost use Rattle.std.specs.Prelude.{◌≡◌, Option, Ok};
ghost use Rattle.cat_names.specs.declared.fault.LineError.TheVariants as line_errors;
ghost use Rattle.cat_names.specs.declared.fault.CheckError.TheVariants as check_errors;
ghost use Rattle.cat_names.specs.declared.fault.LineFault.{LineFault as Fault};
ghost use Rattle.cat_names.specs.Findings.{first_kind, in_table, left_out_first};
ghost use Rattle.cat_names.specs.Gives.{GivesLine, GivesTable};

use cat_model::What;
use cat_rows::SysTable;
use std::alloc::{AllocError, AllocFailed};
use thiserror::Error;

/// What is wrong with a row. At one line the kinds count in this order.
#[derive(Debug, Drop)]
pub enum FaultKind {
    /// An earlier line has the same oid.
    RepeatedOid,
    /// An earlier line has the same name.
    RepeatedName,
    /// An oid leads to no row of the right kind, or a row that must be there isn't.
    Dangling,
    /// A text isn't what its place wants, or disagrees with the rows.
    BadText,
    /// Something that is left out.
    OutOfProfile(What),
}

/// The first fault of a catalogue.
#[derive(Debug, Drop)]
pub struct CatFault {
    /// The table.
    pub table: SysTable,
    /// The line, counted from 1; a row that must be there and isn't counts at the line after the last.
    pub line: u64,
    /// What is wrong.
    pub kind: FaultKind,
}

/// The first fault of a table.
#[derive(Drop)]
pub struct LineFault {
    /// The line, counted from 1.
    pub line: u64,
    /// What is wrong.
    pub kind: FaultKind,
}

/// What is wrong with a row, kind by kind.
#[derive(Drop)]
pub struct Findings {
    /// An earlier line has the same oid.
    pub repeated_oid: bool,
    /// An earlier line has the same name.
    pub repeated_name: bool,
    /// An oid leads to no row of the right kind.
    pub dangling: bool,
    /// A text isn't what its place wants.
    pub bad_text: bool,
    /// The first of what is left out.
    pub left_out: Option<What>,
}

impl Findings {
    /// The first of the faults.
    pub fn first_kind(self) -> Option<FaultKind>
        ensures { result ≡ first_kind self }
    {
        if self.repeated_oid {
            Some(FaultKind::RepeatedOid)
        } else if self.repeated_name {
            Some(FaultKind::RepeatedName)
        } else if self.dangling {
            Some(FaultKind::Dangling)
        } else if self.bad_text {
            Some(FaultKind::BadText)
        } else {
            self.left_out.map(FaultKind::OutOfProfile)
        }
    }
}

/// Why a table isn't well-formed.
#[derive(Drop)]
pub enum LineError {
    /// It has this fault.
    Fault(LineFault),
    /// Memory ran out.
    Memory,
}

/// Why a check ended.
#[derive(Debug, Drop, Error)]
pub enum CheckError {
    /// The catalogue isn't well-formed.
    #[error("not well-formed")]
    Fault(CatFault),
    /// Memory ran out.
    #[error("out of memory")]
    Memory,
}

impl From<AllocError> for LineError {
    ghost from_gives = { λ _ e. e ≡ line_errors.Memory };

    fn from(_e: AllocError) -> LineError {
        LineError::Memory
    }
}

impl<T: Drop> From<AllocFailed<T>> for LineError {
    ghost from_gives = { λ _ e. e ≡ line_errors.Memory };

    fn from(_e: AllocFailed<T>) -> LineError {
        LineError::Memory
    }
}

impl From<AllocError> for CheckError {
    ghost from_gives = { λ _ e. e ≡ check_errors.Memory };

    fn from(_e: AllocError) -> CheckError {
        CheckError::Memory
    }
}

/// The answer for a line as one for its table.
pub fn at_table<T: Drop>(table: SysTable, answer: Result<T, LineError>) -> Result<T, CheckError>
    ensures due { (due : Option Fault) → GivesLine answer due → GivesTable result (in_table table due) }
    ensures ok { (x : T) → result ≡ Ok x → answer ≡ Ok x }
{
    match answer {
        Ok(x) => Ok(x),
        Err(LineError::Fault(fault)) => Err(CheckError::Fault(CatFault {
            table,
            line: fault.line,
            kind: fault.kind,
        })),
        Err(LineError::Memory) => Err(CheckError::Memory),
    }
}

/// The first of two things that are left out.
pub fn left_out_first(first: Option<What>, later: Option<What>) -> Option<What>
    ensures { result ≡ left_out_first first later }
{
    match first {
        Some(what) => Some(what),
        None => later,
    }
}
