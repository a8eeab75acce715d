//! The columns of a row, taken from the left.
ghost use Rattle.std.specs.Prelude.{◌≡◌, ◌<◌, ◌≤◌, ◌+◌, [], ◌∷◌, length, Ok, IfOk, MatchOption};
ghost use Rattle.cat_rows.specs.declared.kind.ColKind.TheVariants as kinds;
ghost use Rattle.cat_rows.specs.declared.cell.Cell.TheVariants as cells;
ghost use Rattle.cat_rows.specs.declared.fault.ReadCellsError.TheVariants as errors;
ghost use Rattle.cat_rows.specs.declared.fault.RowFault.TheVariants.{BadCell};
ghost use Rattle.cat_rows.specs.Reading.{GivesRow, cell_at};

use crate::cell::Cell;
use crate::fault::{ReadCellsError, RowFault};
use crate::kind::ColKind;
use crate::letter::Letter;
use crate::value::{read_bool, read_int, read_letter, read_name, read_oid};
use acl_text::{Acl, read_acl};
use copy_text::{Name, Text};
use std::alloc::Global;
use std::marker::Model;
use std::vec::IntoIter;

/// The most columns that a row is read with.
pub(crate) const MOST_COLUMNS: usize = 64;

/// The fields that are left of a row. A contract sees them with the number of the first one, counted from 1.
#[derive(Drop)]
pub(crate) struct Columns {
    alloc: Global,
    column: u64,
    fields: IntoIter<Option<Text>>,
}

impl Model for Columns {
    ghost use Rattle.std.specs.Prelude.{◌≤◌, ◌+◌, length};
    ghost use Rattle.std.specs.Vec.Iter.{into_iter_items};
    ghost use Rattle.cat_rows.specs.Reading.{Place};

    ghost Value = { Place };

    ghost view = { λ c. record { column = c.column; fields = into_iter_items c.fields } };

    ghost invariant = { λ c. c.column + length (into_iter_items c.fields) ≤ 65 };
}

impl Columns {
    pub(crate) fn new(alloc: Global, fields: Vec<Option<Text>>) -> Columns
        requires { length fields.items ≤ 64 }
        ensures { result ≡ record { column = 1; fields = fields.items } }
    {
        Columns {
            alloc,
            column: 1,
            fields: fields.into_iter(),
        }
    }

    // The next field.
    fn next_field(&mut self) -> Option<Option<Text>>
        ensures { MatchOption result (self.old.fields ≡ [])
            (λ field. (self.old.fields ≡ field ∷ self.new.fields) × (self.new.column ≡ self.old.column + 1)) }
    {
        let field = self.fields.next()?;
        self.column += 1;
        Some(field)
    }

    #[tactic(auto, unfolding(crate::specs::Reading::cell_at, crate::specs::Cells::cell_of))]
    pub(crate) fn oid(&mut self) -> Result<u32, ReadCellsError>
        ensures { GivesRow (λ x. (cells.Oid x, self.new)) result (cell_at kinds.Oid self.old) }
    {
        let column = self.column;
        match self.next_field() {
            Some(Some(text)) => read_oid(&text).ok_or(bad_cell(column, ColKind::Oid)),
            _ => Err(bad_cell(column, ColKind::Oid)),
        }
    }

    #[tactic(auto, unfolding(crate::specs::Reading::cell_at, crate::specs::Cells::cell_of))]
    pub(crate) fn int(&mut self) -> Result<i64, ReadCellsError>
        ensures { GivesRow (λ x. (cells.Int x, self.new)) result (cell_at kinds.Int self.old) }
    {
        let column = self.column;
        match self.next_field() {
            Some(Some(text)) => read_int(&text).ok_or(bad_cell(column, ColKind::Int)),
            _ => Err(bad_cell(column, ColKind::Int)),
        }
    }

    #[tactic(auto, unfolding(crate::specs::Reading::cell_at, crate::specs::Cells::cell_of))]
    pub(crate) fn bool(&mut self) -> Result<bool, ReadCellsError>
        ensures { GivesRow (λ x. (cells.Bool x, self.new)) result (cell_at kinds.Bool self.old) }
    {
        let column = self.column;
        match self.next_field() {
            Some(Some(text)) => read_bool(&text).ok_or(bad_cell(column, ColKind::Bool)),
            _ => Err(bad_cell(column, ColKind::Bool)),
        }
    }

    #[tactic(auto, unfolding(crate::specs::Reading::cell_at, crate::specs::Cells::cell_of))]
    pub(crate) fn letter(&mut self) -> Result<Letter, ReadCellsError>
        ensures { GivesRow (λ x. (cells.Letter x, self.new)) result (cell_at kinds.Letter self.old) }
    {
        let column = self.column;
        match self.next_field() {
            Some(Some(text)) => read_letter(&text).ok_or(bad_cell(column, ColKind::Letter)),
            _ => Err(bad_cell(column, ColKind::Letter)),
        }
    }

    #[tactic(auto, unfolding(crate::specs::Reading::cell_at, crate::specs::Cells::cell_of))]
    pub(crate) fn name(&mut self) -> Result<Name, ReadCellsError>
        ensures { GivesRow (λ x. (cells.Name x, self.new)) result (cell_at kinds.NameCol self.old) }
    {
        let column = self.column;
        match self.next_field() {
            Some(Some(text)) => read_name(self.alloc, &text)?.ok_or(bad_cell(
                column,
                ColKind::NameCol,
            )),
            _ => Err(bad_cell(column, ColKind::NameCol)),
        }
    }

    #[tactic(auto, unfolding(crate::specs::Reading::cell_at, crate::specs::Cells::cell_of))]
    pub(crate) fn text(&mut self) -> Result<Text, ReadCellsError>
        ensures { GivesRow (λ x. (cells.Text x, self.new)) result (cell_at kinds.TextCol self.old) }
    {
        let column = self.column;
        match self.next_field() {
            Some(Some(text)) => Ok(text),
            _ => Err(bad_cell(column, ColKind::TextCol)),
        }
    }

    #[tactic(auto, unfolding(crate::specs::Reading::cell_at, crate::specs::Cells::cell_of))]
    pub(crate) fn null_text(&mut self) -> Result<Option<Text>, ReadCellsError>
        ensures { GivesRow (λ x. (cells.NullText x, self.new)) result (cell_at kinds.NullText self.old) }
    {
        let column = self.column;
        match self.next_field() {
            Some(field) => Ok(field),
            None => Err(bad_cell(column, ColKind::NullText)),
        }
    }

    #[tactic(auto, unfolding(crate::specs::Reading::cell_at, crate::specs::Cells::cell_of))]
    pub(crate) fn acl(&mut self) -> Result<Option<Acl>, ReadCellsError>
        ensures { GivesRow (λ x. (cells.Acl x, self.new)) result (cell_at kinds.Acl self.old) }
    {
        let column = self.column;
        match self.next_field() {
            Some(None) => Ok(None),
            Some(Some(text)) => match read_acl(self.alloc, &text)? {
                Some(acl) => Ok(Some(acl)),
                None => Err(bad_cell(column, ColKind::Acl)),
            },
            None => Err(bad_cell(column, ColKind::Acl)),
        }
    }

    /// The next cell, of the kind.
    pub(crate) fn cell(&mut self, kind: ColKind) -> Result<Cell, ReadCellsError>
        ensures { GivesRow (λ cell. (cell, self.new)) result (cell_at kind self.old) }
    {
        Ok(match kind {
            ColKind::Oid => Cell::Oid(self.oid()?),
            ColKind::Int => Cell::Int(self.int()?),
            ColKind::Bool => Cell::Bool(self.bool()?),
            ColKind::NameCol => Cell::Name(self.name()?),
            ColKind::TextCol => Cell::Text(self.text()?),
            ColKind::NullText => Cell::NullText(self.null_text()?),
            ColKind::Letter => Cell::Letter(self.letter()?),
            ColKind::Acl => Cell::Acl(self.acl()?),
        })
    }
}

fn bad_cell(column: u64, kind: ColKind) -> ReadCellsError
    ensures { result ≡ errors.Fault (BadCell column kind) }
{
    ReadCellsError::Fault(RowFault::BadCell(column, kind))
}
