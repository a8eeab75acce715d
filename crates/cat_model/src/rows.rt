//! The rows of a table.
ghost use Rattle.std.specs.Prelude.{◌≡◌, ◌↔◌, ◌<◌, [], ◌∷◌, ◌++◌, length, IfOk, IsTrue, OnOk, OnErr};
ghost use Rattle.std.specs.Option.{option_to_list};
ghost use Rattle.std.specs.Result.{result_ok};
ghost use Rattle.copy_text.specs.Rows.{spell_rows};
ghost use Rattle.cat_model.specs.RowTexts.{rows_held};

use copy_text::{CopyFault, Row, Text, write_row};
use data_rows::{read_line, read_rows, split_line};
use std::alloc::{AllocError, Global};
use std::marker::Model;

/// The rows of a table, in their order, each with a field at least.
///
/// They are held as their one spelling in COPY text format, so they take the memory of that text. A contract sees the
/// list of the rows. See <https://www.postgresql.org/docs/16/sql-copy.html>, "Text Format".
#[derive(Drop)]
pub struct TableRows {
    text: Vec<u8>,
}

impl Model for TableRows {
    ghost use Rattle.std.specs.Prelude.{List};
    ghost use Rattle.copy_text.specs.Rows.{Field};
    ghost use Rattle.cat_model.specs.RowTexts.{rows_held, IsSpelled};

    ghost Value = { List (List Field) };

    ghost view = { λ r. rows_held r.text.items };

    ghost invariant = { λ r. IsSpelled r.text.items };
}

impl TableRows {
    /// No rows. It takes no memory.
    pub fn new(alloc: Global) -> TableRows
        ensures { result ≡ [] }
    {
        TableRows {
            text: Vec::new(alloc),
        }
    }

    /// The rows of a text in COPY text format: of each line that reads as one. They end at the line `\.` or at the text's
    /// end. The error is that memory ran out.
    pub fn read(alloc: Global, text: &[u8]) -> Result<TableRows, AllocError>
        ensures { IfOk result (λ rows. rows ≡ rows_held text.now) }
    {
        let mut rows = TableRows::new(alloc);
        let mut rest = text;
        'lines: while let Some((line, behind)) = split_line(rest) {
            push_read(&mut rows, read_line(alloc, line)?)?;
            rest = behind;
        }
        Ok(rows)
    }

    /// One more row, at the end. After an `Err` all is as it was.
    pub fn push(&mut self, row: &[Option<Text>]) -> Result<(), AllocError>
        requires { 0 < length row.now }
        ensures ok { OnOk result (self.new ≡ self.old ++ row.now ∷ []) }
        ensures err { OnErr result (self.new ≡ self.old) }
    {
        write_row(row, &mut self.text)
    }

    /// The other's rows behind its own; their text is copied as it stands. After an `Err` all is as it was.
    pub fn append(&mut self, other: &TableRows) -> Result<(), AllocError>
        ensures ok { OnOk result (self.new ≡ self.old ++ other.now) }
        ensures err { OnErr result (self.new ≡ self.old) }
    {
        append_text(&mut self.text, &other.text)
    }

    /// The rows, read. The error is that memory ran out.
    pub fn to_rows(&self, alloc: Global) -> Result<Vec<Row>, AllocError>
        ensures { IfOk result (λ rows. rows.items ≡ self.now) }
    {
        read_rows(alloc, &self.text)
    }

    /// Whether both are the same rows in the same order.
    pub fn is_same(&self, other: &TableRows) -> bool
        ensures { IsTrue result ↔ (self.now ≡ other.now) }
    {
        self.text == other.text
    }

    /// The rows as their text: a line each.
    pub fn text(&self) -> &[u8]
        ensures spelled { result.now ≡ spell_rows self.now }
        ensures held { rows_held result.now ≡ self.now }
    {
        &self.text
    }
}

fn append_text(text: &mut Vec<u8>, more: &[u8]) -> Result<(), AllocError>
    ensures ok { OnOk result (text.new.items ≡ text.old.items ++ more.now) }
    ensures err { OnErr result (text.new.items ≡ text.old.items) }
{
    text.extend_from_slice(more)
}

// A row that was read stands at the end.
fn push_read(rows: &mut TableRows, read: Result<Row, CopyFault>) -> Result<(), AllocError>
    requires { IfOk read (λ row. 0 < length row) }
    ensures { OnOk result (rows.new ≡ rows.old ++ option_to_list (result_ok read)) }
{
    if let Ok(row) = read {
        rows.push(row.fields())?;
    }
    Ok(())
}

impl Clone for TableRows {
    ghost is_clone = { λ a b. b ≡ a };

    fn clone(&self) -> Result<TableRows, AllocError> {
        Ok(TableRows {
            text: self.text.clone()?,
        })
    }
}
