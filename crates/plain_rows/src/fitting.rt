//! Lines whose fields their columns take.
ghost use Rattle.std.specs.Prelude.{◌≡◌, ℕ, List, None, length, map, IfOk, IsTrue};
ghost use Rattle.std.specs.List.{AllByRecursion, AllZip};
ghost use Rattle.std.specs.Option.{option_map};
ghost use Rattle.copy_text.specs.Lines.{data_lines};
ghost use Rattle.copy_text.specs.Pieces.{pieces};
ghost use Rattle.copy_text.specs.Texts.{IsText};
ghost use Rattle.cat_model.specs.CopiedRows.{no_null, fields_cause};
ghost use Rattle.plain_rows.specs.Lines.{LineFits, FieldFits, TakesPiece};

use copy_text::Name;
use data_rows::split_line;
use field_values::{ColumnValues, NamePlaces, TableColumns};
use line_fields::{has_text_lines, is_clear, split_piece};
use row_fields::PlainRow;
use std::alloc::{AllocError, Global};

// Of each column whether it takes no null: by its own word, that of a domain, or as one of the primary key's.
fn required(
    alloc: Global,
    columns: &[ColumnValues],
    primary: &[Name],
) -> Result<Vec<bool>, AllocError>
    ensures { IfOk result (λ required. required.items ≡ map (no_null primary.now) columns.now) }
{
    let key = NamePlaces::of_names(alloc, primary)?;
    let mut required = Vec::with_capacity(alloc, columns.len())?;
    for column in columns {
        required.push(takes_no_null(column, &key))?;
    }
    Ok(required)
}

fn takes_no_null(column: &ColumnValues, key: &NamePlaces) -> bool
    ensures { result ≡ no_null key.now column.now }
{
    column.not_null() || key.has(column.name())
}

// Whether a column takes a field.
fn field_fits(column: &ColumnValues, required: bool, field: Option<&[u8]>) -> bool
    ensures { IsTrue result → FieldFits required column.now (option_map (λ t. t.now) field.entry) }
{
    match field {
        Some(text) => column.takes(text),
        None => !required,
    }
}

// Whether each column takes its field.
fn fields_fit(columns: &[ColumnValues], required: &[bool], fields: &[Option<&[u8]>]) -> bool
    requires marks { length required.now ≡ length columns.now }
    requires fields { length fields.now ≡ length columns.now }
    ensures { IsTrue result → (primary : List (List ℕ)) (row : ℕ) → required.now ≡ map (no_null primary) columns.now → fields_cause primary row 1 columns.now (map (λ f. option_map (λ t. t.now) f) fields.now) ≡ None }
{
    for i in 0..columns.len() {
        if !field_fits(&columns[i], required[i], fields[i]) {
            return false;
        }
    }
    true
}

// Whether each column takes its piece of a line, where there is a piece for each.
fn pieces_fit(columns: &[ColumnValues], line: &[u8]) -> bool
    ensures { IsTrue result → AllZip TakesPiece columns.now (pieces line.now) }
{
    let mut rest = line;
    for i in 0..columns.len() {
        let Some((piece, behind)) = split_piece(rest) else {
            return false;
        };
        if !columns[i].takes(piece) {
            return false;
        }
        let Some(behind) = behind else {
            return i + 1 == columns.len();
        };
        rest = behind;
    }
    false
}

// Whether a line that is UTF-8 is a row that the table takes.
fn line_fits<'t>(
    columns: &[ColumnValues],
    required: &[bool],
    plain: &mut PlainRow<'t>,
    line: &'t [u8],
) -> Result<bool, AllocError>
    requires { length required.now ≡ length columns.now }
    ensures { IfOk result (λ fits. IsTrue fits → IsText line.now → (primary : List (List ℕ)) → required.now ≡ map (no_null primary) columns.now → LineFits columns.now primary line.now) }
{
    if is_clear(line) && pieces_fit(columns, line) {
        return Ok(true);
    }
    read_row_fits(columns, required, plain, line)
}

// Whether a line is a row that the table takes.
fn read_row_fits<'t>(
    columns: &[ColumnValues],
    required: &[bool],
    plain: &mut PlainRow<'t>,
    line: &'t [u8],
) -> Result<bool, AllocError>
    requires { length required.now ≡ length columns.now }
    ensures { IfOk result (λ fits. IsTrue fits → (primary : List (List ℕ)) → required.now ≡ map (no_null primary) columns.now → LineFits columns.now primary line.now) }
{
    if !plain.read(line)? {
        return Ok(false);
    }
    if plain.len() != columns.len() {
        return Ok(false);
    }
    Ok(fields_fit(columns, required, plain.fields()))
}

fn all_fit(
    alloc: Global,
    columns: &[ColumnValues],
    required: &[bool],
    text: &[u8],
) -> Result<bool, AllocError>
    requires marks { length required.now ≡ length columns.now }
    requires texts { AllByRecursion IsText (data_lines text.now) }
    ensures { IfOk result (λ fit. IsTrue fit → (primary : List (List ℕ)) → required.now ≡ map (no_null primary) columns.now → AllByRecursion (LineFits columns.now primary) (data_lines text.now)) }
{
    let mut plain = PlainRow::new(alloc);
    let mut rest = text;
    'lines: while let Some((line, behind)) = split_line(rest) {
        if !line_fits(columns, required, &mut plain, line)? {
            return Ok(false);
        }
        rest = behind;
    }
    Ok(true)
}

/// Whether each line of a text, up to its end mark, is a row that a table with these columns and this primary key takes:
/// it has a field for each column, which takes it. It makes no rows, and says no of a text that isn't UTF-8 or has a line whose
/// fields don't stand in it as they are. The error is that memory ran out.
pub fn rows_fit(
    alloc: Global,
    columns: &TableColumns,
    primary: &[Name],
    text: &[u8],
) -> Result<bool, AllocError>
    ensures { IfOk result (λ fit. IsTrue fit → AllByRecursion (LineFits columns.now primary.now) (data_lines text.now)) }
{
    if !has_text_lines(text) {
        return Ok(false);
    }
    let required = required(alloc, columns.as_slice(), primary)?;
    all_fit(alloc, columns.as_slice(), &required, text)
}
