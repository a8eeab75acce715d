//! Fields tried against their columns.
ghost use Rattle.std.specs.Prelude.{◌≡◌, List, Option, ℕ, length, map, IfOk};
ghost use Rattle.std.specs.Option.{option_map};
ghost use Rattle.cat_model.specs.declared.cause.Cause.{Cause};
ghost use Rattle.cat_model.specs.CopiedRows.{no_null, field_cause, fields_cause};
ghost use Rattle.rows_fit.specs.Causes.{first_cause, cause_of};

use crate::fault::RowFault;
use copy_text::{Name, Text};
use field_values::{ColumnValues, NamePlaces};
use std::alloc::{AllocError, Global};

/// Of each column whether it takes no null: by its own word, that of a domain, or as one of the primary key's.
pub(crate) fn required(
    alloc: Global,
    columns: &[ColumnValues],
    primary: &[Name],
) -> Result<Vec<bool>, AllocError>
    ensures { IfOk result (λ required. required.items ≡ map (no_null primary.now) columns.now) }
{
    let key = NamePlaces::of_names(alloc, primary)?;
    let mut required = Vec::with_capacity(alloc, columns.len())?;
    for column in columns {
        required.push(takes_no_null(column, &key))?;
    }
    Ok(required)
}

fn takes_no_null(column: &ColumnValues, key: &NamePlaces) -> bool
    ensures { result ≡ no_null key.now column.now }
{
    column.not_null() || key.has(column.name())
}

// What is wrong with the field of a column that has this number.
fn field_fault(
    column: &ColumnValues,
    required: bool,
    field: &Option<Text>,
    number: u64,
) -> Option<RowFault>
    ensures { (primary : List (List ℕ)) (row : ℕ) (later : Option Cause) → required ≡ no_null primary column.now → field_cause primary row number column.now field.now later ≡ first_cause (option_map (cause_of row) result) later }
{
    match field {
        Some(text) => (!column.takes(text.as_bytes())).then_some(RowFault::BadValue(number)),
        None => required.then_some(RowFault::NullValue(number)),
    }
}

/// What is wrong with the first field of a row that its column doesn't take.
pub(crate) fn fields_fault(
    columns: &[ColumnValues],
    required: &[bool],
    fields: &[Option<Text>],
) -> Option<RowFault>
    requires { length required.now ≡ length columns.now }
    ensures { (primary : List (List ℕ)) (row : ℕ) → required.now ≡ map (no_null primary) columns.now → fields_cause primary row 1 columns.now fields.now ≡ option_map (cause_of row) result }
{
    for i in 0..columns.len().min(fields.len()) {
        let fault = field_fault(&columns[i], required[i], &fields[i], i as u64 + 1);
        if fault.is_some() {
            return fault;
        }
    }
    None
}
