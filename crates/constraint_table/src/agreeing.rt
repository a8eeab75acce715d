//! Whether the text of a constraint agrees with the rows.
ghost use Rattle.std.specs.Prelude.{◌≡◌, ◌&&◌, None, IfOk};
ghost use Rattle.text_tables.specs.Agreeing.{are_met};
ghost use Rattle.cat_book.specs.Leads.{is_primary};
ghost use Rattle.constraint_table.specs.Table.{is_unique, is_foreign, is_check, has_index_path, has_own_index, is_only_primary, is_good_key, is_good_foreign, agrees, agrees_if_said};

use crate::beside::Beside;
use crate::constraint_text::ConstraintText;
use cat_book::is_primary;
use cat_model::QName;
use cat_rows::ConstraintRow;
use copy_text::Name;
use std::alloc::{AllocError, Global};
use text_tables::{are_columns, are_met, is_index_path, is_path};

fn is_unique(row: &ConstraintRow) -> bool
    ensures { result ≡ is_unique row.now }
{
    row.contype.byte() == b'u'
}

/// Whether a constraint is a foreign key.
pub(crate) fn is_foreign(row: &ConstraintRow) -> bool
    ensures { result ≡ is_foreign row.now }
{
    row.contype.byte() == b'f'
}

/// Whether a constraint is a check.
pub(crate) fn is_check(row: &ConstraintRow) -> bool
    ensures { result ≡ is_check row.now }
{
    row.contype.byte() == b'c'
}

// Whether an index has this name and lies in the schema of a table.
fn has_index_path(table: &Option<QName>, index: &Option<QName>, name: &Name) -> bool
    ensures { result ≡ has_index_path table.now index.now name.now }
{
    match table {
        Some(table) => is_index_path(index, table, name),
        None => false,
    }
}

// Whether a key has its own index.
fn has_own_index(beside: &Beside<'_>, row: &ConstraintRow) -> Result<bool, AllocError>
    ensures { IfOk result (λ has. has ≡ has_own_index beside.now row.now) }
{
    let table = beside.book().class_path_of(row.conrelid)?;
    let index = beside.book().class_path_of(row.conindid)?;
    Ok(has_index_path(&table, &index, &row.conname) && beside.book().is_of_one_key(row.conindid))
}

// Whether the columns of a key are there, each once, and it has its own index.
fn is_good_key(
    alloc: Global,
    beside: &Beside<'_>,
    row: &ConstraintRow,
    names: &[Name],
) -> Result<bool, AllocError>
    ensures { IfOk result (λ good. good ≡ is_good_key beside.now row.now names.now) }
{
    let are_columns = are_columns(alloc, beside.book(), row.conrelid, names)?;
    let has_index = has_own_index(beside, row)?;
    Ok(are_columns && has_index)
}

// Whether a row is of the table's only primary key, on these columns.
fn is_this_primary(
    alloc: Global,
    beside: &Beside<'_>,
    row: &ConstraintRow,
    names: &[Name],
) -> Result<bool, AllocError>
    ensures { IfOk result (λ is. is ≡ is_primary row.now && (is_good_key beside.now row.now names.now && is_only_primary beside.now row.now)) }
{
    let good = is_good_key(alloc, beside, row, names)?;
    Ok(is_primary(row) && good && beside.book().has_one_primary(row.conrelid))
}

// Whether a row is of a unique constraint on these columns.
fn is_this_unique(
    alloc: Global,
    beside: &Beside<'_>,
    row: &ConstraintRow,
    names: &[Name],
) -> Result<bool, AllocError>
    ensures { IfOk result (λ is. is ≡ is_unique row.now && is_good_key beside.now row.now names.now) }
{
    let good = is_good_key(alloc, beside, row, names)?;
    Ok(is_unique(row) && good)
}

// Whether the columns of both sides are there, each once and as many, and the parent has a key on its columns.
fn is_good_foreign(
    alloc: Global,
    beside: &Beside<'_>,
    row: &ConstraintRow,
    names: &[Name],
    parent: &QName,
    parent_names: &[Name],
) -> Result<bool, AllocError>
    ensures { IfOk result (λ good. good ≡ is_good_foreign beside.now row.now names.now parent.now parent_names.now) }
{
    let path = beside.book().class_path_of(row.confrelid)?;
    let are_here = are_columns(alloc, beside.book(), row.conrelid, names)?;
    let are_there = are_columns(alloc, beside.book(), row.confrelid, parent_names)?;
    let has_key = beside.has_key_on(alloc, row.confrelid, parent_names)?;
    Ok(
        is_path(&path, parent)
            && are_here
            && are_there
            && names.len() == parent_names.len()
            && has_key,
    )
}

// Whether a row is of a foreign key of these columns.
fn is_this_foreign(
    alloc: Global,
    beside: &Beside<'_>,
    row: &ConstraintRow,
    names: &[Name],
    parent: &QName,
    parent_names: &[Name],
) -> Result<bool, AllocError>
    ensures { IfOk result (λ is. is ≡ is_foreign row.now && is_good_foreign beside.now row.now names.now parent.now parent_names.now) }
{
    let good = is_good_foreign(alloc, beside, row, names, parent, parent_names)?;
    Ok(is_foreign(row) && good)
}

// Whether a row is of a check whose references are met.
fn is_this_check(
    alloc: Global,
    beside: &Beside<'_>,
    row: &ConstraintRow,
    text: &[u8],
) -> Result<bool, AllocError>
    ensures { IfOk result (λ is. is ≡ is_check row.now && are_met beside.now None text.now) }
{
    let met = are_met(alloc, beside.book(), &None, text)?;
    Ok(is_check(row) && met)
}

// Whether what a text says is of the row's kind and agrees with the rows.
fn agrees(
    alloc: Global,
    beside: &Beside<'_>,
    row: &ConstraintRow,
    said: &ConstraintText,
) -> Result<bool, AllocError>
    ensures { IfOk result (λ is. is ≡ agrees beside.now row.now said.now) }
{
    match said {
        ConstraintText::Primary(names) => is_this_primary(alloc, beside, row, names.as_slice()),
        ConstraintText::Unique(names) => is_this_unique(alloc, beside, row, names.as_slice()),
        ConstraintText::Foreign {
            columns,
            parent,
            parent_columns,
        } => is_this_foreign(
            alloc,
            beside,
            row,
            columns.as_slice(),
            parent,
            parent_columns.as_slice(),
        ),
        ConstraintText::Check(text) => is_this_check(alloc, beside, row, text.as_bytes()),
    }
}

/// Whether there is such a text, and what it says agrees with the rows.
pub(crate) fn agrees_if_said(
    alloc: Global,
    beside: &Beside<'_>,
    row: &ConstraintRow,
    said: &Option<ConstraintText>,
) -> Result<bool, AllocError>
    ensures { IfOk result (λ is. is ≡ agrees_if_said beside.now row.now said.now) }
{
    match said {
        Some(said) => agrees(alloc, beside, row, said),
        None => Ok(false),
    }
}
