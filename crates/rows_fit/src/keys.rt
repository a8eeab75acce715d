//! Keys of a table, tried over all of its rows.
ghost use Rattle.std.specs.Prelude.{◌≡◌, List, ℕ, Some, None, IfOk};
ghost use Rattle.cat_model.specs.declared.cause.Cause.TheVariants as causes;
ghost use Rattle.cat_model.specs.Tables.{orphan, repeated};
ghost use Rattle.rows_fit.specs.KeyCauses.{unique_cause, parent_cause, keys_cause, duplicate_or, orphan_or};

use cat_model::Cause;
use copy_text::{Name, Row};
use field_values::TableColumns;
use row_keys::{JoinedRows, orphan, repeated};
use std::alloc::{AllocError, Global};
use std::marker::Model;

/// What keeps rows apart: a primary key, a unique constraint or a unique index on plain columns. A contract sees its
/// name and its columns.
#[derive(Drop)]
pub struct UniqueKey<'k> {
    name: &'k Name,
    columns: &'k [Name],
}

impl<'k> Model for UniqueKey<'k> {
    ghost use Rattle.std.specs.Prelude.{List, ℕ};

    ghost Value = { List ℕ × List (List ℕ) };

    ghost view = { λ k. (k.name.now, k.columns.now) };
}

impl<'k> UniqueKey<'k> {
    /// The key of this name on these columns.
    pub fn new(name: &'k Name, columns: &'k [Name]) -> UniqueKey<'k>
        ensures { result ≡ (name.now, columns.now) }
    {
        UniqueKey { name, columns }
    }

    pub(crate) fn name(&self) -> &'k Name
        ensures { result.now ≡ self.now.0 }
    {
        self.name
    }

    fn columns(&self) -> &'k [Name]
        ensures { result.now ≡ self.now.1 }
    {
        self.columns
    }
}

/// A foreign key, with the columns and the rows of the table that it refers to. A contract sees what it holds.
#[derive(Drop)]
pub struct ForeignKey<'k> {
    name: &'k Name,
    columns: &'k [Name],
    parent_names: &'k [Name],
    parent_columns: &'k TableColumns<'k>,
    parent_rows: &'k JoinedRows<'k>,
}

impl<'k> Model for ForeignKey<'k> {
    ghost use Rattle.rows_fit.specs.KeyCauses.{Linked};

    ghost Value = { Linked };

    ghost view = { λ k. record { name = k.name.now; columns = k.columns.now; parent_names = k.parent_names.now; parent_columns = k.parent_columns.now; parent_rows = k.parent_rows.now } };
}

impl<'k> ForeignKey<'k> {
    /// The foreign key of this name from these columns to those named of the parent, whose columns and rows these are.
    pub fn new(
        name: &'k Name,
        columns: &'k [Name],
        parent_names: &'k [Name],
        parent_columns: &'k TableColumns<'k>,
        parent_rows: &'k JoinedRows<'k>,
    ) -> ForeignKey<'k>
        ensures { result ≡ record { name = name.now; columns = columns.now; parent_names = parent_names.now; parent_columns = parent_columns.now; parent_rows = parent_rows.now } }
    {
        ForeignKey {
            name,
            columns,
            parent_names,
            parent_columns,
            parent_rows,
        }
    }

    fn name(&self) -> &'k Name
        ensures { result.now ≡ self.now.name }
    {
        self.name
    }

    // The first of these rows that has no parent.
    fn first_orphan(
        &self,
        alloc: Global,
        columns: &TableColumns,
        rows: &'k [Row],
    ) -> Result<Option<u64>, AllocError>
        ensures { IfOk result (λ row. row ≡ orphan columns.now self.now.columns rows.now self.now.parent_columns self.now.parent_names self.now.parent_rows) }
    {
        let row = orphan(
            alloc,
            columns,
            self.columns,
            rows,
            self.parent_columns,
            self.parent_names,
            self.parent_rows,
        )?;
        Ok(row)
    }
}

/// The first of these keys that two rows have in common, in the order of the list, as the cause for which the rows are
/// refused. The error says that there was no memory.
pub fn unique_cause(
    alloc: Global,
    columns: &TableColumns,
    uniques: &[UniqueKey],
    rows: &JoinedRows,
) -> Result<Option<Cause>, AllocError>
    ensures { IfOk result (λ cause. cause ≡ unique_cause uniques.now columns.now rows.now) }
{
    for i in 0..uniques.len() {
        let key = &uniques[i];
        if let Some(pair) = repeated(alloc, columns, key.columns(), rows)? {
            return Ok(duplicate(key.name(), pair)?);
        }
    }
    Ok(None)
}

/// The key of this name on these columns, where two rows have it in common, as the cause for which the rows are
/// refused. The error says that there was no memory.
pub fn duplicate_cause(
    alloc: Global,
    columns: &TableColumns,
    name: &Name,
    names: &[Name],
    rows: &JoinedRows,
) -> Result<Option<Cause>, AllocError>
    ensures { IfOk result (λ cause. cause ≡ duplicate_or name.now (repeated columns.now names.now rows.now) None) }
{
    match repeated(alloc, columns, names, rows)? {
        Some(pair) => Ok(duplicate(name, pair)?),
        None => Ok(None),
    }
}

/// The foreign key of this name, where one of the rows has no parent, as the cause for which the rows are refused.
/// Each side has its columns and the key's names among them. The error says that there was no memory.
pub fn orphan_cause<'r>(
    alloc: Global,
    name: &Name,
    columns: &TableColumns,
    names: &[Name],
    rows: &'r [Row],
    parent_columns: &TableColumns,
    parent_names: &[Name],
    parent_rows: &JoinedRows<'r>,
) -> Result<Option<Cause>, AllocError>
    ensures { IfOk result (λ cause. cause ≡ orphan_or name.now (orphan columns.now names.now rows.now parent_columns.now parent_names.now parent_rows.now) None) }
{
    match orphan(
        alloc,
        columns,
        names,
        rows,
        parent_columns,
        parent_names,
        parent_rows,
    )? {
        Some(row) => Ok(no_parent(name, row)?),
        None => Ok(None),
    }
}

fn duplicate(name: &Name, pair: (u64, u64)) -> Result<Option<Cause>, AllocError>
    ensures { IfOk result (λ cause. cause ≡ Some (causes.Duplicate name.now pair.0 pair.1)) }
{
    let (first, second) = pair;
    Ok(Some(Cause::Duplicate {
        name: name.clone()?,
        first,
        second,
    }))
}

/// The first of these foreign keys for which one of the rows has no parent, in the order of the list, as the cause for
/// which the rows are refused. The error says that there was no memory.
pub fn parent_cause<'k>(
    alloc: Global,
    columns: &TableColumns,
    foreigns: &[ForeignKey<'k>],
    rows: &'k [Row],
) -> Result<Option<Cause>, AllocError>
    ensures { IfOk result (λ cause. cause ≡ parent_cause foreigns.now columns.now rows.now) }
{
    for i in 0..foreigns.len() {
        let key = &foreigns[i];
        if let Some(row) = key.first_orphan(alloc, columns, rows)? {
            return Ok(no_parent(key.name(), row)?);
        }
    }
    Ok(None)
}

fn no_parent(name: &Name, row: u64) -> Result<Option<Cause>, AllocError>
    ensures { IfOk result (λ cause. cause ≡ Some (causes.NoParent name.now row)) }
{
    Ok(Some(Cause::NoParent {
        name: name.clone()?,
        row,
    }))
}

/// Why a table can't have these rows, if it can't: the first of its unique keys that two of all rows have in common,
/// then the first of its foreign keys for which one of the added rows has no parent.
///
/// Both lists are in the order in which the keys are tried, by name. `rows` are all rows of the table, the added ones
/// too. The error says that there was no memory.
pub fn keys_cause<'k>(
    alloc: Global,
    columns: &TableColumns,
    uniques: &[UniqueKey],
    foreigns: &[ForeignKey<'k>],
    rows: &JoinedRows,
    added: &'k [Row],
) -> Result<Option<Cause>, AllocError>
    ensures { IfOk result (λ cause. cause ≡ keys_cause uniques.now foreigns.now columns.now rows.now added.now) }
{
    match unique_cause(alloc, columns, uniques, rows)? {
        Some(cause) => Ok(Some(cause)),
        None => Ok(parent_cause(alloc, columns, foreigns, added)?),
    }
}
