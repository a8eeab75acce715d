//! COPY.
ghost use Rattle.std.specs.Prelude.{◌≡◌, ◌<◌, Ok, length, All, IfOk};
ghost use Rattle.std.specs.FinMap.{entries, get};
ghost use Rattle.cat_model.specs.declared.class.Class.TheVariants as class;
ghost use Rattle.cat_model.specs.declared.key.Key.TheVariants as key;
ghost use Rattle.cat_model.specs.CopiedRows.{copied_rows};
ghost use Rattle.cat_model.specs.CopyEffect.{primary_columns, copy_rows};
ghost use Rattle.cat_model.specs.KeyEffects.{rows_in};
ghost use Rattle.cat_model.specs.Trees.{class_of, outcome, seen};
ghost use Rattle.copy_effects.specs.Keys.{cause_with, added_with, copied_with, copied_into};
ghost use Rattle.eng_steps.specs.Outcomes.{Steps};

use crate::foreigns::first_foreign_cause;
use crate::joined::rows_changes;
use crate::prepared::{Prepared, Source};
use crate::uniques::{first_unique_cause, primary_of};
use cat_model::{Cause, Column, Items, QName};
use copy_text::{Name, Row};
use eng_map::{Change, NamedMap};
use eng_steps::{ApplyError, needs_table};
use field_values::TableColumns;
use rows_fit::all_columns;
use std::alloc::{AllocError, Global};

// Why the table can't have the new rows behind its own, if it can't.
fn first_cause(
    alloc: Global,
    named: &NamedMap,
    q: &QName,
    columns: &TableColumns<'_>,
    new: &Items<Row>,
) -> Result<Option<Cause>, AllocError>
    ensures { IfOk result (λ because. because ≡ cause_with (seen named.now) q.now columns.now (entries (class_of named.now (class.Constraints q.now))) (entries (class_of named.now (class.Indexes q.now))) (rows_in (get named.now (key.Rows q.now))) new.now) }
{
    match first_unique_cause(alloc, named, q, columns, new)? {
        Some(cause) => Ok(Some(cause)),
        None => Ok(first_foreign_cause(alloc, named, q, columns, new)?),
    }
}

// The new rows are tried against the keys of the table; then they stand behind the old ones.
fn rows_added(
    alloc: Global,
    named: &NamedMap,
    q: &QName,
    columns: &TableColumns<'_>,
    new: Items<Row>,
) -> Result<Vec<Change>, ApplyError>
    requires { All (λ row. 0 < length row) new }
    ensures { Steps result (outcome (added_with q.now columns.now (entries (class_of named.now (class.Constraints q.now))) (entries (class_of named.now (class.Indexes q.now))) (rows_in (get named.now (key.Rows q.now))) (Ok new)) (seen named.now)) (λ changes. Ok changes.items) }
{
    match first_cause(alloc, named, q, columns, &new)? {
        Some(cause) => Err(ApplyError::Refused(cause)),
        None => Ok(rows_changes(alloc, named, q, new)?),
    }
}

// The rows of the text, or the cause for which it is refused.
fn rows_read(
    alloc: Global,
    named: &NamedMap,
    q: &QName,
    columns: &TableColumns<'_>,
    names: &[Name],
    source: Source<'_>,
) -> Result<Result<Items<Row>, Cause>, AllocError>
    ensures rows { IfOk result (λ rows. rows ≡ copied_rows columns.now names.now (primary_columns (entries (class_of named.now (class.Constraints q.now)))) source.entry) }
    ensures full { IfOk result (λ rows. IfOk rows (λ new. All (λ row. 0 < length row) new)) }
{
    let primary = primary_of(named, q)?;
    source.copied(alloc, columns, names, primary)
}

fn copied_with(
    alloc: Global,
    named: &NamedMap,
    q: &QName,
    columns: &TableColumns<'_>,
    names: &[Name],
    source: Source<'_>,
) -> Result<Vec<Change>, ApplyError>
    ensures { Steps result (outcome (copied_with q.now columns.now names.now source.entry) (seen named.now)) (λ changes. Ok changes.items) }
{
    match rows_read(alloc, named, q, columns, names, source)? {
        Ok(new) => rows_added(alloc, named, q, columns, new),
        Err(cause) => Err(ApplyError::Refused(cause)),
    }
}

fn copied_among(
    alloc: Global,
    named: &NamedMap,
    q: &QName,
    columns: &TableColumns<'_>,
    names: &[Name],
    source: Source<'_>,
) -> Result<Vec<Change>, ApplyError>
    ensures { Steps result (outcome (copied_into q.now names.now source.entry columns.now) (seen named.now)) (λ changes. Ok changes.items) }
{
    if !all_columns(alloc, columns, names)? {
        return Err(ApplyError::Refused(Cause::WrongColumns));
    }
    Ok(copied_with(alloc, named, q, columns, names, source)?)
}

fn copied_into(
    alloc: Global,
    named: &NamedMap,
    q: &QName,
    columns: &[Column],
    names: &[Name],
    source: Source<'_>,
) -> Result<Vec<Change>, ApplyError>
    ensures { Steps result (outcome (copied_into q.now names.now source.entry columns.now) (seen named.now)) (λ changes. Ok changes.items) }
{
    let table = TableColumns::new(alloc, columns)?;
    copied_among(alloc, named, q, &table, names, source)
}

/// COPY of rows into a table. The rows of the text are read one by one, then all rows of the table are tried against its
/// keys, and the new ones against those of their parents.
///
/// The change has all rows of the table. `names` are the columns of the text's fields; where there are none, all the
/// table's in order. See <https://www.postgresql.org/docs/16/sql-copy.html>.
pub fn copy_rows(
    alloc: Global,
    named: &NamedMap,
    q: &QName,
    names: &[Name],
    text: &[u8],
) -> Result<Vec<Change>, ApplyError>
    ensures { Steps result (outcome (copy_rows q.now names.now text.now) (seen named.now)) (λ changes. Ok changes.items) }
{
    let columns = needs_table(named, q)?;
    let source = Source::of_text(text);
    Ok(copied_into(alloc, named, q, columns, names, source)?)
}

/// The same for a text that was prepared: its rows are not read again.
pub fn copy_prepared(
    alloc: Global,
    named: &NamedMap,
    q: &QName,
    names: &[Name],
    prepared: Prepared<'_>,
) -> Result<Vec<Change>, ApplyError>
    ensures { Steps result (outcome (copy_rows q.now names.now prepared.entry) (seen named.now)) (λ changes. Ok changes.items) }
{
    let columns = needs_table(named, q)?;
    let source = Source::of_prepared(prepared);
    Ok(copied_into(alloc, named, q, columns, names, source)?)
}
