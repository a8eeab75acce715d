//! What the rows of pg_sequence and pg_rewrite give.
ghost use Rattle.std.specs.Prelude.{◌≡◌, [], ◌∷◌, ◌++◌, OnOk};
ghost use Rattle.std.specs.List.{flat_map};
ghost use Rattle.cat_model.specs.declared.key.Key.TheVariants as key;
ghost use Rattle.cat_model.specs.declared.value.Value.TheVariants as value;
ghost use Rattle.constraint_table.specs.Sequences.{numbers};
ghost use Rattle.cat_naming.specs.Relations.{owner_entries, sequence_entries, body_entries};

use cat_lookups::Lookups;
use cat_model::{Key, QName, Sequence, SequenceKind, Value};
use cat_rows::{RewriteRow, SequenceRow};
use eng_map::{Entries, push_entry};
use row_texts::{sequence_kind, view_body};
use std::alloc::{AllocError, Global};

// The numbers of a sequence of this type.
fn numbers(kind: SequenceKind, row: &SequenceRow) -> Sequence
    ensures { result ≡ numbers kind row.now }
{
    Sequence {
        kind,
        start: row.seqstart,
        step: row.seqincrement,
        min: row.seqmin,
        max: row.seqmax,
        cache: row.seqcache,
        cycle: row.seqcycle,
    }
}

// Adds a sequence under its path.
fn push_numbers(
    entries: &mut Entries,
    path: &QName,
    kind: SequenceKind,
    row: &SequenceRow,
) -> Result<(), AllocError>
    ensures { OnOk result (entries.new.items ≡ entries.old.items ++ (key.Rel path.now, value.Sequence (numbers kind row.now)) ∷ []) }
{
    let path = path.clone()?;
    push_entry(entries, Key::Rel(path), Value::Sequence(numbers(kind, row)))
}

// Adds the value of a sequence under its path.
fn push_last_value(entries: &mut Entries, path: &QName, row: &SequenceRow) -> Result<(), AllocError>
    ensures { OnOk result (entries.new.items ≡ entries.old.items ++ (key.SeqVal path.now, value.SequenceValue row.now.last_value row.now.is_called) ∷ []) }
{
    let path = path.clone()?;
    let value = Value::SequenceValue(row.last_value, row.is_called);
    push_entry(entries, Key::SeqVal(path), value)
}

// Adds the column that owns a sequence, if one does.
fn push_sequence_owner(
    entries: &mut Entries,
    lookups: &Lookups<'_>,
    row: &SequenceRow,
    path: &QName,
) -> Result<(), AllocError>
    ensures { OnOk result (entries.new.items ≡ entries.old.items ++ owner_entries lookups.now row.now path.now) }
{
    if row.ownrel == 0 {
        return Ok(());
    }
    let Some(table) = lookups.book().class_path_of(row.ownrel)? else {
        return Ok(());
    };
    let Some(column) = lookups.column_name(row.ownrel, row.owncol) else {
        return Ok(());
    };
    let path = path.clone()?;
    let column = column.clone()?;
    push_entry(entries, Key::OwnedBy(path), Value::OwnedBy(table, column))
}

// Adds a sequence with its value and its owner.
fn push_sequence(
    alloc: Global,
    entries: &mut Entries,
    lookups: &Lookups<'_>,
    row: &SequenceRow,
) -> Result<(), AllocError>
    ensures { OnOk result (entries.new.items ≡ entries.old.items ++ sequence_entries lookups.now row.now) }
{
    let Some(path) = lookups.book().class_path_of(row.seqrelid)? else {
        return Ok(());
    };
    let Some(kind) = sequence_kind(alloc, row.seqtype.as_bytes())? else {
        return Ok(());
    };
    push_numbers(entries, &path, kind, row)?;
    push_last_value(entries, &path, row)?;
    push_sequence_owner(entries, lookups, row, &path)
}

/// Adds what the sequences give.
pub(crate) fn add_sequences(
    alloc: Global,
    entries: &mut Entries,
    lookups: &Lookups<'_>,
    rows: &[SequenceRow],
) -> Result<(), AllocError>
    ensures { OnOk result (entries.new.items ≡ entries.old.items ++ flat_map (sequence_entries lookups.now) rows.now) }
{
    for row in rows {
        push_sequence(alloc, entries, lookups, row)?;
    }
    Ok(())
}

// Adds the body of a view.
fn push_body(
    alloc: Global,
    entries: &mut Entries,
    lookups: &Lookups<'_>,
    row: &RewriteRow,
) -> Result<(), AllocError>
    ensures { OnOk result (entries.new.items ≡ entries.old.items ++ body_entries lookups.now row.now) }
{
    let Some(path) = lookups.book().class_path_of(row.ev_class)? else {
        return Ok(());
    };
    let Some(body) = view_body(alloc, row.viewdef.as_bytes())? else {
        return Ok(());
    };
    push_entry(entries, Key::Body(path), Value::Body(body))
}

/// Adds what the bodies of views give.
pub(crate) fn add_bodies(
    alloc: Global,
    entries: &mut Entries,
    lookups: &Lookups<'_>,
    rows: &[RewriteRow],
) -> Result<(), AllocError>
    ensures { OnOk result (entries.new.items ≡ entries.old.items ++ flat_map (body_entries lookups.now) rows.now) }
{
    for row in rows {
        push_body(alloc, entries, lookups, row)?;
    }
    Ok(())
}
