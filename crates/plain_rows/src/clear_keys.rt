//! The keys of the lines of a text without an escape, in one column.
ghost use Rattle.std.specs.Prelude.{◌≡◌, ◌<◌, ◌≤◌, ◌-◌, ℕ, List, [], Option, true, length, IfOk, IfSome, IsTrue};
ghost use Rattle.line_fields.specs.Clear.{IsClearText};
ghost use Rattle.plain_rows.specs.Lines.{AreAmong, HasFirst, all_among, line_keys, none_again};

use crate::keys::{add_key, add_new_key, column_at, is_among, number_places, rise_to};
use field_marks::{TextAhead, line_piece};
use field_values::TableColumns;
use key_sets::KeySet;
use std::alloc::{AllocError, Global};

// The key of a text's first line in the column at a place, and what stands behind the line.
#[inline(always)]
fn first_key<'t>(
    columns: &TableColumns,
    place: usize,
    text: TextAhead<'t>,
) -> Option<(&'t [u8], TextAhead<'t>)>
    ensures first { IfSome result (λ p. IsClearText text.entry → 0 < length text.entry → HasFirst columns.now place text.entry p.0.now p.1) }
    ensures shorter { IfSome result (λ p. length p.1 ≤ length text.entry - 1) }
{
    let column = column_at(columns.as_slice(), place)?;
    let Some((piece, behind)) = line_piece(text, place) else {
        return None;
    };
    Some((column.compared(piece), behind))
}

/// Whether the keys of the lines of a text without an escape rise, so that no two lines have one key.
pub(crate) fn clear_keys_rise(columns: &TableColumns, place: usize, text: &[u8]) -> bool
    ensures { IsTrue result → IsClearText text.now → none_again [] (line_keys columns.now place text.now) ≡ true }
{
    let mut last = None;
    let mut rest = TextAhead::new(text);
    'lines: while !rest.is_empty() {
        let Some((key, behind)) = first_key(columns, place, rest) else {
            return false;
        };
        if !rise_to(&mut last, key) {
            return false;
        }
        rest = behind;
    }
    true
}

/// Whether no two lines of a text without an escape have one key.
pub(crate) fn clear_keys_differ(
    alloc: Global,
    columns: &TableColumns,
    place: usize,
    text: &[u8],
) -> Result<bool, AllocError>
    ensures { IfOk result (λ differ. IsTrue differ → IsClearText text.now → none_again [] (line_keys columns.now place text.now) ≡ true) }
{
    let mut seen = KeySet::new(alloc, number_places(text))?;
    let mut rest = TextAhead::new(text);
    'lines: while !rest.is_empty() {
        let Some((key, behind)) = first_key(columns, place, rest) else {
            return Ok(false);
        };
        if !add_new_key(&mut seen, key)? {
            return Ok(false);
        }
        rest = behind;
    }
    Ok(true)
}

/// The keys of the lines of a text without an escape; `None` where a line has no field at the place.
pub(crate) fn clear_key_set<'t>(
    alloc: Global,
    columns: &TableColumns,
    place: usize,
    text: &'t [u8],
) -> Result<Option<KeySet<'t>>, AllocError>
    ensures { IfOk result (λ found. IfSome found (λ set. IsClearText text.now → AreAmong (line_keys columns.now place text.now) set)) }
{
    let mut keys = KeySet::new(alloc, number_places(text))?;
    let mut rest = TextAhead::new(text);
    'lines: while !rest.is_empty() {
        let Some((key, behind)) = first_key(columns, place, rest) else {
            return Ok(None);
        };
        add_key(&mut keys, Some(key))?;
        rest = behind;
    }
    Ok(Some(keys))
}

/// Whether the key of each line of a text without an escape is one of these.
pub fn clear_keys_are_among(
    columns: &TableColumns,
    place: usize,
    text: &[u8],
    parents: &KeySet<'_>,
) -> bool
    ensures { IsTrue result → IsClearText text.now → (all : List (Option (List ℕ))) → AreAmong all parents.now → all_among all (line_keys columns.now place text.now) ≡ true }
{
    let mut rest = TextAhead::new(text);
    'lines: while !rest.is_empty() {
        let Some((key, behind)) = first_key(columns, place, rest) else {
            return false;
        };
        if !is_among(parents, Some(key)) {
            return false;
        }
        rest = behind;
    }
    true
}
