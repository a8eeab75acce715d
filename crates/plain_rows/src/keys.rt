//! The keys of the lines of a text in one column.
ghost use Rattle.std.specs.Prelude.{◌≡◌, ◌∷◌, ℕ, List, Option, Some, true, [], IfOk, IfSome, IsTrue, OnOk, false};
ghost use Rattle.std.specs.List.{list_any, slice_get};
ghost use Rattle.std.specs.Option.{option_map, option_copied};
ghost use Rattle.copy_text.specs.Lines.{data_lines};
ghost use Rattle.copy_text.specs.Reading.{row_of};
ghost use Rattle.copy_text.specs.Rows.{Field};
ghost use Rattle.copy_text.specs.Texts.{IsText};
ghost use Rattle.cat_model.specs.Lexemes.{same_text};
ghost use Rattle.row_keys.specs.ByPlaces.{field_at};
ghost use Rattle.std.specs.declared.cmp.Ordering.TheVariants.{Less};
ghost use Rattle.plain_rows.specs.Lines.{HasAtMost, line_key, line_keys, none_again, same_some, AreAmong, AreKnown, all_among, by_length, AreUpTo};

use crate::clear_keys::{clear_key_set, clear_keys_are_among, clear_keys_differ, clear_keys_rise};
use data_rows::split_line;
use field_marks::is_clear_text;
use field_values::{ColumnValues, TableColumns};
use key_sets::KeySet;
use line_fields::{has_text_lines, is_clear, line_field};
use row_fields::PlainRow;
use std::alloc::{AllocError, Global};
use std::cmp::Ordering;

pub(crate) fn column_at<'c, 'a>(
    columns: &'c [ColumnValues<'a>],
    place: usize,
) -> Option<&'c ColumnValues<'a>>
    ensures { option_copied result ≡ slice_get columns.now place }
{
    columns.get(place)
}

// The field of a row at a place, as the column there compares it; `None` where it is null.
fn key_of<'t>(columns: &TableColumns, place: usize, row: &PlainRow<'t>) -> Option<&'t [u8]>
    ensures { option_map (λ t. t.now) result ≡ field_at columns.now (Some place) row.now }
{
    let column = column_at(columns.as_slice(), place)?;
    let text = row.field(place)??;
    Some(column.compared(text))
}

// The key of a line as it reads, which may be null; the outer `None` where the line's fields don't stand in it as they are.
fn read_key<'t>(
    columns: &TableColumns,
    place: usize,
    plain: &mut PlainRow<'t>,
    line: &'t [u8],
) -> Result<Option<Option<&'t [u8]>>, AllocError>
    ensures { IfOk result (λ found. IfSome found (λ key. option_map (λ t. t.now) key ≡ line_key columns.now place line.now)) }
{
    if plain.read(line)? {
        Ok(Some(key_of(columns, place, plain)))
    } else {
        Ok(None)
    }
}

// The key of a line if it reads, where no backslash stands before its end. What follows it isn't looked at.
fn quick_key<'t>(columns: &TableColumns, place: usize, line: &'t [u8]) -> Option<&'t [u8]>
    ensures { IfSome result (λ key. (row : List Field) → row_of line.now ≡ Ok row → field_at columns.now (Some place) row ≡ Some key.now) }
{
    let column = column_at(columns.as_slice(), place)?;
    let text = line_field(line, place)?;
    Some(column.compared(text))
}

// The key of a line that has no other, if it has one; the outer `None` where that can't be told.
fn key_in<'t>(
    columns: &TableColumns,
    place: usize,
    plain: &mut PlainRow<'t>,
    line: &'t [u8],
) -> Result<Option<Option<&'t [u8]>>, AllocError>
    ensures { IfOk result (λ found. IfSome found (λ key. HasAtMost (option_map (λ t. t.now) key) (line_key columns.now place line.now))) }
{
    match quick_key(columns, place, line) {
        Some(key) => Ok(Some(Some(key))),
        None => read_key(columns, place, plain, line),
    }
}

// The key of a line that is UTF-8, which may be null; the outer `None` where it can't be told.
fn exact_key<'t>(
    columns: &TableColumns,
    place: usize,
    plain: &mut PlainRow<'t>,
    line: &'t [u8],
) -> Result<Option<Option<&'t [u8]>>, AllocError>
    ensures { IfOk result (λ found. IfSome found (λ key. IsText line.now → option_map (λ t. t.now) key ≡ line_key columns.now place line.now)) }
{
    if !is_clear(line) {
        return read_key(columns, place, plain, line);
    }
    match quick_key(columns, place, line) {
        Some(key) => Ok(Some(Some(key))),
        None => Ok(None),
    }
}

// How many numbers have places in the set of a text's keys: as many as it has bytes, which serves a sequence of them whose
// lines have eleven bytes or more, and at most as many as have seven digits.
pub(crate) fn number_places(text: &[u8]) -> usize {
    text.len().min(20_000_000)
}

// Adds a key that isn't null; whether it is new, so that what is so of the keys behind it is so of it and them.
fn add_new<'t>(seen: &mut KeySet<'t>, key: Option<&'t [u8]>) -> Result<bool, AllocError>
    ensures { IfOk result (λ new. IsTrue new → (known : List (List ℕ)) (more : List (Option (List ℕ))) → AreKnown known seen.old
        → (after : List (List ℕ)) × AreKnown after seen.new × (none_again after more ≡ true → none_again known (option_map (λ t. t.now) key.entry ∷ more) ≡ true)) }
{
    match key {
        Some(key) => Ok(add_new_key(seen, key)?),
        None => Ok(true),
    }
}

pub(crate) fn add_new_key<'t>(seen: &mut KeySet<'t>, key: &'t [u8]) -> Result<bool, AllocError>
    ensures new { IfOk result (λ new. IsTrue new → (known : List (List ℕ)) → AreKnown known seen.old → list_any (same_text key.now) known ≡ false) }
    ensures added { OnOk result ((known : List (List ℕ)) → AreKnown known seen.old → AreKnown (key.now ∷ known) seen.new) }
{
    Ok(seen.insert(key)?)
}

// Whether no two lines of a text that has an escape, or none, have one key.
fn read_keys_differ(
    alloc: Global,
    columns: &TableColumns,
    place: usize,
    text: &[u8],
) -> Result<bool, AllocError>
    ensures { IfOk result (λ differ. IsTrue differ → none_again [] (line_keys columns.now place text.now) ≡ true) }
{
    let mut plain = PlainRow::new(alloc);
    let mut seen = KeySet::new(alloc, number_places(text))?;
    let mut rest = text;
    'lines: while let Some((line, behind)) = split_line(rest) {
        let Some(key) = key_in(columns, place, &mut plain, line)? else {
            return Ok(false);
        };
        if !add_new(&mut seen, key)? {
            return Ok(false);
        }
        rest = behind;
    }
    Ok(true)
}

/// Whether no two lines of a text, up to its end mark, have one key in the column at this place; a null is no key. It may
/// say no of a text that has a line whose fields don't stand in it as they are, or that has none at the place. The error is
/// that memory ran out.
pub fn keys_differ(
    alloc: Global,
    columns: &TableColumns,
    place: usize,
    text: &[u8],
) -> Result<bool, AllocError>
    ensures { IfOk result (λ differ. IsTrue differ → none_again [] (line_keys columns.now place text.now) ≡ true) }
{
    if is_clear_text(text) {
        return clear_keys_differ(alloc, columns, place, text);
    }
    read_keys_differ(alloc, columns, place, text)
}

// How two keys stand by their lengths, and of one length by their bytes.
fn by_length(a: &[u8], b: &[u8]) -> Ordering
    ensures { result ≡ by_length a.now b.now }
{
    match a.len().cmp(&b.len()) {
        Ordering::Equal => a.cmp(b),
        order => order,
    }
}

// Takes in a key that stands behind the last one.
pub(crate) fn rise_to<'t>(last: &mut Option<&'t [u8]>, key: &'t [u8]) -> bool
    ensures new { IsTrue result → (known : List (List ℕ)) → AreUpTo last.old known → list_any (same_text key.now) known ≡ false }
    ensures risen { IsTrue result → (known : List (List ℕ)) → AreUpTo last.old known → AreUpTo last.new (key.now ∷ known) }
{
    if !is_behind(*last, key) {
        return false;
    }
    *last = Some(key);
    true
}

// Whether a key stands behind the last one, if there is one.
fn is_behind(last: Option<&[u8]>, key: &[u8]) -> bool
    ensures { IsTrue result → IfSome last.entry (λ l. by_length l.now key.now ≡ Less) }
{
    match last {
        Some(last) => matches!(by_length(last, key), Ordering::Less),
        None => true,
    }
}

// The same of a key that may be null; so that what is so of the keys behind it is so of it and them.
fn rise<'t>(last: &mut Option<&'t [u8]>, key: Option<&'t [u8]>) -> bool
    ensures { IsTrue result → (known : List (List ℕ)) (more : List (Option (List ℕ))) → AreUpTo last.old known
        → (after : List (List ℕ)) × AreUpTo last.new after × (none_again after more ≡ true → none_again known (option_map (λ t. t.now) key.entry ∷ more) ≡ true) }
{
    match key {
        Some(key) => rise_to(last, key),
        None => true,
    }
}

// Whether the keys of the lines of a text that has an escape, or none, rise, so that no two lines have one key.
fn read_keys_rise(
    alloc: Global,
    columns: &TableColumns,
    place: usize,
    text: &[u8],
) -> Result<bool, AllocError>
    ensures { IfOk result (λ rise. IsTrue rise → none_again [] (line_keys columns.now place text.now) ≡ true) }
{
    let mut plain = PlainRow::new(alloc);
    let mut last = None;
    let mut rest = text;
    'lines: while let Some((line, behind)) = split_line(rest) {
        let Some(key) = key_in(columns, place, &mut plain, line)? else {
            return Ok(false);
        };
        if !rise(&mut last, key) {
            return Ok(false);
        }
        rest = behind;
    }
    Ok(true)
}

/// Whether the keys of the lines of a text, up to its end mark, rise in the column at this place, so that no two lines have one
/// key: each is longer than those before it, or as long and greater byte by byte, as numbers of a sequence are. A null is no
/// key. It may say no of a text that has a line whose fields don't stand in it as they are, or that has none at the place. It
/// takes no memory for the keys; the error is that there was none for a line's fields.
pub fn keys_rise(
    alloc: Global,
    columns: &TableColumns,
    place: usize,
    text: &[u8],
) -> Result<bool, AllocError>
    ensures { IfOk result (λ rise. IsTrue rise → none_again [] (line_keys columns.now place text.now) ≡ true) }
{
    if is_clear_text(text) {
        return Ok(clear_keys_rise(columns, place, text));
    }
    read_keys_rise(alloc, columns, place, text)
}

// Adds a key that isn't null.
pub(crate) fn add_key<'t>(keys: &mut KeySet<'t>, key: Option<&'t [u8]>) -> Result<(), AllocError>
    ensures { OnOk result ((all : List (Option (List ℕ))) → AreAmong all keys.old → ((q : List ℕ) → same_some q (option_map (λ t. t.now) key.entry) ≡ true → list_any (same_some q) all ≡ true) → AreAmong all keys.new) }
{
    if let Some(key) = key {
        keys.insert(key)?;
    }
    Ok(())
}

// The keys of the lines of a text that has an escape, or none; `None` where a line's fields don't stand in it as they are.
fn read_key_set<'t>(
    alloc: Global,
    columns: &TableColumns,
    place: usize,
    text: &'t [u8],
) -> Result<Option<KeySet<'t>>, AllocError>
    ensures { IfOk result (λ found. IfSome found (λ set. AreAmong (line_keys columns.now place text.now) set)) }
{
    if !has_text_lines(text) {
        return Ok(None);
    }
    let mut plain = PlainRow::new(alloc);
    let mut keys = KeySet::new(alloc, number_places(text))?;
    let mut rest = text;
    'lines: while let Some((line, behind)) = split_line(rest) {
        let Some(key) = exact_key(columns, place, &mut plain, line)? else {
            return Ok(None);
        };
        add_key(&mut keys, key)?;
        rest = behind;
    }
    Ok(Some(keys))
}

/// The keys of the lines of a text, up to its end mark, in the column at this place; `None` for a text that isn't UTF-8 or has
/// a line whose fields don't stand in it as they are. The error is that memory ran out.
pub fn key_set<'t>(
    alloc: Global,
    columns: &TableColumns,
    place: usize,
    text: &'t [u8],
) -> Result<Option<KeySet<'t>>, AllocError>
    ensures { IfOk result (λ found. IfSome found (λ set. AreAmong (line_keys columns.now place text.now) set)) }
{
    if is_clear_text(text) {
        return clear_key_set(alloc, columns, place, text);
    }
    read_key_set(alloc, columns, place, text)
}

// Whether a key is one of the parents', or null.
#[inline(always)]
pub(crate) fn is_among(parents: &KeySet<'_>, key: Option<&[u8]>) -> bool
    ensures { IsTrue result → (all more : List (Option (List ℕ))) → AreAmong all parents.now → all_among all more ≡ true → all_among all (option_map (λ t. t.now) key.entry ∷ more) ≡ true }
{
    match key {
        Some(key) => parents.contains(key),
        None => true,
    }
}

// Whether the key of each line of a text that has an escape, or none, is one of these, or null.
fn read_keys_are_among(
    alloc: Global,
    columns: &TableColumns,
    place: usize,
    text: &[u8],
    parents: &KeySet<'_>,
) -> Result<bool, AllocError>
    ensures { IfOk result (λ among. IsTrue among → (all : List (Option (List ℕ))) → AreAmong all parents.now → all_among all (line_keys columns.now place text.now) ≡ true) }
{
    let mut plain = PlainRow::new(alloc);
    let mut rest = text;
    'lines: while let Some((line, behind)) = split_line(rest) {
        let Some(key) = key_in(columns, place, &mut plain, line)? else {
            return Ok(false);
        };
        if !is_among(parents, key) {
            return Ok(false);
        }
        rest = behind;
    }
    Ok(true)
}

/// Whether the key of each line of a text, up to its end mark, in the column at this place is one of these, or null. It may
/// say no of a text that has a line whose fields don't stand in it as they are, or that has none at the place. The error is
/// that memory ran out.
pub fn keys_are_among(
    alloc: Global,
    columns: &TableColumns,
    place: usize,
    text: &[u8],
    parents: &KeySet<'_>,
) -> Result<bool, AllocError>
    ensures { IfOk result (λ among. IsTrue among → (all : List (Option (List ℕ))) → AreAmong all parents.now → all_among all (line_keys columns.now place text.now) ≡ true) }
{
    if is_clear_text(text) {
        return Ok(clear_keys_are_among(columns, place, text, parents));
    }
    read_keys_are_among(alloc, columns, place, text, parents)
}
