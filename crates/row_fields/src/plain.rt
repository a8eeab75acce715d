//! Lines whose fields stand for themselves.
ghost use Rattle.std.specs.Prelude.{◌≡◌, [], ◌∷◌, ◌++◌, ◌+◌, ◌<◌, ◌≤◌, ℕ, Ok, IfOk, IfSome, IsTrue, List, OnOk, length, map, take};
ghost use Rattle.std.specs.List.{slice_get};
ghost use Rattle.std.specs.Option.{option_map};
ghost use Rattle.copy_text.specs.Marks.{backslash, null_mark};
ghost use Rattle.copy_text.specs.Pieces.{IsFirstPiece};
ghost use Rattle.copy_text.specs.Reading.{field_of, row_of};
ghost use Rattle.row_fields.specs.Plain.{IsPlainFirst};

use memchr::memchr3;
use std::alloc::{AllocError, Global};
use std::marker::Model;

/// The fields of a row, each null or a slice of its line. A contract sees the list of the fields.
#[derive(Drop)]
pub struct PlainRow<'t> {
    fields: Vec<Option<&'t [u8]>>,
}

impl<'t> Model for PlainRow<'t> {
    ghost use Rattle.std.specs.Prelude.{List, map};
    ghost use Rattle.std.specs.Option.{option_map};
    ghost use Rattle.copy_text.specs.Rows.{Field};

    ghost Value = { List Field };

    ghost view = { λ r. map (λ f. option_map (λ t. t.now) f) r.fields.items };
}

impl<'t> PlainRow<'t> {
    /// A row without fields. It takes no memory.
    pub fn new(alloc: Global) -> PlainRow<'t>
        ensures { result ≡ [] }
    {
        PlainRow {
            fields: Vec::new(alloc),
        }
    }

    /// Reads the row of a line in place of what it held, where the line can be taken as it stands: true says that these are
    /// the fields of the line's row. Of a line with an escape, a raw carriage return or bytes that aren't UTF-8 the answer
    /// is false, and says nothing of the line. Memory is taken only for a row longer than those before it.
    ///
    /// The error is that memory ran out.
    pub fn read(&mut self, line: &'t [u8]) -> Result<bool, AllocError>
        ensures { IfOk result (λ plain. IsTrue plain → row_of line.now ≡ Ok self.new) }
    {
        self.fields.clear();
        read_pieces(&mut self.fields, line)
    }

    /// How many fields it has.
    pub fn len(&self) -> usize
        ensures { result ≡ length self.now }
    {
        self.fields.len()
    }

    /// The field at a place, counted from 0; `None` past the last one.
    pub fn field(&self, place: usize) -> Option<Option<&'t [u8]>>
        ensures { option_map (λ f. option_map (λ t. t.now) f) result ≡ slice_get self.now place }
    {
        self.fields.get(place).copied()
    }

    /// The fields.
    pub fn fields(&self) -> &[Option<&'t [u8]>]
        ensures { map (λ f. option_map (λ t. t.now) f) result.now ≡ self.now }
    {
        &self.fields
    }
}

// How long the first piece of a line is, where it has neither a backslash nor a carriage return.
fn plain_len(rest: &[u8]) -> Option<usize>
    ensures { IfSome result (λ n. IsPlainFirst rest.now n) }
{
    match memchr3(b'\t', b'\\', b'\r', rest) {
        Some(at) => { if rest[at] == b'\t' { Some(at) } else { None } }
        None => Some(rest.len()),
    }
}

// Whether these are the two bytes that spell null.
fn spell_null(a: u8, n: u8) -> bool
    ensures first { IsTrue result → a ≡ backslash }
    ensures second { IsTrue result → n ≡ 78 }
{
    a == b'\\' && n == b'N'
}

// Whether the first piece of a line is the one that spells null.
fn is_null_first(rest: &[u8]) -> bool
    ensures piece { IsTrue result → IsFirstPiece rest.now 2 }
    ensures null { IsTrue result → take 2 rest.now ≡ null_mark }
{
    match rest {
        [a, n] => spell_null(*a, *n),
        [a, n, tab, ..] => spell_null(*a, *n) && *tab == b'\t',
        _ => false,
    }
}

// The field of the first piece of a line, and how long the piece is, where it stands for itself or spells null.
fn plain_piece(rest: &[u8]) -> Option<(Option<&[u8]>, usize)>
    ensures field { IfSome result (λ p. (start : ℕ) → field_of start (take p.1 rest.now) ≡ Ok (option_map (λ t. t.now) p.0)) }
    ensures piece { IfSome result (λ p. IsFirstPiece rest.now p.1) }
{
    let Some(len) = plain_len(rest) else {
        if is_null_first(rest) {
            return Some((None, 2));
        }
        return None;
    };
    let (piece, _) = rest.split_at(len);
    if str::from_utf8(piece).is_ok() {
        Some((Some(piece), len))
    } else {
        None
    }
}

// Adds the fields of a line, if all of its pieces can be taken as they stand.
fn read_pieces<'t>(fields: &mut Vec<Option<&'t [u8]>>, line: &'t [u8]) -> Result<bool, AllocError>
    requires { fields.old.items ≡ [] }
    ensures { IfOk result (λ plain. IsTrue plain → row_of line.now ≡ Ok (map (λ f. option_map (λ t. t.now) f) fields.new.items)) }
{
    let mut start = 0;
    'pieces: loop {
        let (_, rest) = line.split_at(start);
        let Some((field, len)) = plain_piece(rest) else {
            return Ok(false);
        };
        fields.push(field)?;
        if len == rest.len() {
            return Ok(true);
        }
        start += len + 1;
    }
}
