//! Rows as lines: the one spelling that is written.
ghost use Rattle.std.specs.Prelude.{◌≡◌, ◌<◌, [], ◌∷◌, ◌++◌, length, OnOk, OnErr, unwrap_or, nat_lt, if◌then◌else◌};
ghost use Rattle.std.specs.List.{All, position};
ghost use Rattle.copy_text.specs.Marks.{tab, newline};
ghost use Rattle.copy_text.specs.Rows.{IsField, Extends, letter_of, is_escaped, spell_text, spell_field, spell_row, SpellsRow};

use crate::text::Text;
use std::alloc::AllocError;

// The whole piece that spells null.
const NULL: &[u8; 2] = b"\\N";

/// Appends the row's one written spelling and a newline: a tab between fields, `\N` for null, and exactly the
/// backslash and the control characters BS, tab, LF, VT, FF and CR escaped, each by its letter. After an `Err`
/// nothing was appended. https://www.postgresql.org/docs/16/sql-copy.html
pub fn write_row(row: &[Option<Text>], out: &mut Vec<u8>) -> Result<(), AllocError>
    ensures ok { OnOk result (out.new.items ≡ out.old.items ++ (spell_row row.now ++ newline ∷ [])) }
    ensures err { OnErr result (out.new.items ≡ out.old.items) }

    // What was written reads as the row.
    ensures reads { OnOk result (0 < length row.now → SpellsRow row.now (spell_row row.now)) }
{
    let len = out.len();
    let written = write_line(row, out);
    if written.is_err() {
        out.truncate(len);
    }
    written
}

fn write_line(row: &[Option<Text>], out: &mut Vec<u8>) -> Result<(), AllocError>
    ensures ok { OnOk result (out.new.items ≡ out.old.items ++ (spell_row row.now ++ newline ∷ [])) }
    ensures kept { Extends out.old.items out.new.items }
    ensures fields { OnOk result (All IsField row.now) }
{
    for (i, field) in row.iter().enumerate() {
        write_separator(i, out)?;
        write_field(field, out)?;
    }
    out.push(b'\n')?;
    Ok(())
}

// A tab before each field but the first.
fn write_separator(i: usize, out: &mut Vec<u8>) -> Result<(), AllocError>
    ensures ok { OnOk result (out.new.items ≡ out.old.items ++ (if nat_lt 0 i then tab ∷ [] else [])) }
    ensures err { OnErr result (out.new.items ≡ out.old.items) }
{
    if i > 0 {
        out.push(b'\t')?;
    }
    Ok(())
}

fn write_field(field: &Option<Text>, out: &mut Vec<u8>) -> Result<(), AllocError>
    ensures ok { OnOk result (out.new.items ≡ out.old.items ++ spell_field field.now) }
    ensures kept { Extends out.old.items out.new.items }
    ensures field { IsField field.now }
{
    match field {
        None => out.extend_from_slice(NULL),
        Some(text) => write_text(text.as_bytes(), out),
    }
}

fn write_text(text: &[u8], out: &mut Vec<u8>) -> Result<(), AllocError>
    ensures ok { OnOk result (out.new.items ≡ out.old.items ++ spell_text text.now) }
    ensures kept { Extends out.old.items out.new.items }
{
    let mut rest = text;
    while let Some(at) = first_escaped(rest) {
        let (run, behind) = rest.split_at(at);
        out.extend_from_slice(run)?;
        out.extend_from_slice(&[b'\\', letter(behind[0])])?;
        (_, rest) = behind.split_at(1);
    }
    out.extend_from_slice(rest)
}

fn first_escaped(text: &[u8]) -> Option<usize>
    ensures { result ≡ position is_escaped text.now }
{
    text.iter().position(|b| matches!(*b, 8..=13 | b'\\'))
}

fn letter(byte: u8) -> u8
    ensures { result ≡ unwrap_or (letter_of byte) byte }
{
    match byte {
        8 => b'b',
        b'\t' => b't',
        b'\n' => b'n',
        11 => b'v',
        12 => b'f',
        b'\r' => b'r',
        other => other,
    }
}
