//! Names and literals, written.

ghost use Rattle.std.specs.Prelude.{◌≡◌, ◌++◌, OnOk, OnErr, take, vec_len};
ghost use Rattle.std.specs.List.{list_all};
ghost use Rattle.sql_lex.specs.Written.{begins_bare, in_bare, is_bare, quoted, written_name, written_literal};

use crate::bytes::is_digit;
use crate::reserved::is_reserved;
use memchr::memchr;
use std::alloc::AllocError;

/// Whether a bare name can begin with the byte.
#[tactic(auto, unfolding(crate::specs::Written::begins_bare))]
fn begins_bare(byte: u8) -> bool
    ensures { result ≡ begins_bare byte }
{
    byte.is_ascii_lowercase() || byte == b'_'
}

/// Whether a bare name can go on with the byte.
#[tactic(auto, unfolding(crate::specs::Written::in_bare))]
fn in_bare(byte: u8) -> bool
    ensures { result ≡ in_bare byte }
{
    begins_bare(byte) || is_digit(byte)
}

/// Whether a bare name can go on with each of the bytes.
fn all_in_bare(bytes: &[u8]) -> bool
    ensures { result ≡ list_all in_bare bytes.now }
{
    bytes.iter().all(|b| in_bare(*b))
}

/// Whether the name is of the form that can stand without quotes.
#[tactic(auto, unfolding(crate::specs::Written::is_bare))]
fn is_bare(name: &[u8]) -> bool
    ensures { result ≡ is_bare name.now }
{
    match name {
        [] => false,
        [first, rest @ ..] => begins_bare(*first) && all_in_bare(rest),
    }
}

/// Appends the text in quotes, each quote in it doubled. What was there before stays in any case.
fn put_quoted(quote: u8, text: &[u8], out: &mut Vec<u8>) -> Result<(), AllocError>
    ensures ok { OnOk result (out.new.items ≡ out.old.items ++ quoted quote text.now) }
    ensures kept { take (vec_len out.old) out.new.items ≡ out.old.items }
{
    out.push(quote)?;
    let mut rest = text;
    'pieces: while let Some(len) = memchr(quote, rest) {
        let (piece, more) = rest.split_at(len + 1);
        out.extend_from_slice(piece)?;
        out.push(quote)?;
        rest = more;
    }
    out.extend_from_slice(rest)?;
    out.push(quote)?;
    Ok(())
}

/// Appends the text in quotes, or leaves all as it was.
fn write_quoted(quote: u8, text: &[u8], out: &mut Vec<u8>) -> Result<(), AllocError>
    ensures ok { OnOk result (out.new.items ≡ out.old.items ++ quoted quote text.now) }
    ensures err { OnErr result (out.new.items ≡ out.old.items) }
{
    let start = out.len();
    let put = put_quoted(quote, text, out);
    if put.is_err() {
        out.truncate(start);
    }
    put
}

/// Appends a name: bare where it is small letters, digits and `_`, doesn't begin with a digit and isn't a reserved
/// word, else in double quotes, each one in it doubled.
///
/// Where the bytes are UTF-8 the token reads back as the name, as `names_are_read_back` says. A name of PostgreSQL has at
/// least one byte and no byte 0; neither is needed here. Where there is no memory `out` stays as it was.
/// <https://www.postgresql.org/docs/16/sql-syntax-lexical.html#SQL-SYNTAX-IDENTIFIERS>
#[tactic(auto, unfolding(crate::specs::Written::written_name))]
pub fn write_name(name: &[u8], out: &mut Vec<u8>) -> Result<(), AllocError>
    ensures ok { OnOk result (out.new.items ≡ out.old.items ++ written_name name.now) }
    ensures err { OnErr result (out.new.items ≡ out.old.items) }
{
    if is_bare(name) && !is_reserved(name) {
        out.extend_from_slice(name)
    } else {
        write_quoted(b'"', name, out)
    }
}

/// Appends a text in single quotes, each one in it doubled.
///
/// Where the bytes are UTF-8 the token reads back as the text, as `literals_are_read_back` says. Where there is no memory
/// `out` stays as it was.
/// <https://www.postgresql.org/docs/16/sql-syntax-lexical.html#SQL-SYNTAX-CONSTANTS>
#[tactic(auto, unfolding(crate::specs::Written::written_literal))]
pub fn write_literal(text: &[u8], out: &mut Vec<u8>) -> Result<(), AllocError>
    ensures ok { OnOk result (out.new.items ≡ out.old.items ++ written_literal text.now) }
    ensures err { OnErr result (out.new.items ≡ out.old.items) }
{
    write_quoted(b'\'', text, out)
}
