//! Lines that begin with a backslash.
ghost use Rattle.std.specs.Prelude.{◌≡◌, ◌<◌, ◌≤◌, ◌+◌, ◌^◌, length, IfErr};
ghost use Rattle.std.specs.List.{list_all};
ghost use Rattle.sql_lex.specs.Bytes.{is_blank};
ghost use Rattle.ddl_scripts.specs.MetaLines.{Gives, IsWithin, command_len, meta_line, name_alone, said_by, stands_alone};

use cat_model::Stmt;
use copy_text::Name;
use ddl_pieces::{Halt, Piece, Pieces, ReadError, collect, is_name_kind};
use ddl_scripts::MetaError;
use std::alloc::Global;

/// Whether the byte is white space.
#[tactic(auto, unfolding(sql_lex::specs::Bytes::is_blank))]
fn is_blank(byte: u8) -> bool
    ensures { result ≡ is_blank byte }
{
    byte.is_ascii_whitespace()
}

/// Whether all the text is white space.
fn are_blank(text: &[u8]) -> bool
    ensures { result ≡ list_all is_blank text.now }
{
    text.iter().all(|b| is_blank(*b))
}

/// How many bytes the line has before its first white space.
#[tactic(auto, unfolding(ddl_scripts::specs::MetaLines::command_len))]
fn command_len(line: &[u8]) -> usize
    ensures len { result ≡ command_len line.now }
    ensures high { result ≤ length line.now }
{
    line.iter().take_while(|b| !is_blank(**b)).count()
}

/// Whether white space alone stands before the token and behind it.
#[tactic(auto, unfolding(ddl_scripts::specs::MetaLines::stands_alone))]
fn stands_alone(text: &[u8], piece: Piece) -> bool
    requires low { piece.token.start ≤ length text.now }
    requires high { piece.token.end ≤ length text.now }
    ensures { result ≡ stands_alone text.now piece }
{
    are_blank(&text[..piece.token.start]) && are_blank(&text[piece.token.end..])
}

/// The place in a line of a token in the text behind a command of this length.
fn place(len: usize, text: &[u8], piece: Piece) -> usize
    requires room { len + length text.now < 2 ^ 64 }
    requires high { piece.token.start ≤ length text.now }
    ensures exact { result ≡ len + piece.token.start }
    ensures within { result ≤ len + length text.now }
{
    len + piece.token.start
}

/// The one name of a text that has nothing else, behind a command of this length.
#[tactic(auto, using(crate::proofs::OneToken::first_within), unfolding(ddl_scripts::specs::MetaLines::name_alone))]
fn name_alone(alloc: Global, len: usize, text: &[u8]) -> Result<Name, MetaError>
    requires { len + length text.now < 2 ^ 64 }
    ensures exact { Gives (λ n. n) result (name_alone len text.now) }
    ensures within { IfErr result (IsWithin (len + length text.now)) }
{
    let found = collect(alloc, text, 0)?;
    let piece = match found.pieces.as_slice() {
        [piece] => *piece,
        _ => return Err(MetaError::Unknown(0)),
    };
    if !stands_alone(text, piece) || !is_name_kind(piece.token.kind) {
        return Err(MetaError::Unknown(0));
    }
    let at = place(len, text, piece);
    match Pieces::new(text, found.pieces).name(alloc, 0) {
        Ok((name, _)) => Ok(name),
        Err(ReadError::Halted(Halt { long: true, .. })) => Err(MetaError::LongName(at)),
        Err(ReadError::Halted(_)) => Err(MetaError::Unknown(at)),
        Err(ReadError::Memory) => Err(MetaError::Memory),
    }
}

/// What a command says with what stands behind it.
#[tactic(auto, unfolding(ddl_scripts::specs::MetaLines::said_by))]
fn said_by(alloc: Global, command: &[u8], behind: &[u8]) -> Result<Option<Stmt>, MetaError>
    requires { length command.now + length behind.now < 2 ^ 64 }
    ensures exact { Gives (λ s. s) result (said_by command.now behind.now) }
    ensures within { IfErr result (IsWithin (length command.now + length behind.now)) }
{
    if command == b"\\restrict".as_slice() || command == b"\\unrestrict".as_slice() {
        return Ok(None);
    }
    if command != b"\\connect".as_slice() {
        return Err(MetaError::Unknown(0));
    }
    let name = name_alone(alloc, command.len(), behind)?;
    Ok(Some(Stmt::Connect { name }))
}

/// The statement of a line that begins with a backslash, or `None` where the line is passed over.
///
/// `\connect` has a name behind white space; `\restrict` and `\unrestrict` are passed over with all that stands behind
/// them. Where one word or quoted text stands for the name and is none, the error is at it: `LongName` where its length
/// alone is wrong, else `Unknown`. Another line is `Unknown` at its first byte.
/// <https://www.postgresql.org/docs/16/app-psql.html>
#[tactic(auto, unfolding(ddl_scripts::specs::MetaLines::meta_line))]
pub fn meta_line(alloc: Global, line: &[u8]) -> Result<Option<Stmt>, MetaError>
    ensures exact { Gives (λ s. s) result (meta_line line.now) }
    ensures within { IfErr result (IsWithin (length line.now)) }
{
    let (command, behind) = line.split_at(command_len(line));
    said_by(alloc, command, behind)
}
