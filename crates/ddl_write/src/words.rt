//! Texts, piece by piece.
ghost use Rattle.std.specs.Prelude.{◌≡◌, ◌++◌, OnOk};
ghost use Rattle.std.specs.Fmt.{signed_decimal};
ghost use Rattle.std.specs.List.{flat_map};
ghost use Rattle.sql_lex.specs.Written.{written_name, written_literal};
ghost use Rattle.ddl_spelling.specs.Keys.{rest_text};
ghost use Rattle.ddl_spelling.specs.Paths.{path};
ghost use Rattle.ddl_spelling.specs.Sequences.{bound, max_text, min_text};
ghost use Rattle.ddl_write.specs.Pieces.{text_of};
ghost use Rattle.ddl_write.specs.Outcome.{Extends};

use crate::lists::{Put, put_check, put_each, put_lines, put_names, put_some_names};
use crate::rights::put_rights;
use crate::views::space_before;
use cat_model::{CheckDef, Encoding, Granted, Grantee, QName, Rights, SequenceKind, TypeName};
use copy_text::{Name, Text};
use ddl_spelling::{is_usual_max, is_usual_min};
use itoa::Buffer;
use sql_lex::{write_literal, write_name};
use std::alloc::AllocError;

/// What appending text answers.
pub(crate) type Written = Result<(), AllocError>;

/// A piece of a statement's text.
#[derive(Clone, Copy)]
pub(crate) enum Piece<'a> {
    /// Words and signs as they are.
    Words(&'a [u8]),
    /// Words under a condition.
    OnlyIf(bool, &'a [u8]),
    /// A kept text.
    Text(&'a Text),
    /// A kept text behind a space, or none.
    Rest(&'a Text),
    /// A view's body.
    Body(&'a Text),
    /// A name.
    Name(&'a Name),
    /// Words and a name, where there is one.
    GivenName(&'a [u8], &'a Option<Name>),
    /// Names with commas, in brackets.
    Names(&'a [Name]),
    /// The same behind a space, where there are some.
    SomeNames(&'a [Name]),
    /// A qualified name.
    Path(&'a QName),
    /// A qualified name in a literal.
    PathLiteral(&'a QName),
    /// Words and a literal.
    Literal(&'a [u8], &'a Text),
    /// Words and a literal, where there is one.
    GivenLiteral(&'a [u8], &'a Option<Text>),
    /// A number.
    Number(&'a i64),
    /// The least number of a sequence with this step, where it isn't the usual one.
    Min(SequenceKind, &'a i64, &'a i64),
    /// The greatest number of a sequence with this step, where it isn't the usual one.
    Max(SequenceKind, &'a i64, &'a i64),
    /// An attribute of a role, where it is named.
    Flag(&'a [u8], Option<bool>),
    /// The limit of connections, where it is named.
    Limit(Option<i64>),
    /// What a comment is.
    Remark(&'a Option<Text>),
    /// Whether a sequence's value was given out.
    Called(bool),
    /// The type of a sequence, but for bigint.
    Kind(SequenceKind),
    /// Whether a membership has an option.
    Truth(bool),
    /// INHERIT of a membership, where it is named.
    Inherit(Option<bool>),
    /// The encoding of a database, where it is named.
    Encoding(Option<Encoding>),
    /// Rights on an object.
    Rights(&'a Granted, Rights),
    /// What they are granted on.
    On(&'a Granted),
    /// Whom they are granted to.
    Whom(&'a Grantee),
    /// A type.
    TypeName(&'a TypeName),
    /// DEFAULT and an expression, where there is one.
    Default(&'a Option<Text>),
    /// A check with its name.
    Check(&'a Name, &'a Text),
    /// Checks, each behind the same words.
    Checks(&'a [u8], &'a [CheckDef]),
    /// The labels of an enum, each in a line.
    Labels(&'a [Text]),
}

/// Two texts.
fn put_both(first: &[u8], second: &[u8], out: &mut Vec<u8>) -> Written
    ensures ok { OnOk result (out.new.items ≡ out.old.items ++ (first.now ++ second.now)) }
    ensures kept { Extends out.old.items out.new.items }
{
    out.extend_from_slice(first)?;
    out.extend_from_slice(second)
}

/// Words and a name.
fn put_named(words: &[u8], name: &Name, out: &mut Vec<u8>) -> Written
    ensures ok { OnOk result (out.new.items ≡ out.old.items ++ (words.now ++ written_name name.now)) }
    ensures kept { Extends out.old.items out.new.items }
{
    out.extend_from_slice(words)?;
    write_name(name.as_bytes(), out)
}

/// Words and a qualified name.
#[tactic(auto, unfolding(ddl_spelling::specs::Paths::path))]
fn put_path(words: &[u8], q: &QName, out: &mut Vec<u8>) -> Written
    ensures ok { OnOk result (out.new.items ≡ out.old.items ++ (words.now ++ path q.now)) }
    ensures kept { Extends out.old.items out.new.items }
{
    out.extend_from_slice(words)?;
    write_name(q.schema.as_bytes(), out)?;
    out.push(b'.')?;
    write_name(q.name.as_bytes(), out)
}

/// A qualified name in a literal.
fn put_path_literal(q: &QName, out: &mut Vec<u8>) -> Written
    ensures ok { OnOk result (out.new.items ≡ out.old.items ++ written_literal (path q.now)) }
    ensures kept { Extends out.old.items out.new.items }
{
    let mut text = Vec::new(*out.allocator());
    put_path(b"", q, &mut text)?;
    write_literal(&text, out)
}

/// Words and a literal.
fn put_literal(words: &[u8], text: &Text, out: &mut Vec<u8>) -> Written
    ensures ok { OnOk result (out.new.items ≡ out.old.items ++ (words.now ++ written_literal text.now)) }
    ensures kept { Extends out.old.items out.new.items }
{
    out.extend_from_slice(words)?;
    write_literal(text.as_bytes(), out)
}

/// Words and a number.
fn put_number(words: &[u8], number: i64, out: &mut Vec<u8>) -> Written
    ensures ok { OnOk result (out.new.items ≡ out.old.items ++ (words.now ++ signed_decimal number)) }
    ensures kept { Extends out.old.items out.new.items }
{
    let mut buffer = Buffer::new();
    put_both(words, buffer.format(number).as_bytes(), out)
}

/// Words without a number where it is the usual one, else other words and the number.
#[tactic(auto, unfolding(ddl_spelling::specs::Sequences::bound))]
fn put_bound(usual: bool, without: &[u8], words: &[u8], number: &i64, out: &mut Vec<u8>) -> Written
    ensures ok { OnOk result (out.new.items ≡ out.old.items ++ bound usual without.now words.now number.now) }
    ensures kept { Extends out.old.items out.new.items }
{
    if usual {
        out.extend_from_slice(without)
    } else {
        put_number(words, *number, out)
    }
}

/// MINVALUE and the number, or NO MINVALUE.
fn put_min(kind: SequenceKind, step: &i64, number: &i64, out: &mut Vec<u8>) -> Written
    ensures ok { OnOk result (out.new.items ≡ out.old.items ++ min_text kind step.now number.now) }
    ensures kept { Extends out.old.items out.new.items }
{
    let usual = is_usual_min(kind, step, number);
    put_bound(usual, b"\n    NO MINVALUE", b"\n    MINVALUE ", number, out)
}

/// MAXVALUE and the number, or NO MAXVALUE.
fn put_max(kind: SequenceKind, step: &i64, number: &i64, out: &mut Vec<u8>) -> Written
    ensures ok { OnOk result (out.new.items ≡ out.old.items ++ max_text kind step.now number.now) }
    ensures kept { Extends out.old.items out.new.items }
{
    let usual = is_usual_max(kind, step, number);
    put_bound(usual, b"\n    NO MAXVALUE", b"\n    MAXVALUE ", number, out)
}

impl<'a> Put for Piece<'a> {
    ghost text = { text_of };

    #[tactic(auto, unfolding(ddl_spelling::specs::Tables::type_text))]
    fn put(&self, out: &mut Vec<u8>) -> Written {
        match *self {
            Piece::OnlyIf(false, _)
            | Piece::GivenName(_, None)
            | Piece::GivenLiteral(_, None)
            | Piece::Flag(_, None)
            | Piece::Limit(None)
            | Piece::Kind(SequenceKind::BigInt)
            | Piece::Inherit(None)
            | Piece::Encoding(None)
            | Piece::Default(None) => Ok(()),
            Piece::Words(words) | Piece::OnlyIf(true, words) => out.extend_from_slice(words),
            Piece::Text(text) => out.extend_from_slice(text.as_bytes()),
            Piece::Rest(rest) => put_rest(rest, out),
            Piece::Body(body) => put_both(space_before(body.as_bytes()), body.as_bytes(), out),
            Piece::Name(name) => write_name(name.as_bytes(), out),
            Piece::GivenName(words, Some(name)) => put_named(words, name, out),
            Piece::Names(names) => put_names(names, out),
            Piece::SomeNames(names) => put_some_names(names, out),
            Piece::Path(q) => put_path(b"", q, out),
            Piece::PathLiteral(q) => put_path_literal(q, out),
            Piece::Literal(words, text) => put_literal(words, text, out),
            Piece::GivenLiteral(words, Some(text)) => put_literal(words, text, out),
            Piece::Number(number) => put_number(b"", *number, out),
            Piece::Min(kind, step, number) => put_min(kind, step, number, out),
            Piece::Max(kind, step, number) => put_max(kind, step, number, out),
            Piece::Flag(word, Some(true)) => put_both(b" ", word, out),
            Piece::Flag(word, Some(false)) => put_both(b" NO", word, out),
            Piece::Limit(Some(limit)) => put_number(b" CONNECTION LIMIT ", limit, out),
            Piece::Remark(None) => out.extend_from_slice(b"NULL"),
            Piece::Remark(Some(text)) => put_literal(b"", text, out),
            Piece::Called(true) => out.extend_from_slice(b"true"),
            Piece::Called(false) => out.extend_from_slice(b"false"),
            Piece::Kind(SequenceKind::SmallInt) => out.extend_from_slice(b"\n    AS smallint"),
            Piece::Kind(SequenceKind::Integer) => out.extend_from_slice(b"\n    AS integer"),
            Piece::Truth(true) => out.extend_from_slice(b"TRUE"),
            Piece::Truth(false) => out.extend_from_slice(b"FALSE"),
            Piece::Inherit(Some(true)) => out.extend_from_slice(b", INHERIT TRUE"),
            Piece::Inherit(Some(false)) => out.extend_from_slice(b", INHERIT FALSE"),
            Piece::Encoding(Some(Encoding::Utf8)) => out.extend_from_slice(b" ENCODING = 'UTF8'"),
            Piece::Rights(object, rights) => put_rights(object, rights, out),
            Piece::On(Granted::Table(q)) => put_path(b" ON TABLE ", q, out),
            Piece::On(Granted::Sequence(q)) => put_path(b" ON SEQUENCE ", q, out),
            Piece::On(Granted::Schema(name)) => put_named(b" ON SCHEMA ", name, out),
            Piece::On(Granted::Type(q)) => put_path(b" ON TYPE ", q, out),
            Piece::Whom(Grantee::Public) => out.extend_from_slice(b"PUBLIC"),
            Piece::Whom(Grantee::Role(name)) => write_name(name.as_bytes(), out),
            Piece::TypeName(TypeName::Words(words)) => out.extend_from_slice(words.as_bytes()),
            Piece::TypeName(TypeName::Path(q)) => put_path(b"", q, out),
            Piece::Default(Some(text)) => put_both(b" DEFAULT ", text.as_bytes(), out),
            Piece::Check(name, text) => put_check(name, text, out),
            Piece::Checks(words, checks) => put_each(words, checks, out),
            Piece::Labels(labels) => put_lines(labels, out),
        }
    }
}

/// A text behind a space, or none.
fn put_rest(rest: &Text, out: &mut Vec<u8>) -> Written
    ensures ok { OnOk result (out.new.items ≡ out.old.items ++ rest_text rest.now) }
    ensures kept { Extends out.old.items out.new.items }
{
    match rest.as_bytes() {
        [] => Ok(()),
        bytes => put_both(b" ", bytes, out),
    }
}

/// Pieces one after another.
pub(crate) fn put_all(pieces: &[Piece<'_>], out: &mut Vec<u8>) -> Written
    ensures ok { OnOk result (out.new.items ≡ out.old.items ++ flat_map text_of pieces.now) }
    ensures kept { Extends out.old.items out.new.items }
{
    put_each(b"", pieces, out)
}
