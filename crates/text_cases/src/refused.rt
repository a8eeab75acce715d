//! Cases of psql's report of refused statements.
//!
//! A refused statement is its place, the name of a cause and what the cause holds, with blanks between: `17 Exists Schema a`.
//! Several of them have ` / ` between.
use crate::escapes::decoded;
use cat_model::{Cause, Key, Object, QName};
use copy_text::{CopyFault, Name};
use refusals::{Refusal, write_report};
use std::alloc::{AllocError, AllocFailed, Global};

/// Why a line gives no refused statements.
#[derive(Drop)]
enum Unread {
    /// The line is no case.
    NoCase,
    /// Memory ran out.
    Memory,
}

impl From<AllocError> for Unread {
    fn from(_error: AllocError) -> Unread {
        Unread::Memory
    }
}

impl<T: Drop> From<AllocFailed<T>> for Unread {
    fn from(_error: AllocFailed<T>) -> Unread {
        Unread::Memory
    }
}

fn number(word: &str) -> Result<u64, Unread> {
    word.parse::<u64>().map_err(|_| Unread::NoCase)
}

fn name(alloc: Global, word: &str) -> Result<Name, Unread> {
    let bytes = decoded(alloc, word)?.ok_or(Unread::NoCase)?;
    Name::new(bytes).ok_or(Unread::NoCase)
}

fn only_name(alloc: Global, words: &[&str]) -> Result<Name, Unread> {
    match words {
        [word] => name(alloc, word),
        _ => Err(Unread::NoCase),
    }
}

fn path(alloc: Global, words: &[&str]) -> Result<QName, Unread> {
    match words {
        [schema, word] => Ok(QName {
            schema: name(alloc, schema)?,
            name: name(alloc, word)?,
        }),
        _ => Err(Unread::NoCase),
    }
}

// A path, and a name of a part of what stands there.
fn part(alloc: Global, words: &[&str]) -> Result<(QName, Name), Unread> {
    match words {
        [of @ .., word] => Ok((path(alloc, of)?, name(alloc, word)?)),
        [] => Err(Unread::NoCase),
    }
}

fn member(alloc: Global, words: &[&str]) -> Result<Key, Unread> {
    match words {
        [role, member, grantor] => Ok(Key::Member(
            name(alloc, role)?,
            name(alloc, member)?,
            name(alloc, grantor)?,
        )),
        _ => Err(Unread::NoCase),
    }
}

fn object(alloc: Global, words: &[&str]) -> Result<Object, Unread> {
    let (kind, names) = words.split_first().ok_or(Unread::NoCase)?;
    match *kind {
        "Schema" => only_name(alloc, names).map(Object::Schema),
        "Type" => path(alloc, names).map(Object::Type),
        "Relation" => path(alloc, names).map(Object::Relation),
        "Column" => part(alloc, names).map(|(of, name)| Object::Column(of, name)),
        "Constraint" => part(alloc, names).map(|(of, name)| Object::Constraint(of, name)),
        "Database" => only_name(alloc, names).map(Object::Database),
        _ => Err(Unread::NoCase),
    }
}

// A key whose names are a path, or a path and a name.
fn path_key(alloc: Global, kind: &str, names: &[&str]) -> Result<Key, Unread> {
    match kind {
        "UserType" => path(alloc, names).map(Key::UserType),
        "Rel" => path(alloc, names).map(Key::Rel),
        "Default" => part(alloc, names).map(|(of, name)| Key::Default(of, name)),
        "Con" => part(alloc, names).map(|(of, name)| Key::Con(of, name)),
        "Index" => part(alloc, names).map(|(of, name)| Key::Index(of, name)),
        "Rows" => path(alloc, names).map(Key::Rows),
        "SeqVal" => path(alloc, names).map(Key::SeqVal),
        "OwnedBy" => path(alloc, names).map(Key::OwnedBy),
        "Body" => path(alloc, names).map(Key::Body),
        _ => Err(Unread::NoCase),
    }
}

fn key(alloc: Global, words: &[&str]) -> Result<Key, Unread> {
    let (kind, names) = words.split_first().ok_or(Unread::NoCase)?;
    match *kind {
        "Role" => only_name(alloc, names).map(Key::Role),
        "Member" => member(alloc, names),
        "Schema" => only_name(alloc, names).map(Key::Schema),
        "Owner" => object(alloc, names).map(Key::Owner),
        "Acl" => object(alloc, names).map(Key::Acl),
        "Comment" => object(alloc, names).map(Key::Comment),
        "Database" => only_name(alloc, names).map(Key::Database),
        _ => path_key(alloc, kind, names),
    }
}

fn duplicate(alloc: Global, words: &[&str]) -> Result<Cause, Unread> {
    match words {
        [word, first, second] => Ok(Cause::Duplicate {
            first: number(first)?,
            second: number(second)?,
            name: name(alloc, word)?,
        }),
        _ => Err(Unread::NoCase),
    }
}

fn no_parent(alloc: Global, words: &[&str]) -> Result<Cause, Unread> {
    match words {
        [word, row] => Ok(Cause::NoParent {
            row: number(row)?,
            name: name(alloc, word)?,
        }),
        _ => Err(Unread::NoCase),
    }
}

// A cause that holds two numbers, or fewer.
fn numbered(kind: &str, words: &[&str]) -> Result<Cause, Unread> {
    match (kind, words) {
        ("BadValue", [column, row]) => Ok(Cause::BadValue {
            column: number(column)?,
            row: number(row)?,
        }),
        ("NullValue", [column, row]) => Ok(Cause::NullValue {
            column: number(column)?,
            row: number(row)?,
        }),
        ("Fields", [row, found]) => Ok(Cause::Fields {
            row: number(row)?,
            found: number(found)?,
        }),
        ("BadRow", [row]) => Ok(Cause::BadRow {
            row: number(row)?,
            fault: CopyFault::RawReturn(0),
        }),
        ("WrongColumns", []) => Ok(Cause::WrongColumns),
        ("OutOfRange", []) => Ok(Cause::OutOfRange),
        _ => Err(Unread::NoCase),
    }
}

fn cause(alloc: Global, words: &[&str]) -> Result<Cause, Unread> {
    let (kind, rest) = words.split_first().ok_or(Unread::NoCase)?;
    match *kind {
        "Exists" => key(alloc, rest).map(Cause::Exists),
        "Absent" => key(alloc, rest).map(Cause::Absent),
        "KeyMissing" => key(alloc, rest).map(Cause::KeyMissing),
        "Duplicate" => duplicate(alloc, rest),
        "NoParent" => no_parent(alloc, rest),
        _ => numbered(kind, rest),
    }
}

fn refusal(alloc: Global, words: &[&str]) -> Result<Refusal, Unread> {
    let (place, rest) = words.split_first().ok_or(Unread::NoCase)?;
    let at = place.parse::<usize>().map_err(|_| Unread::NoCase)?;
    Ok(Refusal::new(at, cause(alloc, rest)?))
}

// Reads a refused statement, and puts it behind the others.
fn add(alloc: Global, text: &str, refusals: &mut Vec<Refusal>) -> Result<(), Unread> {
    let mut words = Vec::new(alloc);
    for word in text.split(' ') {
        words.push(word)?;
    }
    refusals.push(refusal(alloc, &words)?)?;
    Ok(())
}

fn read(alloc: Global, line: &str, refusals: &mut Vec<Refusal>) -> Result<(), Unread> {
    for text in line.split(" / ") {
        add(alloc, text, refusals)?;
    }
    Ok(())
}

/// Refused statements: psql's report of them.
pub(crate) fn report(alloc: Global, line: &str, out: &mut Vec<u8>) -> Result<(), AllocError> {
    let mut refusals = Vec::new(alloc);
    match read(alloc, line, &mut refusals) {
        Ok(()) => write_report(&refusals, out),
        Err(Unread::NoCase) => out.extend_from_slice(b"?"),
        Err(Unread::Memory) => Err(AllocError),
    }
}
