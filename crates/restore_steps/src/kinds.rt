//! Which kinds of entries a restore takes.
ghost use Rattle.std.specs.Prelude.{◌≡◌, IfOk};
ghost use Rattle.std.specs.List.{list_any};
ghost use Rattle.std.specs.Str.{bytes_eq};
ghost use Rattle.restore_steps.specs.Faults.{has_tablespace, is_taken, left_out, taken_kinds};
ghost use Rattle.restore_steps.specs.Statements.{kind_of};

use cat_model::What;
use copy_text::Text;
use restore_plan::Kind;
use std::alloc::AllocError;
use toc_entry::Entry;

/// The kinds of entries that a restore takes, by their descs.
/// <https://www.postgresql.org/docs/16/app-pgrestore.html>
const TAKEN: [&[u8]; 20] = [
    b"ENCODING",
    b"STDSTRINGS",
    b"SEARCHPATH",
    b"DATABASE",
    b"SCHEMA",
    b"TYPE",
    b"DOMAIN",
    b"TABLE",
    b"VIEW",
    b"SEQUENCE",
    b"SEQUENCE OWNED BY",
    b"DEFAULT",
    b"TABLE DATA",
    b"SEQUENCE SET",
    b"CONSTRAINT",
    b"FK CONSTRAINT",
    b"INDEX",
    b"RULE",
    b"COMMENT",
    b"ACL",
];

/// The kind of an entry, as far as the order of a restore looks at it.
#[tactic(auto, unfolding(crate::specs::Statements::kind_of))]
pub(crate) fn kind_of(desc: &[u8]) -> Kind
    ensures { result ≡ kind_of desc.now }
{
    if desc == b"TABLE".as_slice() {
        Kind::Table
    } else if desc == b"TABLE DATA".as_slice() {
        Kind::TableData
    } else if desc == b"INDEX".as_slice() {
        Kind::Index
    } else {
        Kind::Other
    }
}

fn is_one_of(words: &[&[u8]], text: &[u8]) -> bool
    ensures { result ≡ list_any (λ word. bytes_eq word.now text.now) words.now }
{
    words.iter().any(|word| *word == text)
}

fn is_taken(desc: &[u8]) -> bool
    ensures { result ≡ is_taken desc.now }
{
    is_one_of(&TAKEN, desc)
}

// Whether a tablespace is told that isn't the default one.
fn has_tablespace(tablespace: &Option<Text>) -> bool
    ensures { result ≡ has_tablespace tablespace.now }
{
    match tablespace {
        None => false,
        Some(name) => !name.as_bytes().is_empty(),
    }
}

/// What of an entry is left out: its kind, else its tablespace.
#[tactic(auto, unfolding(crate::specs::Faults::left_out))]
pub(crate) fn left_out(entry: &Entry) -> Result<Option<What>, AllocError>
    ensures { IfOk result (λ what. what ≡ left_out entry.now) }
{
    if !is_taken(entry.desc.as_bytes()) {
        return Ok(Some(What::EntryKind(entry.desc.clone()?)));
    }
    if has_tablespace(&entry.tablespace) {
        Ok(Some(What::Tablespace))
    } else {
        Ok(None)
    }
}
