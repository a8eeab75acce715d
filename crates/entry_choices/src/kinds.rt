//! Kinds of entries.
ghost use Rattle.std.specs.Prelude.{◌≡◌};
ghost use Rattle.std.specs.List.{list_any};
ghost use Rattle.std.specs.Str.{bytes_eq};
ghost use Rattle.entry_choices.specs.Kinds.{is_one_of, session_kinds, database_kinds, data_kinds, relation_kinds, is_comment, is_grants};

use copy_text::Text;

const SESSION_KINDS: [&[u8]; 3] = [b"ENCODING", b"STDSTRINGS", b"SEARCHPATH"];

const DATABASE_KINDS: [&[u8]; 2] = [b"DATABASE", b"DATABASE PROPERTIES"];

const DATA_KINDS: [&[u8]; 2] = [b"TABLE DATA", b"SEQUENCE SET"];

const RELATION_KINDS: [&[u8]; 5] = [
    b"TABLE",
    b"TABLE DATA",
    b"VIEW",
    b"SEQUENCE",
    b"SEQUENCE SET",
];

/// Whether a text is one of the words.
fn is_word(words: &[&[u8]], text: &[u8]) -> bool
    ensures { result ≡ list_any (λ word. bytes_eq word.now text.now) words.now }
{
    words.iter().any(|word| *word == text)
}

/// Whether a text is one of the names.
pub fn is_named(names: &[Text], text: &[u8]) -> bool
    ensures { result ≡ is_one_of names.now text.now }
{
    names.iter().any(|name| name.as_bytes() == text)
}

/// Whether an entry of this kind sets up the session.
pub fn sets_up_session(desc: &[u8]) -> bool
    ensures { result ≡ is_one_of session_kinds desc.now }
{
    is_word(&SESSION_KINDS, desc)
}

/// Whether an entry of this kind is the database itself.
pub fn is_of_database(desc: &[u8]) -> bool
    ensures { result ≡ is_one_of database_kinds desc.now }
{
    is_word(&DATABASE_KINDS, desc)
}

/// Whether an entry of this kind is the rows of a table or the value of a sequence.
pub fn is_of_data(desc: &[u8]) -> bool
    ensures { result ≡ is_one_of data_kinds desc.now }
{
    is_word(&DATA_KINDS, desc)
}

/// Whether an entry of this kind has the name of a table, a view or a sequence.
pub fn is_of_relation(desc: &[u8]) -> bool
    ensures { result ≡ is_one_of relation_kinds desc.now }
{
    is_word(&RELATION_KINDS, desc)
}

/// Whether an entry of this kind is a comment.
pub fn is_comment(desc: &[u8]) -> bool
    ensures { result ≡ is_comment desc.now }
{
    desc == b"COMMENT".as_slice()
}

/// Whether an entry of this kind is the grants on an object.
pub fn is_grants(desc: &[u8]) -> bool
    ensures { result ≡ is_grants desc.now }
{
    desc == b"ACL".as_slice()
}
