//! The part of an entry in a script.
ghost use Rattle.std.specs.Prelude.{◌≡◌, ◌++◌, OnOk};
ghost use Rattle.std.specs.Option.{option_copied, option_map};
ghost use Rattle.std.specs.List.{list_any};
ghost use Rattle.std.specs.Str.{bytes_eq};
ghost use Rattle.copy_text.specs.Rows.{Extends};
ghost use Rattle.fmt_text.specs.Lines.{title, shown, shown_or_dash};
ghost use Rattle.fmt_text.specs.Parts.{is_of_session, is_table_data, group, told_owner, about, text_or_none, body, part};

use crate::lines::{put_shown, put_shown_or_dash};
use crate::owner::put_owner;
use copy_text::Text;
use std::alloc::{AllocError, Global};
use toc_entry::Entry;

/// The kinds of entries that are no object: what they set stands at the script's head, or it is the database itself.
const SESSION_KINDS: [&[u8]; 5] = [
    b"ENCODING",
    b"STDSTRINGS",
    b"SEARCHPATH",
    b"DATABASE",
    b"DATABASE PROPERTIES",
];

/// Whether the text is one of the words.
fn is_one_of(words: &[&[u8]], text: &[u8]) -> bool
    ensures { result ≡ list_any (λ word. bytes_eq word.now text.now) words.now }
{
    words.iter().any(|word| *word == text)
}

/// Whether an entry of this kind has no part of its own.
pub fn is_of_session(desc: &[u8]) -> bool
    ensures { result ≡ is_of_session desc.now }
{
    is_one_of(&SESSION_KINDS, desc)
}

/// Whether an entry of this kind is the rows of a table.
fn is_table_data(desc: &[u8]) -> bool
    ensures { result ≡ is_table_data desc.now }
{
    desc == b"TABLE DATA".as_slice()
}

/// The words before an entry's name.
fn group(entry: &Entry) -> &'static [u8]
    ensures { result.now ≡ group entry.now }
{
    if is_table_data(entry.desc.as_bytes()) {
        b"Data for Name: "
    } else {
        b"Name: "
    }
}

/// Who owns the object of an entry, which a script without owners doesn't tell.
fn told_owner(entry: &Entry, owners: bool) -> Option<&Text>
    ensures { option_copied result ≡ told_owner owners entry.now }
{
    if owners { entry.owner.as_ref() } else { None }
}

/// Appends a word and a text as a comment shows it.
fn put_field(word: &[u8], text: &[u8], out: &mut Vec<u8>) -> Result<(), AllocError>
    ensures ok { OnOk result (out.new.items ≡ out.old.items ++ (word.now ++ shown text.now)) }
    ensures kept { Extends out.old.items out.new.items }
{
    out.extend_from_slice(word)?;
    put_shown(text, out)
}

/// Appends a word and a text that may not be there, as a comment shows it.
fn put_optional(word: &[u8], text: Option<&Text>, out: &mut Vec<u8>) -> Result<(), AllocError>
    ensures ok { OnOk result (out.new.items ≡ out.old.items ++ (word.now ++ shown_or_dash (option_copied text.entry))) }
    ensures kept { Extends out.old.items out.new.items }
{
    out.extend_from_slice(word)?;
    put_shown_or_dash(text, out)
}

/// Appends what an entry is called.
#[tactic(auto, unfolding(crate::specs::Parts::about))]
fn put_about(entry: &Entry, owners: bool, out: &mut Vec<u8>) -> Result<(), AllocError>
    ensures ok { OnOk result (out.new.items ≡ out.old.items ++ about owners entry.now) }
    ensures kept { Extends out.old.items out.new.items }
{
    put_field(group(entry), entry.tag.as_bytes(), out)?;
    put_field(b"; Type: ", entry.desc.as_bytes(), out)?;
    put_optional(b"; Schema: ", entry.namespace.as_ref(), out)?;
    put_optional(b"; Owner: ", told_owner(entry, owners), out)?;
    Ok(())
}

/// Appends a text that may not be there.
fn put_text(text: &Option<Text>, out: &mut Vec<u8>) -> Result<(), AllocError>
    ensures ok { OnOk result (out.new.items ≡ out.old.items ++ text_or_none text.now) }
    ensures kept { Extends out.old.items out.new.items }
{
    match text {
        None => Ok(()),
        Some(text) => out.extend_from_slice(text.as_bytes()),
    }
}

/// Appends the rows of an entry, if there are some.
fn put_rows(rows: &Option<Vec<u8>>, out: &mut Vec<u8>) -> Result<(), AllocError>
    ensures ok { OnOk result (out.new.items ≡ out.old.items ++ text_or_none (option_map (λ v. v.items) rows.now)) }
    ensures kept { Extends out.old.items out.new.items }
{
    match rows {
        None => Ok(()),
        Some(rows) => out.extend_from_slice(rows),
    }
}

/// Appends the statements of an entry, or the COPY statement and the rows.
#[tactic(auto, unfolding(crate::specs::Parts::body))]
fn put_body(entry: &Entry, rows: &Option<Vec<u8>>, out: &mut Vec<u8>) -> Result<(), AllocError>
    ensures ok { OnOk result (out.new.items ≡ out.old.items ++ body entry.now (option_map (λ v. v.items) rows.now)) }
    ensures kept { Extends out.old.items out.new.items }
{
    if is_table_data(entry.desc.as_bytes()) {
        put_text(&entry.copy_stmt, out)?;
        put_rows(rows, out)
    } else {
        put_text(&entry.defn, out)?;
        out.extend_from_slice(b"\n\n")
    }
}

/// Appends the comment that names an entry and an empty line.
fn put_comment(entry: &Entry, owners: bool, out: &mut Vec<u8>) -> Result<(), AllocError>
    ensures ok { OnOk result (out.new.items ≡ out.old.items ++ title (about owners entry.now)) }
    ensures kept { Extends out.old.items out.new.items }
{
    out.extend_from_slice(b"--\n-- ")?;
    put_about(entry, owners, out)?;
    out.extend_from_slice(b"\n--\n\n")
}

/// Appends the part of an entry and its rows. What was there before stays in any case.
#[tactic(auto, unfolding(crate::specs::Parts::part))]
pub fn put_part(
    alloc: Global,
    entry: &Entry,
    rows: &Option<Vec<u8>>,
    owners: bool,
    out: &mut Vec<u8>,
) -> Result<(), AllocError>
    ensures ok { OnOk result (out.new.items ≡ out.old.items ++ part owners entry.now (option_map (λ v. v.items) rows.now)) }
    ensures kept { Extends out.old.items out.new.items }
{
    if is_of_session(entry.desc.as_bytes()) {
        return Ok(());
    }
    put_comment(entry, owners, out)?;
    put_body(entry, rows, out)?;
    put_owner(alloc, entry, owners, out)
}
