//! Writing heads and entries.
ghost use Rattle.std.specs.Prelude.{◌≡◌, ◌≤◌, ◌<◌, ◌^◌, ◌++◌, length, false, Some, OnOk, OnErr, decimal};
ghost use Rattle.std.specs.Int.{w64};
ghost use Rattle.std.specs.Option.{option_copied, ForSome};
ghost use Rattle.copy_text.specs.Rows.{Extends};
ghost use Rattle.dump_ports.specs.Moment.{IsPart};
ghost use Rattle.toc_parts.specs.declared.fault.FieldFault.TheVariants as fields;
ghost use Rattle.toc_parts.specs.Parts.{◌then◌};
ghost use Rattle.toc_parts.specs.Fields.{integer, string};
ghost use Rattle.toc_entry.specs.declared.entry.Extra.TheVariants.{Place};
ghost use Rattle.toc_layout.specs.Entries.{optional, flag, unread, dependencies, extra, identity, labels, three, setting, behind_texts, body, body_of, entry};
ghost use Rattle.toc_layout.specs.Heads.{head_seen, instant_of, front, moment, names, head};
ghost use Rattle.toc_layout.specs.Writable.{IsShort, HeadCanBeWritten, ExtraCanBeWritten, EntryCanBeWritten, HasShortTexts, is_file, entry_text};

use copy_text::Text;
use std::alloc::AllocError;
use toc_entry::{Entry, Extra};
use toc_parts::{write_bytes, write_decimal, write_integer, write_number_of_eight, write_string};

/// Appends an integer: a sign byte, 0 or 1, and four bytes of the magnitude. After an `Err` nothing was appended.
pub fn write_int(n: i64, out: &mut Vec<u8>) -> Result<(), AllocError>
    requires { IsPart n }
    ensures ok { OnOk result (out.new.items ≡ out.old.items ++ (integer fields.Short).write n) }
    ensures err { OnErr result (out.new.items ≡ out.old.items) }
{
    let len = out.len();
    let written = write_integer(n, out);
    if written.is_err() {
        out.truncate(len);
    }
    written
}

/// Appends a string: its length and its bytes, or the length -1 where there is none. After an `Err` nothing was appended.
pub fn write_str(text: Option<&Text>, out: &mut Vec<u8>) -> Result<(), AllocError>
    requires { ForSome text (λ t. length t.now < 2 ^ 32) }
    ensures ok { OnOk result (out.new.items ≡ out.old.items ++ string.write (option_copied text.entry)) }
    ensures err { OnErr result (out.new.items ≡ out.old.items) }
{
    let len = out.len();
    let written = write_string(text, out);
    if written.is_err() {
        out.truncate(len);
    }
    written
}

pub(crate) fn write_text(text: &Text, out: &mut Vec<u8>) -> Result<(), AllocError>
    requires { IsShort text.now }
    ensures ok { OnOk result (out.new.items ≡ out.old.items ++ string.write (Some text.now)) }
    ensures kept { Extends out.old.items out.new.items }
{
    write_string(Some(text), out)
}

fn write_optional(text: &Option<Text>, out: &mut Vec<u8>) -> Result<(), AllocError>
    requires { ForSome text.now IsShort }
    ensures ok { OnOk result (out.new.items ≡ out.old.items ++ string.write text.now) }
    ensures kept { Extends out.old.items out.new.items }
{
    match text {
        Some(text) => write_text(text, out),
        None => write_string(None, out),
    }
}

fn write_flag(set: bool, out: &mut Vec<u8>) -> Result<(), AllocError>
    ensures ok { OnOk result (out.new.items ≡ out.old.items ++ flag.write set) }
    ensures kept { Extends out.old.items out.new.items }
{
    write_integer(i64::from(set), out)
}

#[tactic(auto, unfolding(crate::specs::Entries::oid))]
fn write_identity(
    has_rows: bool,
    tableoid: u32,
    oid: u32,
    out: &mut Vec<u8>,
) -> Result<(), AllocError>
    ensures ok { OnOk result (out.new.items ≡ out.old.items ++ identity.write (has_rows, (tableoid, oid))) }
    ensures kept { Extends out.old.items out.new.items }
{
    write_flag(has_rows, out)?;
    write_decimal(tableoid, out)?;
    write_decimal(oid, out)
}

#[tactic(auto, unfolding(crate::specs::Entries::section))]
fn write_labels(tag: &Text, desc: &Text, section: u8, out: &mut Vec<u8>) -> Result<(), AllocError>
    requires { IsShort tag.now × IsShort desc.now }
    ensures ok { OnOk result (out.new.items ≡ out.old.items ++ labels.write (tag.now, (desc.now, section))) }
    ensures kept { Extends out.old.items out.new.items }
{
    write_text(tag, out)?;
    write_text(desc, out)?;
    write_integer(i64::from(section), out)
}

fn write_three(
    first: &Option<Text>,
    second: &Option<Text>,
    third: &Option<Text>,
    out: &mut Vec<u8>,
) -> Result<(), AllocError>
    requires { ForSome first.now IsShort × ForSome second.now IsShort × ForSome third.now IsShort }
    ensures ok { OnOk result (out.new.items ≡ out.old.items ++ three.write (first.now, (second.now, third.now))) }
    ensures kept { Extends out.old.items out.new.items }
{
    write_optional(first, out)?;
    write_optional(second, out)?;
    write_optional(third, out)
}

fn write_setting(entry: &Entry, out: &mut Vec<u8>) -> Result<(), AllocError>
    requires { HasShortTexts entry.now }
    ensures ok { OnOk result (out.new.items ≡ out.old.items ++ setting.write (body_of entry.now).1.1.1.0) }
    ensures kept { Extends out.old.items out.new.items }
{
    write_three(&entry.namespace, &entry.tablespace, &entry.tableam, out)?;
    write_owner(&entry.owner, out)
}

fn write_owner(owner: &Option<Text>, out: &mut Vec<u8>) -> Result<(), AllocError>
    requires { ForSome owner.now IsShort }
    ensures ok { OnOk result (out.new.items ≡ out.old.items ++ (string.write owner.now ++ unread.write tt)) }
    ensures kept { Extends out.old.items out.new.items }
{
    write_optional(owner, out)?;
    write_unread(out)
}

/// Appends the text `false`, which says nothing.
fn write_unread(out: &mut Vec<u8>) -> Result<(), AllocError>
    ensures ok { OnOk result (out.new.items ≡ out.old.items ++ unread.write tt) }
    ensures kept { Extends out.old.items out.new.items }
{
    write_bytes(b"false", out)
}

#[tactic(auto, unfolding(crate::specs::Entries::dependency))]
fn write_dependencies(ids: &[u32], out: &mut Vec<u8>) -> Result<(), AllocError>
    ensures ok { OnOk result (out.new.items ≡ out.old.items ++ dependencies.write ids.now) }
    ensures kept { Extends out.old.items out.new.items }
{
    for id in ids {
        write_decimal(*id, out)?;
    }
    write_string(None, out)
}

#[tactic(auto, unfolding(crate::specs::Entries::extra))]
fn write_extra(written: &Extra, out: &mut Vec<u8>) -> Result<(), AllocError>
    requires { ExtraCanBeWritten written.now }
    ensures ok { OnOk result (out.new.items ≡ out.old.items ++ (extra (is_file written.now)).write written.now) }
    ensures kept { Extends out.old.items out.new.items }
{
    match written {
        Extra::Place { state, offset } => write_place(*state, *offset, out),
        Extra::File(name) => write_text(name, out),
    }
}

#[tactic(auto, unfolding(crate::specs::Entries::extra))]
fn write_place(state: u8, offset: u64, out: &mut Vec<u8>) -> Result<(), AllocError>
    ensures ok { OnOk result (out.new.items ≡ out.old.items ++ (extra false).write (Place state offset)) }
    ensures kept { Extends out.old.items out.new.items }
{
    out.push(state)?;
    write_number_of_eight(offset, out)
}

fn write_behind_texts(entry: &Entry, out: &mut Vec<u8>) -> Result<(), AllocError>
    requires { EntryCanBeWritten entry.now }
    ensures ok { OnOk result (out.new.items ≡ out.old.items ++ (behind_texts (is_file entry.now.extra)).write (body_of entry.now).1.1.1) }
    ensures kept { Extends out.old.items out.new.items }
{
    write_setting(entry, out)?;
    write_dependencies(entry.depends.as_slice(), out)?;
    write_extra(&entry.extra, out)
}

fn write_statements(entry: &Entry, out: &mut Vec<u8>) -> Result<(), AllocError>
    requires { EntryCanBeWritten entry.now }
    ensures ok { OnOk result (out.new.items ≡ out.old.items ++ (three then behind_texts (is_file entry.now.extra)).write (body_of entry.now).1.1) }
    ensures kept { Extends out.old.items out.new.items }
{
    write_three(&entry.defn, &entry.drop_stmt, &entry.copy_stmt, out)?;
    write_behind_texts(entry, out)
}

#[tactic(auto, unfolding(crate::specs::Entries::body))]
fn write_body(entry: &Entry, out: &mut Vec<u8>) -> Result<(), AllocError>
    requires { EntryCanBeWritten entry.now }
    ensures ok { OnOk result (out.new.items ≡ out.old.items ++ (body (is_file entry.now.extra)).write (body_of entry.now)) }
    ensures kept { Extends out.old.items out.new.items }
{
    write_identity(entry.has_rows, entry.tableoid, entry.oid, out)?;
    write_labels(&entry.tag, &entry.desc, entry.section, out)?;
    write_statements(entry, out)
}

#[tactic(auto, unfolding(crate::specs::Entries::dump_id))]
fn write_fields(entry: &Entry, out: &mut Vec<u8>) -> Result<(), AllocError>
    requires { EntryCanBeWritten entry.now }
    ensures ok { OnOk result (out.new.items ≡ out.old.items ++ entry_text entry.now) }
    ensures kept { Extends out.old.items out.new.items }
{
    write_integer(i64::from(entry.dump_id), out)?;
    write_body(entry, out)
}

/// Appends an entry. After an `Err` nothing was appended.
/// <https://www.postgresql.org/docs/16/app-pgdump.html>
pub fn write_entry(entry: &Entry, out: &mut Vec<u8>) -> Result<(), AllocError>
    requires { EntryCanBeWritten entry.now }
    ensures ok { OnOk result (out.new.items ≡ out.old.items ++ entry_text entry.now) }
    ensures err { OnErr result (out.new.items ≡ out.old.items) }
{
    let len = out.len();
    let written = write_fields(entry, out);
    if written.is_err() {
        out.truncate(len);
    }
    written
}
