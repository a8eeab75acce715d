//! The list of an archive.
ghost use Rattle.std.specs.Prelude.{◌≡◌, ◌≤◌, ◌++◌, length, slice_get, OnOk, OnErr, codes, decimal};
ghost use Rattle.std.specs.List.{flat_map};
ghost use Rattle.std.specs.Option.{option_copied, option_to_list};
ghost use Rattle.fmt_text.specs.Lines.{shown, shown_or_dash};
ghost use Rattle.fmt_text.specs.Parts.{text_or_none};
ghost use Rattle.toc_layout.specs.Heads.{instant_of, head_seen};
ghost use Rattle.list_files.specs.Lists.{day_text, date, time, created, list_head, numbers_of, names_of, line_of, list_line, list_text, entries_at};

use copy_text::Text;
use dump_ports::Moment;
use fmt_text::{is_of_session, put_shown, put_shown_or_dash};
use itoa::Buffer;
use std::alloc::{AllocError, Global};
use toc_entry::{Entry, Head};

// ---- the head

fn put_day(
    alloc: Global,
    year: i64,
    month: i64,
    day: i64,
    out: &mut Vec<u8>,
) -> Result<(), AllocError>
    ensures { OnOk result (out.new.items ≡ out.old.items ++ day_text year month day) }
{
    let text = format!(in alloc; "{year:04}-{month:02}-{day:02}")?;
    out.extend_from_slice(text.as_bytes())
}

fn put_date(alloc: Global, moment: &Moment, out: &mut Vec<u8>) -> Result<(), AllocError>
    ensures { OnOk result (out.new.items ≡ out.old.items ++ date (instant_of moment.now)) }
{
    put_day(alloc, moment.year + 1900, moment.mon + 1, moment.mday, out)
}

fn put_time(alloc: Global, moment: &Moment, out: &mut Vec<u8>) -> Result<(), AllocError>
    ensures { OnOk result (out.new.items ≡ out.old.items ++ time (instant_of moment.now)) }
{
    let hour = moment.hour;
    let minute = moment.min;
    let second = moment.sec;
    let text = format!(in alloc; "{hour:02}:{minute:02}:{second:02}")?;
    out.extend_from_slice(text.as_bytes())
}

fn put_created(alloc: Global, moment: &Moment, out: &mut Vec<u8>) -> Result<(), AllocError>
    ensures { OnOk result (out.new.items ≡ out.old.items ++ created (instant_of moment.now)) }
{
    out.extend_from_slice(b";\n; Archive created at ")?;
    put_date(alloc, moment, out)?;
    out.extend_from_slice(b" ")?;
    put_time(alloc, moment, out)
}

// Appends a word and a text as a list shows it.
fn put_named(word: &[u8], name: &Text, out: &mut Vec<u8>) -> Result<(), AllocError>
    ensures { OnOk result (out.new.items ≡ out.old.items ++ (word.now ++ shown name.now)) }
{
    out.extend_from_slice(word)?;
    put_shown(name.as_bytes(), out)
}

fn put_count(count: usize, out: &mut Vec<u8>) -> Result<(), AllocError>
    ensures { OnOk result (out.new.items ≡ out.old.items ++ (codes "\n;     TOC Entries: " ++ decimal count)) }
{
    out.extend_from_slice(b"\n;     TOC Entries: ")?;
    out.extend_from_slice(Buffer::new().format(count).as_bytes())
}

#[tactic(auto, unfolding(crate::specs::Lists::list_head))]
fn put_head(alloc: Global, head: &Head, count: usize, out: &mut Vec<u8>) -> Result<(), AllocError>
    ensures { OnOk result (out.new.items ≡ out.old.items ++ list_head (head_seen head.now) count) }
{
    put_created(alloc, &head.moment, out)?;
    put_named(b"\n;     dbname: ", &head.dbname, out)?;
    put_count(count, out)?;
    out.extend_from_slice(b"\n;\n")
}

// ---- the lines

// Appends a number and the word behind it.
fn put_number(number: u32, word: &[u8], out: &mut Vec<u8>) -> Result<(), AllocError>
    ensures { OnOk result (out.new.items ≡ out.old.items ++ (decimal number ++ word.now)) }
{
    out.extend_from_slice(Buffer::new().format(number).as_bytes())?;
    out.extend_from_slice(word)
}

fn put_numbers(entry: &Entry, out: &mut Vec<u8>) -> Result<(), AllocError>
    ensures { OnOk result (out.new.items ≡ out.old.items ++ numbers_of entry.now) }
{
    put_number(entry.dump_id, b"; ", out)?;
    put_number(entry.tableoid, b" ", out)?;
    put_number(entry.oid, b" ", out)
}

// Appends a text as a list shows it, and a blank.
fn put_field(text: &Text, out: &mut Vec<u8>) -> Result<(), AllocError>
    ensures { OnOk result (out.new.items ≡ out.old.items ++ (shown text.now ++ codes " ")) }
{
    put_shown(text.as_bytes(), out)?;
    out.extend_from_slice(b" ")
}

fn put_schema(schema: Option<&Text>, out: &mut Vec<u8>) -> Result<(), AllocError>
    ensures { OnOk result (out.new.items ≡ out.old.items ++ (shown_or_dash (option_copied schema.entry) ++ codes " ")) }
{
    put_shown_or_dash(schema, out)?;
    out.extend_from_slice(b" ")
}

fn put_names(entry: &Entry, out: &mut Vec<u8>) -> Result<(), AllocError>
    ensures { OnOk result (out.new.items ≡ out.old.items ++ names_of entry.now) }
{
    put_field(&entry.desc, out)?;
    put_schema(entry.namespace.as_ref(), out)?;
    put_field(&entry.tag, out)
}

// Appends a text as a list shows it, nothing where it isn't there.
fn put_owner(owner: &Option<Text>, out: &mut Vec<u8>) -> Result<(), AllocError>
    ensures { OnOk result (out.new.items ≡ out.old.items ++ shown (text_or_none owner.now)) }
{
    match owner {
        None => Ok(()),
        Some(owner) => put_shown(owner.as_bytes(), out),
    }
}

#[tactic(auto, unfolding(crate::specs::Lists::line_of))]
fn put_entry(entry: &Entry, out: &mut Vec<u8>) -> Result<(), AllocError>
    ensures { OnOk result (out.new.items ≡ out.old.items ++ line_of entry.now) }
{
    put_numbers(entry, out)?;
    put_names(entry, out)?;
    put_owner(&entry.owner, out)?;
    out.extend_from_slice(b"\n")
}

// Appends the line of an entry that is shown.
fn put_line(entry: &Entry, out: &mut Vec<u8>) -> Result<(), AllocError>
    ensures { OnOk result (out.new.items ≡ out.old.items ++ list_line entry.now) }
{
    if is_of_session(entry.desc.as_bytes()) {
        return Ok(());
    }
    put_entry(entry, out)
}

fn put_lines(entries: &[Entry], out: &mut Vec<u8>) -> Result<(), AllocError>
    ensures { OnOk result (out.new.items ≡ out.old.items ++ flat_map list_line entries.now) }
{
    for entry in entries {
        put_line(entry, out)?;
    }
    Ok(())
}

// ---- entries at places

fn entry_at(entries: &[Entry], place: usize) -> Option<&Entry>
    ensures { option_copied result ≡ slice_get entries.now place }
{
    entries.get(place)
}

fn put_line_at(entries: &[Entry], place: usize, out: &mut Vec<u8>) -> Result<(), AllocError>
    ensures { OnOk result (out.new.items ≡ out.old.items ++ flat_map list_line (option_to_list (slice_get entries.now place))) }
{
    match entry_at(entries, place) {
        None => Ok(()),
        Some(entry) => put_line(entry, out),
    }
}

fn put_lines_at(entries: &[Entry], places: &[usize], out: &mut Vec<u8>) -> Result<(), AllocError>
    ensures { OnOk result (out.new.items ≡ out.old.items ++ flat_map list_line (entries_at entries.now places.now)) }
{
    for place in places {
        put_line_at(entries, *place, out)?;
    }
    Ok(())
}

fn count_one(entries: &[Entry], place: usize) -> usize
    ensures value { result ≡ length (option_to_list (slice_get entries.now place)) }
    ensures small { result ≤ 1 }
{
    match entry_at(entries, place) {
        None => 0,
        Some(_) => 1,
    }
}

fn count_at(entries: &[Entry], places: &[usize]) -> usize
    ensures { result ≡ length (entries_at entries.now places.now) }
{
    let mut count = 0;
    for place in places {
        count += count_one(entries, *place);
    }
    count
}

// ---- the whole

#[tactic(auto, unfolding(crate::specs::Lists::list_text))]
fn put_list(
    alloc: Global,
    head: &Head,
    entries: &[Entry],
    out: &mut Vec<u8>,
) -> Result<(), AllocError>
    ensures { OnOk result (out.new.items ≡ out.old.items ++ list_text (head_seen head.now) entries.now) }
{
    put_head(alloc, head, entries.len(), out)?;
    put_lines(entries, out)
}

#[tactic(auto, unfolding(crate::specs::Lists::list_text))]
fn put_list_of(
    alloc: Global,
    head: &Head,
    entries: &[Entry],
    places: &[usize],
    out: &mut Vec<u8>,
) -> Result<(), AllocError>
    ensures { OnOk result (out.new.items ≡ out.old.items ++ list_text (head_seen head.now) (entries_at entries.now places.now)) }
{
    put_head(alloc, head, count_at(entries, places), out)?;
    put_lines_at(entries, places, out)
}

/// Appends the list of these entries: when and of which database the archive was made and how many entries there are, as
/// comments, and a line for each entry, but for those that set up the session and the database itself.
///
/// Each line begins with the entry's dump id and a semicolon, so that the lines, in any order, are a list file for `edit`.
/// The end of a line within what is shown is a space. Where there is no memory `out` stays as it was.
/// <https://www.postgresql.org/docs/16/app-pgrestore.html>
pub fn list_text(
    alloc: Global,
    head: &Head,
    entries: &[Entry],
    out: &mut Vec<u8>,
) -> Result<(), AllocError>
    ensures ok { OnOk result (out.new.items ≡ out.old.items ++ list_text (head_seen head.now) entries.now) }
    ensures err { OnErr result (out.new.items ≡ out.old.items) }
{
    let mut text = Vec::new(alloc);
    put_list(alloc, head, entries, &mut text)?;
    out.extend_from_slice(&text)
}

/// Appends the list of the entries at these places, in their order, as `list_text` does of all; a place past the last entry
/// stands for none. Where there is no memory `out` stays as it was.
pub fn list_of(
    alloc: Global,
    head: &Head,
    entries: &[Entry],
    places: &[usize],
    out: &mut Vec<u8>,
) -> Result<(), AllocError>
    ensures ok { OnOk result (out.new.items ≡ out.old.items ++ list_text (head_seen head.now) (entries_at entries.now places.now)) }
    ensures err { OnErr result (out.new.items ≡ out.old.items) }
{
    let mut text = Vec::new(alloc);
    put_list_of(alloc, head, entries, places, &mut text)?;
    out.extend_from_slice(&text)
}
