//! What a list file says.
ghost use Rattle.std.specs.Prelude.{◌≡◌, List, reverse};
ghost use Rattle.toc_entry.specs.declared.entry.Entry.{Entry};
ghost use Rattle.toc_parts.specs.Answers.{Gives};
ghost use Rattle.list_files.specs.Books.{LeadsTo, edit_fault};
ghost use Rattle.list_files.specs.Edits.{said, mentions, edited};
ghost use Rattle.list_files.specs.Lines.{lines};

use crate::fault::{EditError, ListFault};
use crate::line::{content, is_number, number, split_line};
use crate::order::in_order;
use crate::places::{book_of, place_of, session_places};
use std::alloc::Global;
use std::collections::HashMap;
use toc_entry::Entry;

// The place of the entry that a line names.
fn said(
    book: &HashMap<u32, usize>,
    line_number: u64,
    line: &[u8],
) -> Result<Option<usize>, ListFault>
    ensures { (entries : List Entry) → LeadsTo (reverse entries) book.now → result ≡ said entries line_number line.now }
{
    let text = content(line);
    if text.is_empty() {
        return Ok(None);
    }
    if !is_number(text) {
        return Err(ListFault::NotANumber(line_number));
    }
    let Some(id) = number(text) else {
        return Err(ListFault::UnknownId(line_number));
    };
    match place_of(book, id) {
        None => Err(ListFault::UnknownId(line_number)),
        Some(place) => Ok(Some(place)),
    }
}

// The places of the entries that lines name.
fn mentions(alloc: Global, book: &HashMap<u32, usize>, list: &[u8]) -> Result<Vec<usize>, EditError>
    ensures { (entries : List Entry) → LeadsTo (reverse entries) book.now → Gives edit_fault (λ v. v.items) result (mentions entries 1 (lines list.now)) }
{
    let mut places = Vec::new(alloc);
    let mut line_number = 1u64;
    let mut rest = list;
    loop {
        let (line, behind) = split_line(rest);
        if let Some(place) = said(book, line_number, line)? {
            places.push(place)?;
        }
        let Some(text) = behind else {
            return Ok(places);
        };
        rest = text;
        line_number += 1;
    }
}

/// The places of the entries that a list file takes, in its order.
///
/// A line is cut at its first semicolon, and what is left, without the spaces and tabs around it, is the dump id of an
/// entry; where nothing is left it names none. The entries that set up the session come first in any case, in the order of
/// the archive, and then those that are named, each at its first mention. Other entries are left out.
///
/// `NotANumber` comes for the first line that has something else than digits, `UnknownId` where no entry has its number,
/// whichever line is the first. <https://www.postgresql.org/docs/16/app-pgrestore.html>
#[tactic(auto, unfolding(crate::specs::Edits::edited))]
pub fn edit(alloc: Global, entries: &[Entry], list: &[u8]) -> Result<Vec<usize>, EditError>
    ensures { Gives edit_fault (λ v. v.items) result (edited entries.now list.now) }
{
    let book = book_of(alloc, entries)?;
    let places = mentions(alloc, &book, list)?;
    let first = session_places(alloc, entries)?;
    Ok(in_order(alloc, first, &places)?)
}
