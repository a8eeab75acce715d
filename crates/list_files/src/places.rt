//! Where entries stand.
ghost use Rattle.std.specs.Prelude.{◌≡◌, ◌<◌, ◌∷◌, List, length, reverse, IfOk, OnOk};
ghost use Rattle.toc_entry.specs.declared.entry.Entry.{Entry};
ghost use Rattle.list_files.specs.Books.{LeadsTo};
ghost use Rattle.list_files.specs.Edits.{place_among, is_session_at, session_places};

use entry_choices::sets_up_session;
use std::alloc::{AllocError, Global};
use std::collections::HashMap;
use toc_entry::Entry;

// Puts an entry into the book, behind as many as its place says.
fn enter(book: &mut HashMap<u32, usize>, entry: &Entry, place: usize) -> Result<(), AllocError>
    ensures { OnOk result ((before : List Entry) → LeadsTo before book.old → place ≡ length before → LeadsTo (entry.now ∷ before) book.new) }
{
    book.insert(entry.dump_id, place)?;
    Ok(())
}

/// Where entries stand, by their dump ids.
pub fn book_of(alloc: Global, entries: &[Entry]) -> Result<HashMap<u32, usize>, AllocError>
    ensures { IfOk result (λ book. LeadsTo (reverse entries.now) book) }
{
    let mut book = HashMap::new(alloc);
    for i in 0..entries.len() {
        enter(&mut book, &entries[i], i)?;
    }
    Ok(book)
}

/// The place of the entry with an id.
pub fn place_of(book: &HashMap<u32, usize>, id: u32) -> Option<usize>
    ensures { (before : List Entry) → LeadsTo before book.now → result ≡ place_among before id }
{
    book.get(&id).copied()
}

// Whether the entry at a place sets up the session.
fn is_session_at(entries: &[Entry], place: usize) -> bool
    requires { place < length entries.now }
    ensures { result ≡ is_session_at entries.now place }
{
    sets_up_session(entries[place].desc.as_bytes())
}

/// The places of what sets up the session.
pub fn session_places(alloc: Global, entries: &[Entry]) -> Result<Vec<usize>, AllocError>
    ensures { IfOk result (λ places. places.items ≡ session_places entries.now) }
{
    let mut places = Vec::new(alloc);
    for i in 0..entries.len() {
        let session = is_session_at(entries, i);
        if session {
            places.push(i)?;
        }
    }
    Ok(places)
}
