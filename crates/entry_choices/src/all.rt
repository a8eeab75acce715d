//! Which of all entries are wanted.
ghost use Rattle.std.specs.Prelude.{◌≡◌, ◌∷◌, List, IfOk, OnOk};
ghost use Rattle.toc_entry.specs.declared.entry.Entry.{Entry};
ghost use Rattle.entry_choices.specs.Books.{Knows};
ghost use Rattle.entry_choices.specs.Choices.{section_behind, is_taken_behind, wanted_marks, wanted_places};

use crate::choosing::{first_dependency, section_by, takes};
use crate::known::Known;
use crate::options::Options;
use std::alloc::{AllocError, Global};
use std::collections::HashMap;
use toc_entry::Entry;

/// What is known of an entry behind those of the book.
fn known_of(book: &HashMap<u32, Known>, options: &Options, entry: &Entry) -> Known
    ensures section { (before : List Entry) → Knows options.now before book.now → result.section ≡ section_behind before entry.now }
    ensures taken { (before : List Entry) → Knows options.now before book.now → result.taken ≡ is_taken_behind options.now before entry.now }
{
    let first = match first_dependency(entry) {
        None => None,
        Some(id) => book.get(&id).copied(),
    };
    let section = section_by(first.map(|known| known.section), entry);
    let taken = takes(options, section, first.map(|known| known.taken), entry);
    Known { section, taken }
}

/// Puts an entry into the book, behind those that are there, and answers whether it is wanted.
fn enter(
    book: &mut HashMap<u32, Known>,
    options: &Options,
    entry: &Entry,
) -> Result<bool, AllocError>
    ensures answer { IfOk result (λ taken. (before : List Entry) → Knows options.now before book.old → taken ≡ is_taken_behind options.now before entry.now) }
    ensures entered { OnOk result ((before : List Entry) → Knows options.now before book.old → Knows options.now (entry.now ∷ before) book.new) }
{
    let known = known_of(book, options, entry);
    book.insert(entry.dump_id, known)?;
    Ok(known.taken)
}

/// For each entry, whether a restore with these options takes it, as `wanted` says.
///
/// It is linear in the entries. The error says that there was no memory.
pub fn wanted_marks(
    alloc: Global,
    entries: &[Entry],
    options: &Options,
) -> Result<Vec<bool>, AllocError>
    ensures { IfOk result (λ marks. marks.items ≡ wanted_marks options.now entries.now) }
{
    let mut book = HashMap::new(alloc);
    let mut marks = Vec::with_capacity(alloc, entries.len())?;
    for entry in entries {
        let taken = enter(&mut book, options, entry)?;
        marks.push(taken)?;
    }
    Ok(marks)
}

/// The places of the entries that a restore with these options takes, in the order of the archive.
///
/// It is linear in the entries. The error says that there was no memory.
pub fn wanted_places(
    alloc: Global,
    entries: &[Entry],
    options: &Options,
) -> Result<Vec<usize>, AllocError>
    ensures { IfOk result (λ places. places.items ≡ wanted_places options.now entries.now) }
{
    let mut book = HashMap::new(alloc);
    let mut places = Vec::new(alloc);
    for i in 0..entries.len() {
        let taken = enter(&mut book, options, &entries[i])?;
        if taken {
            places.push(i)?;
        }
    }
    Ok(places)
}
