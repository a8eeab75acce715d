//! Whether one entry is wanted.
ghost use Rattle.std.specs.Prelude.{◌≡◌, ◌<◌, length, reverse};
ghost use Rattle.entry_choices.specs.Choices.{section_among, section_behind, is_taken_among, is_taken_behind, wanted};
ghost use Rattle.entry_choices.specs.Asking.{asked_of};

use crate::choosing::{asked_of, first_dependency, section_by, takes};
use crate::options::Options;
use toc_entry::Entry;

/// The section of the entry with this id, the last one of several.
fn section_among(entries: &[Entry], id: u32) -> Option<u8>
    ensures { result ≡ section_among (reverse entries.now) id }
{
    let mut rest = entries;
    let mut sought = id;
    let mut otherwise = None;
    while let Some((entry, before)) = rest.split_last() {
        rest = before;
        if entry.dump_id == sought {
            let alone = section_by(None, entry);
            if entry.section != 1 {
                return Some(alone);
            }
            let Some(first) = first_dependency(entry) else {
                return Some(alone);
            };
            sought = first;
            otherwise = Some(alone);
        }
    }
    otherwise
}

/// The section of an entry behind these.
fn section_behind(before: &[Entry], entry: &Entry) -> u8
    ensures { result ≡ section_behind (reverse before.now) entry.now }
{
    match first_dependency(entry) {
        None => section_by(None, entry),
        Some(first) => section_by(section_among(before, first), entry),
    }
}

/// Whether the entry with this id, the last one of several, is taken.
fn is_taken_among(options: &Options, entries: &[Entry], id: u32) -> Option<bool>
    ensures { result ≡ is_taken_among options.now (reverse entries.now) id }
{
    let mut rest = entries;
    let mut sought = id;
    let mut otherwise = None;
    while let Some((entry, before)) = rest.split_last() {
        rest = before;
        if entry.dump_id == sought {
            let alone = takes(options, section_behind(before, entry), None, entry);
            let Some(first) = asked_of(options, entry) else {
                return Some(alone);
            };
            sought = first;
            otherwise = Some(alone);
        }
    }
    otherwise
}

/// Whether an entry is taken behind these.
fn is_taken_behind(options: &Options, before: &[Entry], entry: &Entry) -> bool
    ensures { result ≡ is_taken_behind options.now (reverse before.now) entry.now }
{
    let section = section_behind(before, entry);
    match first_dependency(entry) {
        None => takes(options, section, None, entry),
        Some(first) => takes(
            options,
            section,
            is_taken_among(options, before, first),
            entry,
        ),
    }
}

/// Whether a restore with these options takes the entry at a place.
///
/// What sets up the session is always taken, the database never. A comment or a grant goes with the entry that it lists
/// first as a dependency, where that one stands before it. An entry of no section has that of its first dependency by the
/// same rule, and else comes before the data. Of entries with one dump id the last one before counts. It takes no memory,
/// and passes the entries before the place once or twice; for all entries `wanted_marks` is linear.
/// <https://www.postgresql.org/docs/16/app-pgrestore.html>
pub fn wanted(entries: &[Entry], index: usize, options: &Options) -> bool
    requires { index < length entries.now }
    ensures { result ≡ wanted options.now entries.now index }
{
    is_taken_behind(options, &entries[..index], &entries[index])
}
