//! The script of a directory archive.
ghost use Rattle.std.specs.Prelude.{◌≡◌, ◌++◌, Some, slice_get, IfErr, IfOk, option_map};
ghost use Rattle.dump_ports.specs.Tree.{Tree};
ghost use Rattle.fmt_text.specs.Script.{script_end};
ghost use Rattle.fmt_directory.specs.Answers.{GivesDue, Holds, CountsRead, IsCallFree};
ghost use Rattle.fmt_directory.specs.Directories.{Directory};
ghost use Rattle.archive_scripts.specs.Answers.{PutsPart};
ghost use Rattle.archive_scripts.specs.Scripts.{head_text};
ghost use Rattle.archive_scripts.specs.Directories.{counted, rows_len, rows_within, part_due, parts_due, directory_script};

use crate::entries::entry_at;
use dump_ports::Files;
use fmt_directory::{DirFault, DirReader};
use fmt_text::{put_end, put_head, put_part};
use std::alloc::{AllocError, Global};
use toc_entry::Entry;

/// The most bytes of an archive, of a directory's files together.
pub const LIMIT: u64 = 268_435_456;

// So many bytes and so many more, within the limit of all of them.
fn counted(used: u64, more: u64) -> Result<u64, DirFault>
    ensures due { GivesDue (λ n. n) result (counted used more) }
    ensures uncounted { IfErr result IsCallFree }
{
    match used.checked_add(more) {
        Some(total) if total <= LIMIT => Ok(total),
        _ => Err(DirFault::TooLarge(LIMIT + 1)),
    }
}

fn rows_len(rows: &Option<Vec<u8>>) -> u64
    ensures { result ≡ rows_len (option_map (λ v. v.items) rows.now) }
{
    match rows {
        None => 0,
        Some(rows) => rows.len() as u64,
    }
}

/// The rows of the entry of a directory archive with a dump id, where it has rows, and how many bytes of the archive were
/// read with them; `used` were read before.
///
/// `Missing` names the file where it is absent, and `TooLarge` comes where the archive then has more than 268,435,456 bytes.
/// `Failed` comes exactly where a call of the files failed. Nothing is written.
#[tactic(auto, unfolding(crate::specs::Directories::rows_within))]
pub fn rows_within<F: Files>(
    alloc: Global,
    files: &mut F,
    reader: &DirReader,
    used: u64,
    dump_id: u32,
) -> Result<(Option<Vec<u8>>, u64), DirFault>
    ensures due { (d : Directory) (tree : Tree) → Holds reader.now d → F.tree files.old ≡ Some tree
        → GivesDue (λ x. (option_map (λ v. v.items) x.0, x.1)) result (rows_within d tree used dump_id) }
    ensures kept { F.tree files.new ≡ F.tree files.old }
    ensures read_count { CountsRead result (F.read_faults files.old) (F.read_faults files.new) }
    ensures write_count { F.write_faults files.new ≡ F.write_faults files.old }
{
    let rows = reader.rows(alloc, files, dump_id)?;
    let total = counted(used, rows_len(&rows))?;
    Ok((rows, total))
}

// Appends the part of an entry, and answers how many bytes were read with its rows.
fn put_entry<F: Files>(
    alloc: Global,
    files: &mut F,
    reader: &DirReader,
    used: u64,
    entry: &Entry,
    owners: bool,
    text: &mut Vec<u8>,
) -> Result<u64, DirFault>
    ensures due { (d : Directory) (tree : Tree) → Holds reader.now d → F.tree files.old ≡ Some tree
        → PutsPart text.old.items text.new.items result (part_due owners d tree used (Some entry.now)) }
    ensures kept { F.tree files.new ≡ F.tree files.old }
    ensures read_count { CountsRead result (F.read_faults files.old) (F.read_faults files.new) }
    ensures write_count { F.write_faults files.new ≡ F.write_faults files.old }
{
    let (rows, total) = rows_within(alloc, files, reader, used, entry.dump_id)?;
    put_part(alloc, entry, &rows, owners, text)?;
    Ok(total)
}

// Appends the part of the entry at a place, and answers how many bytes were read with its rows.
fn put_at<F: Files>(
    alloc: Global,
    files: &mut F,
    reader: &DirReader,
    used: u64,
    place: usize,
    owners: bool,
    text: &mut Vec<u8>,
) -> Result<u64, DirFault>
    ensures due { (d : Directory) (tree : Tree) → Holds reader.now d → F.tree files.old ≡ Some tree
        → PutsPart text.old.items text.new.items result (part_due owners d tree used (slice_get d.entries place)) }
    ensures kept { F.tree files.new ≡ F.tree files.old }
    ensures read_count { CountsRead result (F.read_faults files.old) (F.read_faults files.new) }
    ensures write_count { F.write_faults files.new ≡ F.write_faults files.old }
{
    match entry_at(reader.entries(), place) {
        None => Ok(used),
        Some(entry) => put_entry(alloc, files, reader, used, entry, owners, text),
    }
}

// The text with the parts of the entries at places behind it.
fn with_parts<F: Files>(
    alloc: Global,
    files: &mut F,
    reader: &DirReader,
    used: u64,
    places: &[usize],
    owners: bool,
    text: Vec<u8>,
) -> Result<Vec<u8>, DirFault>
    ensures due { (d : Directory) (tree : Tree) → Holds reader.now d → F.tree files.old ≡ Some tree
        → GivesDue (λ v. v.items) result (parts_due owners d tree used text.items places.now) }
    ensures kept { F.tree files.new ≡ F.tree files.old }
    ensures read_count { CountsRead result (F.read_faults files.old) (F.read_faults files.new) }
    ensures write_count { F.write_faults files.new ≡ F.write_faults files.old }
{
    let mut all = text;
    let mut bytes = used;
    for place in places {
        bytes = put_at(alloc, files, reader, bytes, *place, owners, &mut all)?;
    }
    Ok(all)
}

#[tactic(auto, unfolding(fmt_text::specs::Script::script_head))]
fn front(alloc: Global, reader: &DirReader) -> Result<Vec<u8>, AllocError>
    ensures { (d : Directory) → Holds reader.now d → IfOk result (λ text. text.items ≡ head_text d.head) }
{
    let mut text = Vec::new(alloc);
    put_head(reader.head(), &mut text)?;
    Ok(text)
}

fn with_end(mut text: Vec<u8>) -> Result<Vec<u8>, AllocError>
    ensures { IfOk result (λ all. all.items ≡ text.items ++ script_end) }
{
    put_end(&mut text)?;
    Ok(text)
}

/// The plain script of the entries of a directory archive at these places, in their order, with owners or without.
///
/// The file of each entry with rows is read once, in that order: `Missing` names the first that is absent, and `TooLarge`
/// comes at the first with which the archive has more than 268,435,456 bytes, of which `used` were read before. `Failed`
/// comes exactly where a call of the files failed. A place past the last entry stands for none.
/// <https://www.postgresql.org/docs/16/app-pgrestore.html>
#[tactic(auto, unfolding(crate::specs::Directories::directory_script))]
pub fn directory_script<F: Files>(
    alloc: Global,
    files: &mut F,
    reader: &DirReader,
    used: u64,
    places: &[usize],
    owners: bool,
) -> Result<Vec<u8>, DirFault>
    ensures due { (d : Directory) (tree : Tree) → Holds reader.now d → F.tree files.old ≡ Some tree
        → GivesDue (λ v. v.items) result (directory_script owners d tree used places.now) }
    ensures kept { F.tree files.new ≡ F.tree files.old }
    ensures read_count { CountsRead result (F.read_faults files.old) (F.read_faults files.new) }
    ensures write_count { F.write_faults files.new ≡ F.write_faults files.old }
{
    let text = front(alloc, reader)?;
    let text = with_parts(alloc, files, reader, used, places, owners, text)?;
    Ok(with_end(text)?)
}
