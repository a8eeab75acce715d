//! Reading an archive in the directory format.
ghost use Rattle.std.specs.Prelude.{◌≡◌, ◌-◌, ◌++◌, true, length, ℕ, List, Some, Ok, IfOk, IfErr, string_bytes, codes, decimal};
ghost use Rattle.dump_ports.specs.Tree.{Tree};
ghost use Rattle.toc_parts.specs.Parts.{raised_at};
ghost use Rattle.toc_parts.specs.Answers.{Gives};
ghost use Rattle.toc_layout.specs.declared.fault.ArchiveFault.TheVariants as faults;
ghost use Rattle.toc_layout.specs.Faults.{archive_fault};
ghost use Rattle.toc_layout.specs.Heads.{HeadFields, head_seen, head_in};
ghost use Rattle.toc_table.specs.Tables.{toc, placed_toc_fault};
ghost use Rattle.fmt_directory.specs.Directories.{toc_name, rows_name, text_due, entries_behind, is_directory, toc_dat_in, in_archive};
ghost use Rattle.fmt_directory.specs.Answers.{GivesDue, GivesReader, CountsRead, IsCallFree};

use crate::fault::DirFault;
use copy_text::Text;
use dump_ports::{Files, WholeFault, read_whole};
use itoa::Buffer;
use std::alloc::{AllocError, Global};
use std::collections::BTreeSet;
use toc_entry::{Entry, Head};
use toc_layout::{ArchiveFault, ReadArchiveError, ReadHeadError, split_head};
use toc_table::{Toc, TocStop, has_id, ids_with_rows, read_toc};

/// The most bytes of `toc.dat` and of each data file.
pub const LIMIT: u64 = 268_435_456;

/// An archive in the directory format of which `toc.dat` was read.
#[derive(Drop)]
pub struct DirReader {
    folder: Text,
    head: Head,
    entries: Vec<Entry>,
    // The dump ids of the entries with rows.
    ids: BTreeSet<u32>,
}

/// The text of a string.
fn text_of_string(string: String) -> Text
    ensures { result ≡ string_bytes string }
{
    match Text::new(string.into_bytes()) {
        Some(text) => text,
        None => unreachable!(),
    }
}

/// The path of a directory's `toc.dat`.
pub fn toc_path(alloc: Global, folder: &str) -> Result<Text, AllocError>
    ensures { IfOk result (λ name. name ≡ toc_name folder.now) }
{
    let mut name = String::from_str(alloc, folder)?;
    name.push_str("/toc.dat")?;
    Ok(text_of_string(name))
}

/// The path of the file of the rows of a dump id in a directory.
pub fn rows_path(alloc: Global, folder: &str, dump_id: u32) -> Result<Text, AllocError>
    ensures { IfOk result (λ name. name ≡ rows_name folder.now dump_id) }
{
    let mut name = String::from_str(alloc, folder)?;
    name.push_str("/")?;
    name.push_str(Buffer::new().format(dump_id))?;
    name.push_str(".dat")?;
    Ok(text_of_string(name))
}

/// The bytes of a file, which must be there and within the limit.
fn read_file<F: Files>(alloc: Global, files: &mut F, name: Text) -> Result<Vec<u8>, DirFault>
    ensures due { (tree : Tree) → F.tree files.old ≡ Some tree → GivesDue (λ v. v.items) result (text_due name tree) }
    ensures kept { F.tree files.new ≡ F.tree files.old }
    ensures read_count { CountsRead result (F.read_faults files.old) (F.read_faults files.new) }
    ensures write_count { F.write_faults files.new ≡ F.write_faults files.old }
{
    match read_whole(alloc, files, name.as_str(), LIMIT) {
        Ok(Some(text)) => Ok(text),
        Ok(None) => Err(DirFault::Missing(name)),
        Err(WholeFault::TooLarge(size)) => Err(DirFault::TooLarge(size)),
        Err(WholeFault::Failed) => Err(DirFault::Failed),
        Err(WholeFault::Memory) => Err(DirFault::Memory),
    }
}

fn head_of(alloc: Global, bytes: &[u8]) -> Result<(Head, &[u8]), ReadArchiveError>
    ensures { Gives archive_fault (λ x. (head_seen x.0, x.1.now)) result (raised_at faults.Head (head_in bytes.now)) }
{
    match split_head(alloc, bytes) {
        Ok(found) => Ok(found),
        Err(ReadHeadError::Fault(fault)) => Err(ReadArchiveError::Fault(ArchiveFault::Head(fault))),
        Err(ReadHeadError::Memory) => Err(ReadArchiveError::Memory),
    }
}

fn toc_of(alloc: Global, len: usize, rest: &[u8]) -> Result<(Toc, &[u8]), ReadArchiveError>
    ensures { Gives archive_fault (λ x. (x.0.entries.items, x.1.now)) result (raised_at (placed_toc_fault len) ((toc true).read rest.now)) }
{
    match read_toc(alloc, rest, true) {
        Ok(found) => Ok(found),
        Err(TocStop::Halt(halt)) => Err(ReadArchiveError::Fault(halt.placed(len))),
        Err(TocStop::Memory) => Err(ReadArchiveError::Memory),
    }
}

fn entries_behind(alloc: Global, len: usize, rest: &[u8]) -> Result<Vec<Entry>, ReadArchiveError>
    ensures { (folder : List ℕ) (head : HeadFields) → Gives archive_fault (λ v. record { folder = folder; head = head; entries = v.items }) result (entries_behind len folder head rest.now) }
{
    let (toc, rest) = toc_of(alloc, len, rest)?;
    if !rest.is_empty() {
        let place = len.saturating_sub(rest.len());
        return Err(ReadArchiveError::Fault(ArchiveFault::Block(place)));
    }
    Ok(toc.entries)
}

fn is_directory(format: u8) -> bool
    ensures { result ≡ is_directory format }
{
    matches!(format, 3 | 5)
}

/// The head and the entries of `toc.dat`.
#[tactic(auto, unfolding(crate::specs::Directories::toc_dat_in))]
fn toc_dat(alloc: Global, bytes: &[u8]) -> Result<(Head, Vec<Entry>), ReadArchiveError>
    ensures { (folder : List ℕ) → Gives archive_fault (λ x. record { folder = folder; head = head_seen x.0; entries = x.1.items }) result (toc_dat_in folder bytes.now) }
{
    let (head, rest) = head_of(alloc, bytes)?;
    if !is_directory(head.format) {
        return Err(ReadArchiveError::Fault(ArchiveFault::WrongFormat(head.format)));
    }
    let entries = entries_behind(alloc, bytes.len(), rest)?;
    Ok((head, entries))
}

impl DirReader {
    ghost use Rattle.std.specs.Prelude.{◌≡◌, Some, option_map};
    ghost use Rattle.dump_ports.specs.Tree.{Tree};
    ghost use Rattle.fmt_directory.specs.Directories.{Directory, directory_in, rows_due};
    ghost use Rattle.fmt_directory.specs.Answers.{GivesDue, GivesReader, Holds, CountsRead};
    ghost use Rattle.toc_layout.specs.Heads.{head_seen};

    /// The archive in a folder: its file `toc.dat`, all of it.
    ///
    /// `Missing` names that file, where it is absent; `TooLarge` comes where it has more than 268,435,456 bytes; `Archive` is
    /// the first fault of its bytes. <https://www.postgresql.org/docs/16/app-pgrestore.html>
    pub fn read<F: Files>(alloc: Global, files: &mut F, folder: &str) -> Result<DirReader, DirFault>
        ensures due { (tree : Tree) → F.tree files.old ≡ Some tree → GivesReader (directory_in folder.now tree) result }
        ensures kept { F.tree files.new ≡ F.tree files.old }
        ensures read_count { CountsRead result (F.read_faults files.old) (F.read_faults files.new) }
        ensures write_count { F.write_faults files.new ≡ F.write_faults files.old }
    {
        let path = text_of_string(String::from_str(alloc, folder)?);
        let name = toc_path(alloc, folder)?;
        let bytes = read_file(alloc, files, name)?;
        reader_of(alloc, path, &bytes)
    }

    /// The head.
    pub fn head(&self) -> &Head
        ensures { (d : Directory) → Holds self.now d → head_seen result.now ≡ d.head }
    {
        &self.head
    }

    /// The entries in the order of the archive.
    pub fn entries(&self) -> &[Entry]
        ensures { (d : Directory) → Holds self.now d → result.now ≡ d.entries }
    {
        &self.entries
    }

    /// The rows of the entry with this dump id, from the file `<dump_id>.dat` of the folder; `None` exactly where no entry
    /// with rows has it.
    pub fn rows<F: Files>(
        &self,
        alloc: Global,
        files: &mut F,
        dump_id: u32,
    ) -> Result<Option<Vec<u8>>, DirFault>
        ensures due { (d : Directory) (tree : Tree) → Holds self.now d → F.tree files.old ≡ Some tree
            → GivesDue (option_map (λ v. v.items)) result (rows_due d dump_id tree) }
        ensures kept { F.tree files.new ≡ F.tree files.old }
        ensures read_count { CountsRead result (F.read_faults files.old) (F.read_faults files.new) }
        ensures write_count { F.write_faults files.new ≡ F.write_faults files.old }
    {
        if !has_id(&self.ids, dump_id) {
            return Ok(None);
        }
        let name = rows_path(alloc, self.folder.as_str(), dump_id)?;
        let rows = read_file(alloc, files, name)?;
        Ok(Some(rows))
    }
}

/// The reader of a folder whose `toc.dat` has these bytes.
fn reader_of(alloc: Global, folder: Text, bytes: &[u8]) -> Result<DirReader, DirFault>
    ensures held { GivesReader (in_archive (toc_dat_in folder bytes.now)) result }
    ensures uncounted { IfErr result IsCallFree }
{
    match toc_dat(alloc, bytes) {
        Ok((head, entries)) => with_ids(alloc, folder, head, entries),
        Err(ReadArchiveError::Fault(fault)) => Err(DirFault::Archive(fault)),
        Err(ReadArchiveError::Memory) => Err(DirFault::Memory),
    }
}

fn with_ids(
    alloc: Global,
    folder: Text,
    head: Head,
    entries: Vec<Entry>,
) -> Result<DirReader, DirFault>
    ensures held { GivesReader (Ok (record { folder = folder; head = head_seen head; entries = entries.items })) result }
    ensures uncounted { IfErr result IsCallFree }
{
    let ids = ids_with_rows(alloc, &entries)?;
    Ok(DirReader {
        folder,
        head,
        entries,
        ids,
    })
}
