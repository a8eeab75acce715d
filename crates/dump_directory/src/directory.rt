//! Writing a dump in the directory format.
ghost use Rattle.std.specs.Prelude.{◌≡◌, ◌+◌, ◌*◌, ◌≤◌, ℕ, List, length, map, None, Some, OnOk, OnErr, IfOk, IfErr};
ghost use Rattle.dump_ports.specs.Tree.{Tree};
ghost use Rattle.toc_layout.specs.Heads.{head_seen};
ghost use Rattle.archive_entries.specs.Extras.{filed};
ghost use Rattle.archive_entries.specs.Fits.{CanBeArchived};
ghost use Rattle.fmt_directory.specs.Directories.{toc_name, rows_name};
ghost use Rattle.dump_files.specs.declared.file.DataFile.{DataFile};
ghost use Rattle.dump_files.specs.Stops.{CountsRead, CountsWrite, IsOfPutting, IsLate, most};
ghost use Rattle.dump_files.specs.Outlets.{Outside, outside, outputs, IsBegun};
ghost use Rattle.dump_plain.specs.Stops.{IsDumpStop};
ghost use Rattle.dump_directory.specs.Files.{AreBeyond, PartSaved, saved};
ghost use Rattle.dump_directory.specs.Directories.{Folder, no_file, toc_dat, with_file, data_out, directory_out, told, Saves, IsLeft};

use crate::whole::{put_file, put_text};
use archive_entries::{can_be_archived, write_filed};
use copy_text::Text;
use dump_files::{DataFile, DumpStop};
use dump_ports::{Files, Sink};
use fmt_directory::{rows_path, toc_path};
use std::alloc::Global;
use toc_entry::{Entry, Head};

/// Writes a dump in the directory format into a folder: `toc.dat` with the head and the entries, and then for each entry with
/// rows a file with those of the next data file. Says how many rows are in it.
///
/// Each entry with rows tells the name of its file, `<dump_id>.dat`. What an entry itself says of the place of its rows isn't
/// looked at. `out` stays as it was.
///
/// Each data file is read once, a piece at a time. After an error some of the files are whole, the next one is in part or as it
/// was, and the later ones are untouched. Nothing is written, and `Memory` is told, of a head and entries of which no archive
/// can be made. <https://www.postgresql.org/docs/16/app-pgdump.html>
pub fn directory_dump<F: Files, O: Sink>(
    alloc: Global,
    files: &mut F,
    out: &mut O,
    folder: &Text,
    head: &Head,
    entries: &[Entry],
    needed: &[DataFile],
) -> Result<u64, DumpStop>
    requires { length needed.now ≤ 200000 }
    ensures ok { (tree : Tree) → F.tree files.old ≡ Some tree → AreBeyond folder.now needed.now → let due = directory_out tree folder.now head.now entries.now needed.now in
        IfOk result (λ rows. (due.bad ≡ None) × (rows ≡ due.rows) × (outside (F.tree files.new) (O.written out.new) ≡ saved due.files (outside (F.tree files.old) (O.written out.old)))) }
    ensures err { (tree : Tree) → F.tree files.old ≡ Some tree → AreBeyond folder.now needed.now → let due = directory_out tree folder.now head.now entries.now needed.now in
        IfErr result (λ stop. IsDumpStop tree needed.now (told due) stop × PartSaved due.files (outside (F.tree files.old) (O.written out.old)) (outside (F.tree files.new) (O.written out.new))) }
    ensures archive { OnOk result (CanBeArchived (head_seen head.now) entries.now) }
    ensures putting { IfErr result IsOfPutting }
    ensures read_count { CountsRead result (F.read_faults files.old) (F.read_faults files.new) }
    ensures write_count { CountsWrite result (F.write_faults files.old) (F.write_faults files.new) }
    ensures out_count { O.faults out.new ≡ O.faults out.old }
{
    if !can_be_archived(head, entries) {
        return Err(DumpStop::Memory);
    }
    put_toc(alloc, files, out, folder, head, entries)?;
    let rows = put_data(alloc, files, out, folder, entries, needed)?;
    Ok(rows)
}

/// Writes `toc.dat`.
fn put_toc<F: Files, O: Sink>(
    alloc: Global,
    files: &mut F,
    out: &mut O,
    folder: &Text,
    head: &Head,
    entries: &[Entry],
) -> Result<(), DumpStop>
    requires { CanBeArchived (head_seen head.now) entries.now }
    ensures ok { OnOk result (outside (F.tree files.new) (O.written out.new) ≡ outputs (Some (toc_name folder.now)) (toc_dat head.now (map filed entries.now)) (outside (F.tree files.old) (O.written out.old))) }
    ensures err { OnErr result (IsBegun (Some (toc_name folder.now)) (toc_dat head.now (map filed entries.now)) (outside (F.tree files.old) (O.written out.old)) (outside (F.tree files.new) (O.written out.new))) }
    ensures late { IfErr result IsLate }
    ensures read_count { F.read_faults files.new ≡ F.read_faults files.old }
    ensures write_count { CountsWrite result (F.write_faults files.old) (F.write_faults files.new) }
    ensures out_count { O.faults out.new ≡ O.faults out.old }
{
    let mut text = Vec::new(alloc);
    write_filed(alloc, head, entries, &mut text)?;
    let name = toc_path(alloc, folder.as_str())?;
    put_text(files, out, name, &text)?;
    Ok(())
}

/// Writes the file of each entry with rows.
fn put_data<F: Files, O: Sink>(
    alloc: Global,
    files: &mut F,
    out: &mut O,
    folder: &Text,
    entries: &[Entry],
    needed: &[DataFile],
) -> Result<u64, DumpStop>
    requires { length needed.now ≤ 200000 }
    ensures ok { (tree : Tree) (before : Outside) (due : Folder) → before.tree ≡ Some tree → AreBeyond folder.now needed.now → Saves folder.now due before (outside (F.tree files.old) (O.written out.old)) 0 (data_out tree folder.now entries.now needed.now)
        → IfOk result (λ rows. Saves folder.now due before (outside (F.tree files.new) (O.written out.new)) rows no_file) }
    ensures err { (tree : Tree) (before : Outside) (due : Folder) → before.tree ≡ Some tree → AreBeyond folder.now needed.now → Saves folder.now due before (outside (F.tree files.old) (O.written out.old)) 0 (data_out tree folder.now entries.now needed.now)
        → IfErr result (λ stop. IsDumpStop tree needed.now (told due) stop × PartSaved due.files before (outside (F.tree files.new) (O.written out.new))) }
    ensures putting { IfErr result IsOfPutting }
    ensures read_count { CountsRead result (F.read_faults files.old) (F.read_faults files.new) }
    ensures write_count { CountsWrite result (F.write_faults files.old) (F.write_faults files.new) }
    ensures out_count { O.faults out.new ≡ O.faults out.old }
{
    let mut rows: u64 = 0;
    let mut rest = entries;
    let mut leftover = needed;
    while let Some((entry, later)) = rest.split_first() {
        let (count, others) = put_entry(alloc, files, out, folder, entry, leftover)?;
        rows += count;
        leftover = others;
        rest = later;
    }
    Ok(rows)
}

/// Writes the file of an entry, if it has rows and a data file is left. Says how many rows these are, and which data files are
/// left.
fn put_entry<'a, F: Files, O: Sink>(
    alloc: Global,
    files: &mut F,
    out: &mut O,
    folder: &Text,
    entry: &Entry,
    needed: &'a [DataFile],
) -> Result<(u64, &'a [DataFile]), DumpStop>
    ensures ok { (tree : Tree) (before : Outside) (due : Folder) (rows : ℕ) (more : List DataFile → Folder) → before.tree ≡ Some tree → AreBeyond folder.now needed.now
        → Saves folder.now due before (outside (F.tree files.old) (O.written out.old)) rows (with_file tree folder.now entry.now.dump_id entry.now.has_rows needed.now more)
        → IfOk result (λ x. Saves folder.now due before (outside (F.tree files.new) (O.written out.new)) (rows + x.0) (more x.1.now)) }
    ensures err { (tree : Tree) (before : Outside) (due : Folder) (rows : ℕ) (more : List DataFile → Folder) → before.tree ≡ Some tree → AreBeyond folder.now needed.now
        → Saves folder.now due before (outside (F.tree files.old) (O.written out.old)) rows (with_file tree folder.now entry.now.dump_id entry.now.has_rows needed.now more)
        → IfErr result (λ stop. IsDumpStop tree needed.now (told due) stop × PartSaved due.files before (outside (F.tree files.new) (O.written out.new))) }
    ensures left { (tree : Tree) → IfOk result (λ x. IsLeft tree folder.now needed.now x.1.now) }
    ensures few { IfOk result (λ x. x.0 + most * length x.1.now ≤ most * length needed.now) }
    ensures putting { IfErr result IsOfPutting }
    ensures read_count { CountsRead result (F.read_faults files.old) (F.read_faults files.new) }
    ensures write_count { CountsWrite result (F.write_faults files.old) (F.write_faults files.new) }
    ensures out_count { O.faults out.new ≡ O.faults out.old }
{
    if !entry.has_rows {
        return Ok((0, needed));
    }
    let Some((file, others)) = needed.split_first() else {
        return Ok((0, needed));
    };
    let name = rows_path(alloc, folder.as_str(), entry.dump_id)?;
    let count = put_file(alloc, files, out, name, file)?;
    Ok((count, others))
}
