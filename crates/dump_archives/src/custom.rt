//! Writing a dump in the custom format.
ghost use Rattle.std.specs.Prelude.{◌≡◌, ◌+◌, ◌*◌, ◌≤◌, ◌++◌, ℕ, [], List, length, None, Some, OnOk, IfOk, IfErr};
ghost use Rattle.archive_entries.specs.Fits.{CanBeArchived};
ghost use Rattle.dump_files.specs.declared.file.DataFile.{DataFile};
ghost use Rattle.dump_ports.specs.Tree.{Tree};
ghost use Rattle.toc_layout.specs.Heads.{head_seen};
ghost use Rattle.dump_files.specs.Stops.{CountsRead, IsOfPutting, most};
ghost use Rattle.dump_files.specs.Outlets.{Outside, outside, outputs, IsCut, CountsPut, Stands};
ghost use Rattle.dump_plain.specs.Dumps.{Output, of_text};
ghost use Rattle.dump_plain.specs.Stops.{AreApart, IsDumpStop, Goes, IsLeft};
ghost use Rattle.dump_archives.specs.Customs.{with_block, blocks_out, first_front, unplaced_out, place_then, places_from, custom_written, IsHalted};
ghost use Rattle.dump_archives.specs.Growing.{Grown};

use crate::block::put_block;
use crate::front::place_front;
use crate::passing::place;
use archive_entries::{can_be_archived, write_unplaced};
use copy_text::Text;
use dump_files::{DataFile, DumpStop, begin, flush};
use dump_ports::{Files, Sink};
use fmt_custom::laws::blocks_grow_by_pieces;
use std::alloc::Global;
use toc_entry::{Entry, Head};

/// Writes a dump in the custom format to a file, or to standard output where none is told: the head and the entries, and the
/// block of each entry with rows, those of the next data file. Says how many rows are in it.
///
/// The entries are told without the places of their blocks. Once all is out, those of a file are told anew with them; on
/// standard output they stay as they are. What an entry itself says of the place of its rows isn't looked at.
///
/// Each data file is read once, a piece at a time. After an error a first part of the dump is written, up to the first row
/// that fails; or, where none fails, in a file all of it, and the places are told in part. So no place is told where a row
/// fails. Nothing is written, and `Memory` is told, of a head and entries of which no archive can be made.
/// <https://www.postgresql.org/docs/16/app-pgdump.html>
pub fn custom_dump<F: Files, O: Sink>(
    alloc: Global,
    files: &mut F,
    out: &mut O,
    target: &Option<Text>,
    head: &Head,
    entries: &[Entry],
    needed: &[DataFile],
) -> Result<u64, DumpStop>
    requires { length needed.now ≤ 200000 }
    ensures ok { (tree : Tree) → F.tree files.old ≡ Some tree → AreApart target.now needed.now → let due = unplaced_out tree head.now entries.now needed.now in
        IfOk result (λ rows. (due.bad ≡ None) × (rows ≡ due.rows) × (outside (F.tree files.new) (O.written out.new) ≡ outputs target.now (custom_written tree target.now head.now entries.now needed.now) (outside (F.tree files.old) (O.written out.old)))) }
    ensures err { (tree : Tree) → F.tree files.old ≡ Some tree → AreApart target.now needed.now → let due = unplaced_out tree head.now entries.now needed.now in
        IfErr result (λ stop. IsDumpStop tree needed.now due stop × IsHalted tree target.now head.now entries.now needed.now (outside (F.tree files.old) (O.written out.old)) (outside (F.tree files.new) (O.written out.new))) }
    ensures archive { OnOk result (CanBeArchived (head_seen head.now) entries.now) }
    ensures putting { IfErr result IsOfPutting }
    ensures read_count { CountsRead result (F.read_faults files.old) (F.read_faults files.new) }
    ensures write_count { CountsPut target.now result (F.write_faults files.old) (F.write_faults files.new) (O.faults out.old) (O.faults out.new) }
{
    if !can_be_archived(head, entries) {
        return Err(DumpStop::Memory);
    }
    let rows = put_dump(alloc, files, out, target, head, entries, needed)?;
    Ok(rows)
}

/// Writes the dump of a head and entries of which an archive can be made.
fn put_dump<F: Files, O: Sink>(
    alloc: Global,
    files: &mut F,
    out: &mut O,
    target: &Option<Text>,
    head: &Head,
    entries: &[Entry],
    needed: &[DataFile],
) -> Result<u64, DumpStop>
    requires few { length needed.now ≤ 200000 }
    requires archive { CanBeArchived (head_seen head.now) entries.now }
    ensures ok { (tree : Tree) → F.tree files.old ≡ Some tree → AreApart target.now needed.now → let due = unplaced_out tree head.now entries.now needed.now in
        IfOk result (λ rows. (due.bad ≡ None) × (rows ≡ due.rows) × (outside (F.tree files.new) (O.written out.new) ≡ outputs target.now (custom_written tree target.now head.now entries.now needed.now) (outside (F.tree files.old) (O.written out.old)))) }
    ensures err { (tree : Tree) → F.tree files.old ≡ Some tree → AreApart target.now needed.now → let due = unplaced_out tree head.now entries.now needed.now in
        IfErr result (λ stop. IsDumpStop tree needed.now due stop × IsHalted tree target.now head.now entries.now needed.now (outside (F.tree files.old) (O.written out.old)) (outside (F.tree files.new) (O.written out.new))) }
    ensures putting { IfErr result IsOfPutting }
    ensures read_count { CountsRead result (F.read_faults files.old) (F.read_faults files.new) }
    ensures write_count { CountsPut target.now result (F.write_faults files.old) (F.write_faults files.new) (O.faults out.old) (O.faults out.new) }
{
    begin(files, out, target)?;
    let mut places = Vec::new(alloc);
    let rows = put_archive(
        alloc,
        files,
        out,
        target,
        head,
        entries,
        needed,
        &mut places,
    )?;
    place_front(alloc, files, target, head, entries, &places)?;
    Ok(rows)
}

/// Writes the archive once the dump is begun, and gives the places of its blocks.
fn put_archive<F: Files, O: Sink>(
    alloc: Global,
    files: &mut F,
    out: &mut O,
    target: &Option<Text>,
    head: &Head,
    entries: &[Entry],
    needed: &[DataFile],
    places: &mut Vec<u64>,
) -> Result<u64, DumpStop>
    requires few { length needed.now ≤ 200000 }
    requires archive { CanBeArchived (head_seen head.now) entries.now }
    ensures ok { (tree : Tree) (before : Outside) → outside (F.tree files.old) (O.written out.old) ≡ outputs target.now [] before → before.tree ≡ Some tree → AreApart target.now needed.now
        → let due = unplaced_out tree head.now entries.now needed.now in
        IfOk result (λ rows. (due.bad ≡ None) × (rows ≡ due.rows) × (outside (F.tree files.new) (O.written out.new) ≡ outputs target.now due.text before)) }
    ensures places { (tree : Tree) (before : Outside) (name : List ℕ) → target.now ≡ Some name → outside (F.tree files.old) (O.written out.old) ≡ outputs target.now [] before → before.tree ≡ Some tree → AreApart target.now needed.now
        → OnOk result (places.new.items ≡ places.old.items ++ places_from tree (length (first_front head.now entries.now)) entries.now needed.now) }
    ensures room { (before : Outside) → outside (F.tree files.old) (O.written out.old) ≡ outputs target.now [] before
        → OnOk result ((more : List ℕ) × (outside (F.tree files.new) (O.written out.new) ≡ outputs target.now (first_front head.now entries.now ++ more) before)) }
    ensures err { (tree : Tree) (before : Outside) → outside (F.tree files.old) (O.written out.old) ≡ outputs target.now [] before → before.tree ≡ Some tree → AreApart target.now needed.now
        → let due = unplaced_out tree head.now entries.now needed.now in
        IfErr result (λ stop. IsDumpStop tree needed.now due stop × IsCut target.now due.text before (outside (F.tree files.new) (O.written out.new))) }
    ensures putting { IfErr result IsOfPutting }
    ensures read_count { CountsRead result (F.read_faults files.old) (F.read_faults files.new) }
    ensures write_count { CountsPut target.now result (F.write_faults files.old) (F.write_faults files.new) (O.faults out.old) (O.faults out.new) }
{
    let mut waiting = Vec::new(alloc);
    write_unplaced(head, entries, &mut waiting)?;
    let mut passed: u64 = 0;
    let rows = put_blocks(
        alloc,
        files,
        out,
        target,
        entries,
        needed,
        &mut waiting,
        &mut passed,
        places,
    )?;
    flush(files, out, target, &mut waiting)?;
    Ok(rows)
}

/// Puts out the block of each entry with rows, and gives their places behind those before.
fn put_blocks<F: Files, O: Sink>(
    alloc: Global,
    files: &mut F,
    out: &mut O,
    target: &Option<Text>,
    entries: &[Entry],
    needed: &[DataFile],
    waiting: &mut Vec<u8>,
    passed: &mut u64,
    places: &mut Vec<u64>,
) -> Result<u64, DumpStop>
    requires { length needed.now ≤ 200000 }
    ensures ok { (tree : Tree) (done : List ℕ) (before : Outside) → Stands target.now done before (outside (F.tree files.old) (O.written out.old)) waiting.old.items → before.tree ≡ Some tree → AreApart target.now needed.now
        → IfOk result (λ rows. Goes target.now (blocks_out tree entries.now needed.now) done before (outside (F.tree files.new) (O.written out.new)) waiting.new.items rows (of_text [])) }
    ensures places { (tree : Tree) (done : List ℕ) (before : Outside) (name : List ℕ) → target.now ≡ Some name → Stands target.now done before (outside (F.tree files.old) (O.written out.old)) waiting.old.items → passed.old + length waiting.old.items ≡ length done → before.tree ≡ Some tree → AreApart target.now needed.now
        → OnOk result (places.new.items ≡ places.old.items ++ places_from tree (passed.old + length waiting.old.items) entries.now needed.now) }
    ensures grows { (done : List ℕ) (before : Outside) → Stands target.now done before (outside (F.tree files.old) (O.written out.old)) waiting.old.items → passed.old + length waiting.old.items ≡ length done
        → OnOk result (Grown target.now done before (outside (F.tree files.new) (O.written out.new)) waiting.new.items passed.new) }
    ensures err { (tree : Tree) (done : List ℕ) (before : Outside) → Stands target.now done before (outside (F.tree files.old) (O.written out.old)) waiting.old.items → before.tree ≡ Some tree → AreApart target.now needed.now
        → let due = blocks_out tree entries.now needed.now in
        IfErr result (λ stop. IsDumpStop tree needed.now due stop × IsCut target.now (done ++ due.text) before (outside (F.tree files.new) (O.written out.new))) }
    ensures putting { IfErr result IsOfPutting }
    ensures read_count { CountsRead result (F.read_faults files.old) (F.read_faults files.new) }
    ensures write_count { CountsPut target.now result (F.write_faults files.old) (F.write_faults files.new) (O.faults out.old) (O.faults out.new) }
{
    let mut rows: u64 = 0;
    let mut rest = entries;
    let mut leftover = needed;
    while let Some((entry, later)) = rest.split_first() {
        let (count, others) = put_entry(
            alloc, files, out, target, entry, leftover, waiting, passed, places,
        )?;
        rows += count;
        leftover = others;
        rest = later;
    }
    Ok(rows)
}

/// Puts out the block of an entry, if it has rows and a data file is left, and gives its place behind those before. Says how
/// many rows these are, and which data files are left.
fn put_entry<'a, F: Files, O: Sink>(
    alloc: Global,
    files: &mut F,
    out: &mut O,
    target: &Option<Text>,
    entry: &Entry,
    needed: &'a [DataFile],
    waiting: &mut Vec<u8>,
    passed: &mut u64,
    places: &mut Vec<u64>,
) -> Result<(u64, &'a [DataFile]), DumpStop>
    ensures ok { (tree : Tree) (done : List ℕ) (before : Outside) (more : List DataFile → Output) → Stands target.now done before (outside (F.tree files.old) (O.written out.old)) waiting.old.items → before.tree ≡ Some tree → AreApart target.now needed.now
        → IfOk result (λ x. Goes target.now (with_block tree entry.now.dump_id entry.now.has_rows needed.now more) done before (outside (F.tree files.new) (O.written out.new)) waiting.new.items x.0 (more x.1.now)) }
    ensures places { (tree : Tree) (done : List ℕ) (before : Outside) (name : List ℕ) (more : ℕ → List DataFile → List ℕ) → target.now ≡ Some name → Stands target.now done before (outside (F.tree files.old) (O.written out.old)) waiting.old.items → passed.old + length waiting.old.items ≡ length done → before.tree ≡ Some tree → AreApart target.now needed.now
        → IfOk result (λ x. places.old.items ++ place_then tree (passed.old + length waiting.old.items) entry.now.dump_id entry.now.has_rows needed.now more ≡ places.new.items ++ more (passed.new + length waiting.new.items) x.1.now) }
    ensures grows { (done : List ℕ) (before : Outside) → Stands target.now done before (outside (F.tree files.old) (O.written out.old)) waiting.old.items → passed.old + length waiting.old.items ≡ length done
        → OnOk result (Grown target.now done before (outside (F.tree files.new) (O.written out.new)) waiting.new.items passed.new) }
    ensures err { (tree : Tree) (done : List ℕ) (before : Outside) (more : List DataFile → Output) → Stands target.now done before (outside (F.tree files.old) (O.written out.old)) waiting.old.items → before.tree ≡ Some tree → AreApart target.now needed.now
        → let due = with_block tree entry.now.dump_id entry.now.has_rows needed.now more in
        IfErr result (λ stop. IsDumpStop tree needed.now due stop × IsCut target.now (done ++ due.text) before (outside (F.tree files.new) (O.written out.new))) }
    ensures left { (tree : Tree) → IfOk result (λ x. IsLeft tree target.now needed.now x.1.now) }
    ensures few { IfOk result (λ x. x.0 + most * length x.1.now ≤ most * length needed.now) }
    ensures putting { IfErr result IsOfPutting }
    ensures read_count { CountsRead result (F.read_faults files.old) (F.read_faults files.new) }
    ensures write_count { CountsPut target.now result (F.write_faults files.old) (F.write_faults files.new) (O.faults out.old) (O.faults out.new) }
{
    if !entry.has_rows {
        return Ok((0, needed));
    }
    let Some((file, others)) = needed.split_first() else {
        return Ok((0, needed));
    };
    let at = place(*passed, waiting)?;
    places.push(at)?;
    blocks_grow_by_pieces();
    let rows = put_block(
        alloc,
        files,
        out,
        target,
        entry.dump_id,
        file,
        waiting,
        passed,
    )?;
    Ok((rows, others))
}
