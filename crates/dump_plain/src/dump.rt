//! Writing a plain dump.
ghost use Rattle.std.specs.Prelude.{◌≡◌, ◌+◌, ◌*◌, ◌≤◌, ◌++◌, ℕ, [], List, length, true, None, Some, IfOk, IfErr};
ghost use Rattle.dump_ports.specs.Tree.{Tree};
ghost use Rattle.fmt_text.specs.Parts.{part};
ghost use Rattle.dump_files.specs.Stops.{CountsRead, IsOfPutting, most};
ghost use Rattle.dump_files.specs.Outlets.{Outside, outside, outputs, IsCut, IsBegun, CountsPut, Stands};
ghost use Rattle.dump_plain.specs.Dumps.{Output, after, with_rows, parts_out, plain_out};
ghost use Rattle.dump_plain.specs.Stops.{AreApart, IsDumpStop, Goes, IsLeft};

use copy_text::Text;
use dump_files::{DataFile, DumpStop, begin, flush, put_rows, spill};
use dump_ports::{Files, Sink};
use fmt_text::{Options, put_end, put_head, put_part};
use std::alloc::{AllocError, Global};
use toc_entry::{Entry, Head};

/// Writes a plain dump to a file, or to standard output where none is told: the script's head, the parts of the entries, each
/// that has rows with those of the next data file behind it, and the script's end. Says how many rows are in it.
///
/// Each data file is read once, a piece at a time. After an error a first part of the dump is written, up to the first row
/// that fails. <https://www.postgresql.org/docs/16/app-pgdump.html>
pub fn plain_dump<F: Files, O: Sink>(
    alloc: Global,
    files: &mut F,
    out: &mut O,
    target: &Option<Text>,
    head: &Head,
    entries: &[Entry],
    needed: &[DataFile],
    options: &Options,
) -> Result<u64, DumpStop>
    requires { length needed.now ≤ 200000 }
    ensures ok { (tree : Tree) → F.tree files.old ≡ Some tree → AreApart target.now needed.now → let due = plain_out tree head.now options.now.owners entries.now needed.now in
        IfOk result (λ rows. (due.bad ≡ None) × (rows ≡ due.rows) × (outside (F.tree files.new) (O.written out.new) ≡ outputs target.now due.text (outside (F.tree files.old) (O.written out.old)))) }
    ensures err { (tree : Tree) → F.tree files.old ≡ Some tree → AreApart target.now needed.now → let due = plain_out tree head.now options.now.owners entries.now needed.now in
        IfErr result (λ stop. IsDumpStop tree needed.now due stop × IsBegun target.now due.text (outside (F.tree files.old) (O.written out.old)) (outside (F.tree files.new) (O.written out.new))) }
    ensures putting { IfErr result IsOfPutting }
    ensures read_count { CountsRead result (F.read_faults files.old) (F.read_faults files.new) }
    ensures write_count { CountsPut target.now result (F.write_faults files.old) (F.write_faults files.new) (O.faults out.old) (O.faults out.new) }
{
    begin(files, out, target)?;
    let rows = put_script(
        alloc,
        files,
        out,
        target,
        head,
        entries,
        needed,
        options.owners,
    )?;
    Ok(rows)
}

/// Writes the script once the dump is begun.
fn put_script<F: Files, O: Sink>(
    alloc: Global,
    files: &mut F,
    out: &mut O,
    target: &Option<Text>,
    head: &Head,
    entries: &[Entry],
    needed: &[DataFile],
    owners: bool,
) -> Result<u64, DumpStop>
    requires { length needed.now ≤ 200000 }
    ensures ok { (tree : Tree) (before : Outside) → outside (F.tree files.old) (O.written out.old) ≡ outputs target.now [] before → before.tree ≡ Some tree → AreApart target.now needed.now
        → let due = plain_out tree head.now owners entries.now needed.now in
        IfOk result (λ rows. (due.bad ≡ None) × (rows ≡ due.rows) × (outside (F.tree files.new) (O.written out.new) ≡ outputs target.now due.text before)) }
    ensures err { (tree : Tree) (before : Outside) → outside (F.tree files.old) (O.written out.old) ≡ outputs target.now [] before → before.tree ≡ Some tree → AreApart target.now needed.now
        → let due = plain_out tree head.now owners entries.now needed.now in
        IfErr result (λ stop. IsDumpStop tree needed.now due stop × IsCut target.now due.text before (outside (F.tree files.new) (O.written out.new))) }
    ensures putting { IfErr result IsOfPutting }
    ensures read_count { CountsRead result (F.read_faults files.old) (F.read_faults files.new) }
    ensures write_count { CountsPut target.now result (F.write_faults files.old) (F.write_faults files.new) (O.faults out.old) (O.faults out.new) }
{
    let mut waiting = Vec::new(alloc);
    put_head(head, &mut waiting)?;
    let rows = put_parts(
        alloc,
        files,
        out,
        target,
        entries,
        needed,
        owners,
        &mut waiting,
    )?;
    put_end(&mut waiting)?;
    flush(files, out, target, &mut waiting)?;
    Ok(rows)
}

/// Puts out the parts of the entries, each that has rows with those of the next data file behind it.
fn put_parts<F: Files, O: Sink>(
    alloc: Global,
    files: &mut F,
    out: &mut O,
    target: &Option<Text>,
    entries: &[Entry],
    needed: &[DataFile],
    owners: bool,
    waiting: &mut Vec<u8>,
) -> Result<u64, DumpStop>
    requires { length needed.now ≤ 200000 }
    ensures ok { (tree : Tree) (done : List ℕ) (before : Outside) (end : Output) → Stands target.now done before (outside (F.tree files.old) (O.written out.old)) waiting.old.items → before.tree ≡ Some tree → AreApart target.now needed.now
        → IfOk result (λ rows. Goes target.now (parts_out tree owners end entries.now needed.now) done before (outside (F.tree files.new) (O.written out.new)) waiting.new.items rows end) }
    ensures err { (tree : Tree) (done : List ℕ) (before : Outside) (end : Output) → Stands target.now done before (outside (F.tree files.old) (O.written out.old)) waiting.old.items → before.tree ≡ Some tree → AreApart target.now needed.now
        → let due = parts_out tree owners end entries.now needed.now in
        IfErr result (λ stop. IsDumpStop tree needed.now due stop × IsCut target.now (done ++ due.text) before (outside (F.tree files.new) (O.written out.new))) }
    ensures putting { IfErr result IsOfPutting }
    ensures read_count { CountsRead result (F.read_faults files.old) (F.read_faults files.new) }
    ensures write_count { CountsPut target.now result (F.write_faults files.old) (F.write_faults files.new) (O.faults out.old) (O.faults out.new) }
{
    let mut rows: u64 = 0;
    let mut rest = entries;
    let mut leftover = needed;
    while let Some((entry, later)) = rest.split_first() {
        let (count, others) = put_entry(
            alloc, files, out, target, entry, leftover, owners, waiting,
        )?;
        rows += count;
        leftover = others;
        rest = later;
    }
    Ok(rows)
}

/// Puts out the part of an entry, and where it has rows those of the next data file. Says how many rows these are, and which
/// data files are left.
fn put_entry<'a, F: Files, O: Sink>(
    alloc: Global,
    files: &mut F,
    out: &mut O,
    target: &Option<Text>,
    entry: &Entry,
    needed: &'a [DataFile],
    owners: bool,
    waiting: &mut Vec<u8>,
) -> Result<(u64, &'a [DataFile]), DumpStop>
    ensures ok { (tree : Tree) (done : List ℕ) (before : Outside) (more : List DataFile → Output) → Stands target.now done before (outside (F.tree files.old) (O.written out.old)) waiting.old.items → before.tree ≡ Some tree → AreApart target.now needed.now
        → IfOk result (λ x. Goes target.now (after (part owners entry.now None) 0 (with_rows tree entry.now.has_rows needed.now more)) done before (outside (F.tree files.new) (O.written out.new)) waiting.new.items x.0 (more x.1.now)) }
    ensures err { (tree : Tree) (done : List ℕ) (before : Outside) (more : List DataFile → Output) → Stands target.now done before (outside (F.tree files.old) (O.written out.old)) waiting.old.items → before.tree ≡ Some tree → AreApart target.now needed.now
        → let due = after (part owners entry.now None) 0 (with_rows tree entry.now.has_rows needed.now more) in
        IfErr result (λ stop. IsDumpStop tree needed.now due stop × IsCut target.now (done ++ due.text) before (outside (F.tree files.new) (O.written out.new))) }
    ensures left { (tree : Tree) → IfOk result (λ x. IsLeft tree target.now needed.now x.1.now) }
    ensures few { IfOk result (λ x. x.0 + most * length x.1.now ≤ most * length needed.now) }
    ensures putting { IfErr result IsOfPutting }
    ensures read_count { CountsRead result (F.read_faults files.old) (F.read_faults files.new) }
    ensures write_count { CountsPut target.now result (F.write_faults files.old) (F.write_faults files.new) (O.faults out.old) (O.faults out.new) }
{
    put_part(alloc, entry, &None, owners, waiting)?;
    spill(files, out, target, waiting)?;
    if !entry.has_rows {
        return Ok((0, needed));
    }
    let (count, others) = put_next(alloc, files, out, target, needed, waiting)?;
    Ok((count, others))
}

/// Puts out the rows of the next data file, if one is left.
fn put_next<'a, F: Files, O: Sink>(
    alloc: Global,
    files: &mut F,
    out: &mut O,
    target: &Option<Text>,
    needed: &'a [DataFile],
    waiting: &mut Vec<u8>,
) -> Result<(u64, &'a [DataFile]), DumpStop>
    ensures ok { (tree : Tree) (done : List ℕ) (before : Outside) (more : List DataFile → Output) → Stands target.now done before (outside (F.tree files.old) (O.written out.old)) waiting.old.items → before.tree ≡ Some tree → AreApart target.now needed.now
        → IfOk result (λ x. Goes target.now (with_rows tree true needed.now more) done before (outside (F.tree files.new) (O.written out.new)) waiting.new.items x.0 (more x.1.now)) }
    ensures err { (tree : Tree) (done : List ℕ) (before : Outside) (more : List DataFile → Output) → Stands target.now done before (outside (F.tree files.old) (O.written out.old)) waiting.old.items → before.tree ≡ Some tree → AreApart target.now needed.now
        → let due = with_rows tree true needed.now more in
        IfErr result (λ stop. IsDumpStop tree needed.now due stop × IsCut target.now (done ++ due.text) before (outside (F.tree files.new) (O.written out.new))) }
    ensures left { (tree : Tree) → IfOk result (λ x. IsLeft tree target.now needed.now x.1.now) }
    ensures few { IfOk result (λ x. x.0 + most * length x.1.now ≤ most * length needed.now) }
    ensures putting { IfErr result IsOfPutting }
    ensures read_count { CountsRead result (F.read_faults files.old) (F.read_faults files.new) }
    ensures write_count { CountsPut target.now result (F.write_faults files.old) (F.write_faults files.new) (O.faults out.old) (O.faults out.new) }
{
    let Some((file, others)) = needed.split_first() else {
        return Ok((0, needed));
    };
    let rows = put_rows(alloc, files, out, target, file, waiting)?;
    Ok((rows, others))
}
