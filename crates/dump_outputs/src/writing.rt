//! Writing a dump in its format.
ghost use Rattle.std.specs.Prelude.{◌≡◌, ◌≤◌, length, map, None, Some, IfOk, IfErr, OnOk, OnErr};
ghost use Rattle.dump_ports.specs.Tree.{Tree};
ghost use Rattle.dump_files.specs.Stops.{CountsRead, IsLate, IsOfPutting};
ghost use Rattle.dump_files.specs.Outlets.{outside, outputs, IsBegun, CountsPut};
ghost use Rattle.dump_plain.specs.Dumps.{plain_out};
ghost use Rattle.dump_plain.specs.Stops.{AreApart};
ghost use Rattle.dump_archives.specs.Customs.{unplaced_out, custom_front};
ghost use Rattle.dump_directory.specs.Files.{AreBeyond};
ghost use Rattle.dump_directory.specs.Directories.{directory_out};
ghost use Rattle.dump_outputs.specs.Counts.{CountsOut};
ghost use Rattle.dump_outputs.specs.Forms.{one_piece, script_put, custom_put, stored, dump_put, IsClear, IsStop};
ghost use Rattle.dump_outputs.specs.Pieces.{all_out, PartOut};

use crate::form::DumpForm;
use copy_text::Text;
use dump_archives::custom_dump;
use dump_directory::directory_dump;
use dump_files::{DataFile, DumpStop, begin, put};
use dump_plain::plain_dump;
use dump_ports::{Files, Sink};
use fmt_text::Options;
use std::alloc::Global;
use toc_entry::{Entry, Head};

/// Puts a text to the file of this name, or to standard output. The only errors are `WriteFault` and `Memory`. After one some
/// first part of the text is there, or a file is as it was.
pub fn put_whole<F: Files, O: Sink>(
    files: &mut F,
    out: &mut O,
    target: &Option<Text>,
    text: &[u8],
) -> Result<(), DumpStop>
    ensures ok { OnOk result (outside (F.tree files.new) (O.written out.new) ≡ all_out (one_piece target.now text.now None).pieces (outside (F.tree files.old) (O.written out.old))) }
    ensures err { OnErr result (PartOut (one_piece target.now text.now None).pieces (outside (F.tree files.old) (O.written out.old)) (outside (F.tree files.new) (O.written out.new))) }
    ensures late { IfErr result IsLate }
    ensures read_count { F.read_faults files.new ≡ F.read_faults files.old }
    ensures write_count { CountsOut result (F.write_faults files.old) (F.write_faults files.new) (O.faults out.old) (O.faults out.new) }
{
    begin(files, out, target)?;
    put(files, out, target, text)
}

// A script.
fn write_script<F: Files, O: Sink>(
    alloc: Global,
    files: &mut F,
    out: &mut O,
    target: &Option<Text>,
    owners: bool,
    head: &Head,
    entries: &[Entry],
    needed: &[DataFile],
) -> Result<(), DumpStop>
    requires { length needed.now ≤ 200000 }
    ensures ok { (tree : Tree) → F.tree files.old ≡ Some tree → AreApart target.now needed.now → let due = script_put target.now (plain_out tree head.now owners entries.now needed.now) in
        OnOk result ((due.bad ≡ None) × (outside (F.tree files.new) (O.written out.new) ≡ all_out due.pieces (outside (F.tree files.old) (O.written out.old)))) }
    ensures err { (tree : Tree) → F.tree files.old ≡ Some tree → AreApart target.now needed.now → let due = script_put target.now (plain_out tree head.now owners entries.now needed.now) in
        IfErr result (λ stop. IsStop tree needed.now due.bad stop × PartOut due.pieces (outside (F.tree files.old) (O.written out.old)) (outside (F.tree files.new) (O.written out.new))) }
    ensures putting { IfErr result IsOfPutting }
    ensures read_count { CountsRead result (F.read_faults files.old) (F.read_faults files.new) }
    ensures write_count { CountsOut result (F.write_faults files.old) (F.write_faults files.new) (O.faults out.old) (O.faults out.new) }
{
    match plain_dump(
        alloc,
        files,
        out,
        target,
        head,
        entries,
        needed,
        &Options { owners },
    ) {
        Ok(_) => Ok(()),
        Err(stop) => Err(stop),
    }
}

// A custom archive.
fn write_custom<F: Files, O: Sink>(
    alloc: Global,
    files: &mut F,
    out: &mut O,
    target: &Option<Text>,
    head: &Head,
    entries: &[Entry],
    needed: &[DataFile],
) -> Result<(), DumpStop>
    requires { length needed.now ≤ 200000 }
    ensures ok { (tree : Tree) → F.tree files.old ≡ Some tree → AreApart target.now needed.now → let due = custom_put target.now (unplaced_out tree head.now entries.now needed.now) (custom_front tree head.now entries.now needed.now) in
        OnOk result ((due.bad ≡ None) × (outside (F.tree files.new) (O.written out.new) ≡ all_out due.pieces (outside (F.tree files.old) (O.written out.old)))) }
    ensures err { (tree : Tree) → F.tree files.old ≡ Some tree → AreApart target.now needed.now → let due = custom_put target.now (unplaced_out tree head.now entries.now needed.now) (custom_front tree head.now entries.now needed.now) in
        IfErr result (λ stop. IsStop tree needed.now due.bad stop × PartOut due.pieces (outside (F.tree files.old) (O.written out.old)) (outside (F.tree files.new) (O.written out.new))) }
    ensures putting { IfErr result IsOfPutting }
    ensures read_count { CountsRead result (F.read_faults files.old) (F.read_faults files.new) }
    ensures write_count { CountsOut result (F.write_faults files.old) (F.write_faults files.new) (O.faults out.old) (O.faults out.new) }
{
    match custom_dump(alloc, files, out, target, head, entries, needed) {
        Ok(_) => Ok(()),
        Err(stop) => Err(stop),
    }
}

// An archive in a folder.
fn write_directory<F: Files, O: Sink>(
    alloc: Global,
    files: &mut F,
    out: &mut O,
    folder: &Text,
    head: &Head,
    entries: &[Entry],
    needed: &[DataFile],
) -> Result<(), DumpStop>
    requires { length needed.now ≤ 200000 }
    ensures ok { (tree : Tree) → F.tree files.old ≡ Some tree → AreBeyond folder.now needed.now → let due = directory_out tree folder.now head.now entries.now needed.now in
        OnOk result ((due.bad ≡ None) × (outside (F.tree files.new) (O.written out.new) ≡ all_out (map stored due.files) (outside (F.tree files.old) (O.written out.old)))) }
    ensures err { (tree : Tree) → F.tree files.old ≡ Some tree → AreBeyond folder.now needed.now → let due = directory_out tree folder.now head.now entries.now needed.now in
        IfErr result (λ stop. IsStop tree needed.now due.bad stop × PartOut (map stored due.files) (outside (F.tree files.old) (O.written out.old)) (outside (F.tree files.new) (O.written out.new))) }
    ensures putting { IfErr result IsOfPutting }
    ensures read_count { CountsRead result (F.read_faults files.old) (F.read_faults files.new) }
    ensures write_count { CountsOut result (F.write_faults files.old) (F.write_faults files.new) (O.faults out.old) (O.faults out.new) }
{
    match directory_dump(alloc, files, out, folder, head, entries, needed) {
        Ok(_) => Ok(()),
        Err(stop) => Err(stop),
    }
}

/// Writes a dump in its format, and where it goes: a script or a custom archive to a file or to standard output, an archive in
/// the directory format into a folder. A custom archive in a file tells the places of its blocks once all of them are there.
///
/// The files that are read have to stand apart from those that are written. Each is read once, a piece at a time. After an
/// error some first part of the dump is written, up to the first row that fails; no place is told where one fails.
/// <https://www.postgresql.org/docs/16/app-pgdump.html>
#[tactic(auto, unfolding(crate::specs::Forms::dump_put, crate::specs::Forms::IsClear))]
pub fn write_dump<F: Files, O: Sink>(
    alloc: Global,
    files: &mut F,
    out: &mut O,
    form: &DumpForm,
    head: &Head,
    entries: &[Entry],
    needed: &[DataFile],
) -> Result<(), DumpStop>
    requires { length needed.now ≤ 200000 }
    ensures ok { (tree : Tree) → F.tree files.old ≡ Some tree → IsClear form.now needed.now → let due = dump_put tree form.now head.now entries.now needed.now in
        OnOk result ((due.bad ≡ None) × (outside (F.tree files.new) (O.written out.new) ≡ all_out due.pieces (outside (F.tree files.old) (O.written out.old)))) }
    ensures err { (tree : Tree) → F.tree files.old ≡ Some tree → IsClear form.now needed.now → let due = dump_put tree form.now head.now entries.now needed.now in
        IfErr result (λ stop. IsStop tree needed.now due.bad stop × PartOut due.pieces (outside (F.tree files.old) (O.written out.old)) (outside (F.tree files.new) (O.written out.new))) }
    ensures putting { IfErr result IsOfPutting }
    ensures read_count { CountsRead result (F.read_faults files.old) (F.read_faults files.new) }
    ensures write_count { CountsOut result (F.write_faults files.old) (F.write_faults files.new) (O.faults out.old) (O.faults out.new) }
{
    match form {
        DumpForm::Script { target, owners } => write_script(
            alloc, files, out, target, *owners, head, entries, needed,
        ),
        DumpForm::Custom { target } => {
            write_custom(alloc, files, out, target, head, entries, needed)
        }
        DumpForm::Directory { folder } => {
            write_directory(alloc, files, out, folder, head, entries, needed)
        }
    }
}
