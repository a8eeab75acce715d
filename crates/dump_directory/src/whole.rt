//! One file of a directory, written.
ghost use Rattle.std.specs.Prelude.{◌≡◌, ◌≤◌, ℕ, List, None, Some, OnOk, OnErr, IfOk, IfErr};
ghost use Rattle.dump_files.specs.Spelled.{spelled};
ghost use Rattle.dump_files.specs.Stops.{CountsRead, CountsWrite, IsPutStop, IsOfPutting, IsLate, most};
ghost use Rattle.dump_files.specs.Outlets.{Outside, outside, outputs, IsBegun, Holds, IsApart};

use copy_text::Text;
use dump_files::{DataFile, DumpStop, begin, flush, put, put_rows};
use dump_ports::{Files, Sink};
use std::alloc::Global;

/// Writes a file anew.
pub(crate) fn put_text<F: Files, O: Sink>(
    files: &mut F,
    out: &mut O,
    name: Text,
    text: &[u8],
) -> Result<(), DumpStop>
    ensures ok { OnOk result (outside (F.tree files.new) (O.written out.new) ≡ outputs (Some name) text.now (outside (F.tree files.old) (O.written out.old))) }
    ensures err { OnErr result (IsBegun (Some name) text.now (outside (F.tree files.old) (O.written out.old)) (outside (F.tree files.new) (O.written out.new))) }
    ensures late { IfErr result IsLate }
    ensures read_count { F.read_faults files.new ≡ F.read_faults files.old }
    ensures write_count { CountsWrite result (F.write_faults files.old) (F.write_faults files.new) }
    ensures out_count { O.faults out.new ≡ O.faults out.old }
{
    let target = Some(name);
    begin(files, out, &target)?;
    put(files, out, &target, text)?;
    Ok(())
}

/// Writes the rows of a data file to a file of its own. Says how many rows these are.
pub(crate) fn put_file<F: Files, O: Sink>(
    alloc: Global,
    files: &mut F,
    out: &mut O,
    name: Text,
    file: &DataFile,
) -> Result<u64, DumpStop>
    ensures ok { (text : List ℕ) → Holds (F.tree files.old) file.now.name text → IsApart (Some name) file.now.name → let due = spelled file.now.columns text in
        IfOk result (λ count. (due.fault ≡ None) × (count ≡ due.rows) × (outside (F.tree files.new) (O.written out.new) ≡ outputs (Some name) due.text (outside (F.tree files.old) (O.written out.old)))) }
    ensures err { (text : List ℕ) → Holds (F.tree files.old) file.now.name text → IsApart (Some name) file.now.name → let due = spelled file.now.columns text in
        IfErr result (λ stop. IsPutStop file.now.table text due stop × IsBegun (Some name) due.text (outside (F.tree files.old) (O.written out.old)) (outside (F.tree files.new) (O.written out.new))) }
    ensures few { IfOk result (λ count. count ≤ most) }
    ensures putting { IfErr result IsOfPutting }
    ensures read_count { CountsRead result (F.read_faults files.old) (F.read_faults files.new) }
    ensures write_count { CountsWrite result (F.write_faults files.old) (F.write_faults files.new) }
    ensures out_count { O.faults out.new ≡ O.faults out.old }
{
    let target = Some(name);
    begin(files, out, &target)?;
    let mut waiting = Vec::new(alloc);
    let count = put_rows(alloc, files, out, &target, file, &mut waiting)?;
    flush(files, out, &target, &mut waiting)?;
    Ok(count)
}
