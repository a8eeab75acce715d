//! The rows of a data file, put out.
ghost use Rattle.std.specs.Prelude.{◌≡◌, ◌≤◌, ◌++◌, ℕ, List, None, IfOk, IfErr};
ghost use Rattle.dump_files.specs.Spelled.{spelled};
ghost use Rattle.dump_files.specs.Stops.{CountsRead, IsPutStop, IsOfPutting, most};
ghost use Rattle.dump_files.specs.Outlets.{Outside, outside, IsCut, CountsPut, Stands, Holds, IsApart};

use crate::file::DataFile;
use crate::outlet::spill;
use crate::reader::RowReader;
use crate::stop::DumpStop;
use copy_text::Text;
use dump_ports::{Files, Sink};
use std::alloc::Global;

/// Puts out the rows of a data file, each in its one spelling, and the ending, behind what is out and what waits. Says how
/// many rows these are.
///
/// The file is read once, a piece at a time. After an error some first part is out: of what was out and waited, and of the
/// rows up to the first that fails.
pub fn put_rows<F: Files, O: Sink>(
    alloc: Global,
    files: &mut F,
    out: &mut O,
    target: &Option<Text>,
    file: &DataFile,
    waiting: &mut Vec<u8>,
) -> Result<u64, DumpStop>
    ensures ok { (text done : List ℕ) (before : Outside) → Stands target.now done before (outside (F.tree files.old) (O.written out.old)) waiting.old.items
        → Holds before.tree file.now.name text → IsApart target.now file.now.name → let due = spelled file.now.columns text in
        IfOk result (λ count. (due.fault ≡ None) × (count ≡ due.rows) × Stands target.now (done ++ due.text) before (outside (F.tree files.new) (O.written out.new)) waiting.new.items) }
    ensures err { (text done : List ℕ) (before : Outside) → Stands target.now done before (outside (F.tree files.old) (O.written out.old)) waiting.old.items
        → Holds before.tree file.now.name text → IsApart target.now file.now.name → let due = spelled file.now.columns text in
        IfErr result (λ stop. IsPutStop file.now.table text due stop × IsCut target.now (done ++ due.text) before (outside (F.tree files.new) (O.written out.new))) }
    ensures few { IfOk result (λ count. count ≤ most) }
    ensures putting { IfErr result IsOfPutting }
    ensures read_count { CountsRead result (F.read_faults files.old) (F.read_faults files.new) }
    ensures write_count { CountsPut target.now result (F.write_faults files.old) (F.write_faults files.new) (O.faults out.old) (O.faults out.new) }
{
    let mut reader = RowReader::new(alloc)?;
    'pieces: loop {
        let more = reader.next(alloc, files, file, waiting)?;
        spill(files, out, target, waiting)?;
        if !more {
            return Ok(reader.rows());
        }
    }
}
