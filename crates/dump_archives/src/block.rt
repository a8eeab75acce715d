//! The block of an entry.
ghost use Rattle.std.specs.Prelude.{◌≡◌, ◌+◌, ◌≤◌, ◌++◌, ℕ, List, length, true, None, OnOk, IfOk, IfErr};
ghost use Rattle.fmt_custom.specs.Stored.{block_by, open_block};
ghost use Rattle.dump_files.specs.Spelled.{spelled};
ghost use Rattle.dump_files.specs.Stops.{CountsRead, IsPutStop, IsOfPutting, most};
ghost use Rattle.dump_files.specs.Outlets.{Outside, outside, IsCut, CountsPut, Stands, Holds, IsApart};
ghost use Rattle.dump_archives.specs.Pieces.{pieces_of};
ghost use Rattle.dump_archives.specs.Growing.{Grown};

use crate::pack::{finish_block, pack};
use crate::passing::pass;
use copy_text::Text;
use dump_files::{DataFile, DumpStop, RowReader};
use dump_ports::{Files, Sink};
use fmt_custom::laws::blocks_grow_by_pieces;
use fmt_custom::start_block;
use std::alloc::Global;

/// Puts out the block of an entry with rows, behind what is out and what waits. Says how many rows these are.
pub(crate) fn put_block<F: Files, O: Sink>(
    alloc: Global,
    files: &mut F,
    out: &mut O,
    target: &Option<Text>,
    id: u32,
    file: &DataFile,
    waiting: &mut Vec<u8>,
    passed: &mut u64,
) -> Result<u64, DumpStop>
    ensures ok { (text done : List ℕ) (before : Outside) → Stands target.now done before (outside (F.tree files.old) (O.written out.old)) waiting.old.items
        → Holds before.tree file.now.name text → IsApart target.now file.now.name → let due = spelled file.now.columns text in
        IfOk result (λ count. (due.fault ≡ None) × (count ≡ due.rows) × Stands target.now (done ++ block_by true id (pieces_of due.text)) before (outside (F.tree files.new) (O.written out.new)) waiting.new.items) }
    ensures err { (text done : List ℕ) (before : Outside) → Stands target.now done before (outside (F.tree files.old) (O.written out.old)) waiting.old.items
        → Holds before.tree file.now.name text → IsApart target.now file.now.name → let due = spelled file.now.columns text in
        IfErr result (λ stop. IsPutStop file.now.table text due stop × IsCut target.now (done ++ open_block id (pieces_of due.text)) before (outside (F.tree files.new) (O.written out.new))) }
    ensures grows { (done : List ℕ) (before : Outside) → Stands target.now done before (outside (F.tree files.old) (O.written out.old)) waiting.old.items → passed.old + length waiting.old.items ≡ length done
        → OnOk result (Grown target.now done before (outside (F.tree files.new) (O.written out.new)) waiting.new.items passed.new) }
    ensures few { IfOk result (λ count. count ≤ most) }
    ensures putting { IfErr result IsOfPutting }
    ensures read_count { CountsRead result (F.read_faults files.old) (F.read_faults files.new) }
    ensures write_count { CountsPut target.now result (F.write_faults files.old) (F.write_faults files.new) (O.faults out.old) (O.faults out.new) }
{
    blocks_grow_by_pieces();
    start_block(id, waiting)?;
    let mut reader = RowReader::new(alloc)?;
    let mut run = Vec::new(alloc);
    let mut spare = Vec::new(alloc);
    'pieces: loop {
        let more = reader.next(alloc, files, file, &mut run)?;
        pack(&mut run, &mut spare, waiting)?;
        pass(files, out, target, waiting, passed)?;
        if !more {
            finish_block(&run, waiting)?;
            return Ok(reader.rows());
        }
    }
}
