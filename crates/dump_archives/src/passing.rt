//! Bytes that are counted while they are put out.
ghost use Rattle.std.specs.Prelude.{◌≡◌, ◌+◌, ℕ, List, length, OnOk, OnErr, IfOk, IfErr};
ghost use Rattle.dump_files.specs.Stops.{IsLate};
ghost use Rattle.dump_files.specs.Outlets.{Outside, outside, IsCut, CountsPut, Stands};

use copy_text::Text;
use dump_files::{DumpStop, flush};
use dump_ports::{Files, Sink};

/// How many bytes are put out at once at least, where more follow.
const PIECE: usize = 65536;

/// Puts out the bytes that wait where they are many, and counts them among those that are out.
pub(crate) fn pass<F: Files, O: Sink>(
    files: &mut F,
    out: &mut O,
    target: &Option<Text>,
    waiting: &mut Vec<u8>,
    passed: &mut u64,
) -> Result<(), DumpStop>
    ensures ok { (text : List ℕ) (before : Outside) → Stands target.now text before (outside (F.tree files.old) (O.written out.old)) waiting.old.items
        → OnOk result (Stands target.now text before (outside (F.tree files.new) (O.written out.new)) waiting.new.items) }
    ensures count { OnOk result (passed.new + length waiting.new.items ≡ passed.old + length waiting.old.items) }
    ensures err { (text : List ℕ) (before : Outside) → Stands target.now text before (outside (F.tree files.old) (O.written out.old)) waiting.old.items
        → OnErr result (IsCut target.now text before (outside (F.tree files.new) (O.written out.new))) }
    ensures late { IfErr result IsLate }
    ensures read_count { F.read_faults files.new ≡ F.read_faults files.old }
    ensures write_count { CountsPut target.now result (F.write_faults files.old) (F.write_faults files.new) (O.faults out.old) (O.faults out.new) }
{
    if waiting.len() < PIECE {
        return Ok(());
    }
    let total = place(*passed, waiting)?;
    flush(files, out, target, waiting)?;
    *passed = total;
    Ok(())
}

/// The place behind the bytes that are out and those that wait. Want of memory is told of a place of 2^64 or more, too.
pub(crate) fn place(passed: u64, waiting: &[u8]) -> Result<u64, DumpStop>
    ensures ok { IfOk result (λ at. at ≡ passed + length waiting.now) }
    ensures late { IfErr result (λ stop. stop ≡ DumpStop.Memory) }
{
    match passed.checked_add(waiting.len() as u64) {
        Some(at) => Ok(at),
        None => Err(DumpStop::Memory),
    }
}
