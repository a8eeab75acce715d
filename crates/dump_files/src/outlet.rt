//! Where a dump is written: a file, or standard output where there is none.
ghost use Rattle.std.specs.Prelude.{◌≡◌, ◌≤◌, ◌++◌, ◌⊎◌, ℕ, [], List, length, take, option_map, IfErr, OnOk, OnErr};
ghost use Rattle.dump_ports.specs.Tree.{made, appended, TakesPrefix};
ghost use Rattle.dump_files.specs.Stops.{CountsWrite, IsLate};
ghost use Rattle.dump_files.specs.Outlets.{Outside, outside, outputs, IsCut, CountsPut, Stands};

use crate::stop::DumpStop;
use copy_text::Text;
use dump_ports::{Failed, Files, Sink, write_all};

/// How many bytes are put out at once at least, where more follow.
const PIECE: usize = 65536;

/// Begins a dump: a file holds nothing from then on. After an error it does, or it is as it was.
pub fn begin<F: Files, O: Sink>(
    files: &mut F,
    out: &mut O,
    target: &Option<Text>,
) -> Result<(), DumpStop>
    ensures ok { OnOk result (outside (F.tree files.new) (O.written out.new) ≡ outputs target.now [] (outside (F.tree files.old) (O.written out.old))) }
    ensures err { OnErr result ((outside (F.tree files.new) (O.written out.new) ≡ outside (F.tree files.old) (O.written out.old))
        ⊎ (outside (F.tree files.new) (O.written out.new) ≡ outputs target.now [] (outside (F.tree files.old) (O.written out.old)))) }
    ensures read_count { F.read_faults files.new ≡ F.read_faults files.old }
    ensures write_count { CountsPut target.now result (F.write_faults files.old) (F.write_faults files.new) (O.faults out.old) (O.faults out.new) }
    ensures late { IfErr result IsLate }
{
    match target {
        None => Ok(()),
        Some(name) => make_new(files, name),
    }
}

/// A file holds nothing from then on.
fn make_new<F: Files>(files: &mut F, name: &Text) -> Result<(), DumpStop>
    ensures ok { OnOk result (F.tree files.new ≡ option_map (made name.now) (F.tree files.old)) }
    ensures err { OnErr result (TakesPrefix (λ _. made name.now) [] (F.tree files.old) (F.tree files.new)) }
    ensures read_count { F.read_faults files.new ≡ F.read_faults files.old }
    ensures count { CountsWrite result (F.write_faults files.old) (F.write_faults files.new) }
    ensures late { IfErr result IsLate }
{
    match files.make(name.as_str()) {
        Ok(()) => Ok(()),
        Err(Failed) => Err(DumpStop::WriteFault),
    }
}

/// Puts bytes out behind those that are out. After an error some first part of them is.
pub fn put<F: Files, O: Sink>(
    files: &mut F,
    out: &mut O,
    target: &Option<Text>,
    bytes: &[u8],
) -> Result<(), DumpStop>
    ensures ok { (done : List ℕ) (before : Outside) → outside (F.tree files.old) (O.written out.old) ≡ outputs target.now done before
        → OnOk result (outside (F.tree files.new) (O.written out.new) ≡ outputs target.now (done ++ bytes.now) before) }
    ensures err { (done : List ℕ) (before : Outside) → outside (F.tree files.old) (O.written out.old) ≡ outputs target.now done before
        → OnErr result (IsCut target.now (done ++ bytes.now) before (outside (F.tree files.new) (O.written out.new))) }
    ensures read_count { F.read_faults files.new ≡ F.read_faults files.old }
    ensures write_count { CountsPut target.now result (F.write_faults files.old) (F.write_faults files.new) (O.faults out.old) (O.faults out.new) }
    ensures late { IfErr result IsLate }
{
    match target {
        None => put_out(out, bytes),
        Some(name) => put_in(files, name, bytes),
    }
}

/// Adds bytes to standard output.
fn put_out<O: Sink>(out: &mut O, bytes: &[u8]) -> Result<(), DumpStop>
    ensures ok { OnOk result (O.written out.new ≡ option_map (λ text. text ++ bytes.now) (O.written out.old)) }
    ensures err { OnErr result ((n : ℕ) × (n ≤ length bytes.now) × (O.written out.new ≡ option_map (λ text. text ++ take n bytes.now) (O.written out.old))) }
    ensures count { CountsWrite result (O.faults out.old) (O.faults out.new) }
    ensures late { IfErr result IsLate }
{
    match write_all(out, bytes) {
        Ok(()) => Ok(()),
        Err(Failed) => Err(DumpStop::WriteFault),
    }
}

/// Adds bytes to a file.
fn put_in<F: Files>(files: &mut F, name: &Text, bytes: &[u8]) -> Result<(), DumpStop>
    ensures ok { OnOk result (F.tree files.new ≡ option_map (appended name.now bytes.now) (F.tree files.old)) }
    ensures err { OnErr result (TakesPrefix (appended name.now) bytes.now (F.tree files.old) (F.tree files.new)) }
    ensures read_count { F.read_faults files.new ≡ F.read_faults files.old }
    ensures count { CountsWrite result (F.write_faults files.old) (F.write_faults files.new) }
    ensures late { IfErr result IsLate }
{
    match files.append(name.as_str(), bytes) {
        Ok(()) => Ok(()),
        Err(Failed) => Err(DumpStop::WriteFault),
    }
}

/// Puts out all bytes that wait.
pub fn flush<F: Files, O: Sink>(
    files: &mut F,
    out: &mut O,
    target: &Option<Text>,
    waiting: &mut Vec<u8>,
) -> Result<(), DumpStop>
    ensures ok { (text : List ℕ) (before : Outside) → Stands target.now text before (outside (F.tree files.old) (O.written out.old)) waiting.old.items
        → OnOk result (Stands target.now text before (outside (F.tree files.new) (O.written out.new)) waiting.new.items) }
    ensures none { OnOk result (waiting.new.items ≡ []) }
    ensures err { (text : List ℕ) (before : Outside) → Stands target.now text before (outside (F.tree files.old) (O.written out.old)) waiting.old.items
        → OnErr result (IsCut target.now text before (outside (F.tree files.new) (O.written out.new))) }
    ensures read_count { F.read_faults files.new ≡ F.read_faults files.old }
    ensures write_count { CountsPut target.now result (F.write_faults files.old) (F.write_faults files.new) (O.faults out.old) (O.faults out.new) }
    ensures late { IfErr result IsLate }
{
    let written = put(files, out, target, waiting);
    if written.is_ok() {
        waiting.clear();
    }
    written
}

/// Puts out the bytes that wait where they are many.
pub fn spill<F: Files, O: Sink>(
    files: &mut F,
    out: &mut O,
    target: &Option<Text>,
    waiting: &mut Vec<u8>,
) -> Result<(), DumpStop>
    ensures ok { (text : List ℕ) (before : Outside) → Stands target.now text before (outside (F.tree files.old) (O.written out.old)) waiting.old.items
        → OnOk result (Stands target.now text before (outside (F.tree files.new) (O.written out.new)) waiting.new.items) }
    ensures err { (text : List ℕ) (before : Outside) → Stands target.now text before (outside (F.tree files.old) (O.written out.old)) waiting.old.items
        → OnErr result (IsCut target.now text before (outside (F.tree files.new) (O.written out.new))) }
    ensures read_count { F.read_faults files.new ≡ F.read_faults files.old }
    ensures write_count { CountsPut target.now result (F.write_faults files.old) (F.write_faults files.new) (O.faults out.old) (O.faults out.new) }
    ensures late { IfErr result IsLate }
{
    if waiting.len() < PIECE {
        return Ok(());
    }
    flush(files, out, target, waiting)
}
