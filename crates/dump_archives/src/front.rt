//! The head and the entries of a file, written anew in their place.
ghost use Rattle.std.specs.Prelude.{◌≡◌, length, option_map, OnOk, OnErr, IfErr};
ghost use Rattle.toc_layout.specs.Heads.{head_seen};
ghost use Rattle.fmt_custom.specs.Writing.{front_text};
ghost use Rattle.archive_entries.specs.Extras.{told};
ghost use Rattle.archive_entries.specs.Fits.{CanBeArchived};
ghost use Rattle.dump_ports.specs.Tree.{patched, HasRange, TakesPrefix};
ghost use Rattle.dump_files.specs.Stops.{CountsWrite, IsLate};
ghost use Rattle.dump_archives.specs.Growing.{HasRoom, IsRefronted, IsPartRefronted};

use archive_entries::write_placed;
use copy_text::Text;
use dump_files::DumpStop;
use dump_ports::{Failed, Files};
use std::alloc::Global;
use toc_entry::{Entry, Head};

/// Tells the entries of a file the places of their blocks. On standard output nothing is done.
pub(crate) fn place_front<F: Files>(
    alloc: Global,
    files: &mut F,
    target: &Option<Text>,
    head: &Head,
    entries: &[Entry],
    places: &[u64],
) -> Result<(), DumpStop>
    requires archive { CanBeArchived (head_seen head.now) entries.now }
    requires room { HasRoom target.now (F.tree files.old) (length (front_text (head_seen head.now) (told entries.now places.now))) }
    ensures ok { OnOk result (IsRefronted target.now (front_text (head_seen head.now) (told entries.now places.now)) (F.tree files.old) (F.tree files.new)) }
    ensures err { OnErr result (IsPartRefronted target.now (front_text (head_seen head.now) (told entries.now places.now)) (F.tree files.old) (F.tree files.new)) }
    ensures late { IfErr result IsLate }
    ensures read_count { F.read_faults files.new ≡ F.read_faults files.old }
    ensures write_count { CountsWrite result (F.write_faults files.old) (F.write_faults files.new) }
{
    match target {
        None => Ok(()),
        Some(name) => patch_front(alloc, files, name, head, entries, places),
    }
}

/// Writes the head and the entries with their places at the front of a file.
fn patch_front<F: Files>(
    alloc: Global,
    files: &mut F,
    name: &Text,
    head: &Head,
    entries: &[Entry],
    places: &[u64],
) -> Result<(), DumpStop>
    requires archive { CanBeArchived (head_seen head.now) entries.now }
    requires room { HasRange (F.tree files.old) name.now 0 (length (front_text (head_seen head.now) (told entries.now places.now))) }
    ensures ok { OnOk result (F.tree files.new ≡ option_map (patched name.now 0 (front_text (head_seen head.now) (told entries.now places.now))) (F.tree files.old)) }
    ensures err { OnErr result (TakesPrefix (patched name.now 0) (front_text (head_seen head.now) (told entries.now places.now)) (F.tree files.old) (F.tree files.new)) }
    ensures late { IfErr result IsLate }
    ensures read_count { F.read_faults files.new ≡ F.read_faults files.old }
    ensures write_count { CountsWrite result (F.write_faults files.old) (F.write_faults files.new) }
{
    let mut front = Vec::new(alloc);
    write_placed(head, entries, places, &mut front)?;
    patch(files, name, &front)
}

/// Puts bytes in place of the first ones of a file.
fn patch<F: Files>(files: &mut F, name: &Text, bytes: &[u8]) -> Result<(), DumpStop>
    requires { HasRange (F.tree files.old) name.now 0 (length bytes.now) }
    ensures ok { OnOk result (F.tree files.new ≡ option_map (patched name.now 0 bytes.now) (F.tree files.old)) }
    ensures err { OnErr result (TakesPrefix (patched name.now 0) bytes.now (F.tree files.old) (F.tree files.new)) }
    ensures late { IfErr result IsLate }
    ensures read_count { F.read_faults files.new ≡ F.read_faults files.old }
    ensures write_count { CountsWrite result (F.write_faults files.old) (F.write_faults files.new) }
{
    match files.patch(name.as_str(), 0, bytes) {
        Ok(()) => Ok(()),
        Err(Failed) => Err(DumpStop::WriteFault),
    }
}
