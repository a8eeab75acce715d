//! What a clone wrote, restored.
ghost use Rattle.std.specs.Prelude.{◌≡◌, Some, IfErr, IfOk};
ghost use Rattle.dump_ports.specs.Tree.{Tree};
ghost use Rattle.restore_tools.specs.Standing.{CountsReads, CountsWrites};
ghost use Rattle.clone_restores.specs.Due.{written_due};
ghost use Rattle.clone_restores.specs.Standing.{IsAnswer, WasRestored, IsNotRestored};

use crate::archives::restore_archive;
use crate::scripts::restore_script;
use command_line::Format;
use copy_text::Text;
use dump_ports::{Files, Sink};
use restore_texts::ArchiveFormat;
use std::alloc::Global;
use tool_words::Outcome;

/// Restores what was written at a path, in this format, into a folder, with one worker: a script is run on it, to its end,
/// and of an archive all entries are restored, with owners or without. A statement, or an entry, that is refused changes
/// nothing, and the next one is tried. All is read first: the script or the archive, and then the folder. Then the folder is
/// written, once, and what was refused is told. Each line begins with the name `teller`.
///
/// It answers `Done`, or `WithErrors` with the number of an archive's entries and owners that were refused. Any other answer
/// is the caller's to tell: `Missing`, `TooLarge`, `BadScript`, `BadArchive`, `BadExport`, `BadDefn` or `OutOfProfile` of the
/// step that refused; `TooLarge` or `OutOfProfile(Unbuilt)` where what was restored isn't written; and `ReadFault`,
/// `WriteFault` and `Memory`. But for the last two nothing was written.
/// <https://www.postgresql.org/docs/16/app-pgrestore.html>
pub fn restore_written<F: Files, E: Sink>(
    alloc: Global,
    files: &mut F,
    err: &mut E,
    teller: &[u8],
    format: Format,
    owners: bool,
    folder: &Text,
    path: &Text,
) -> Result<Outcome, Outcome>
    ensures ends { IfOk result IsAnswer }
    ensures done { IfOk result (λ answer. (tree : Tree) → F.tree files.old ≡ Some tree → WasRestored (written_due teller.now format owners folder.now path.now tree) answer (F.tree files.old) (F.tree files.new) (E.written err.old) (E.written err.new)) }
    ensures undone { IfErr result (λ outcome. (tree : Tree) → F.tree files.old ≡ Some tree → IsNotRestored outcome (written_due teller.now format owners folder.now path.now tree) (F.tree files.old) (F.tree files.new) (E.written err.old) (E.written err.new)) }
    ensures read_count { CountsReads result (F.read_faults files.old) (F.read_faults files.new) }
    ensures write_count { CountsWrites result (F.write_faults files.old) (F.write_faults files.new) (E.faults err.old) (E.faults err.new) }
{
    match format {
        Format::Plain => restore_script(alloc, files, err, teller, folder, path),
        Format::Custom => restore_archive(
            alloc,
            files,
            err,
            teller,
            folder,
            path,
            ArchiveFormat::Custom,
            owners,
        ),
        Format::Directory => restore_archive(
            alloc,
            files,
            err,
            teller,
            folder,
            path,
            ArchiveFormat::Directory,
            owners,
        ),
    }
}
