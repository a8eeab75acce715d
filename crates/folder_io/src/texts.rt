//! Files that must be there.
ghost use Rattle.std.specs.Prelude.{◌≡◌, ◌≤◌, length, Some, IfOk, string_bytes, vec_len};
ghost use Rattle.dump_ports.specs.Tree.{Tree};
ghost use Rattle.folder_io.specs.Answers.{Gives, CountsRead, IsMissing};
ghost use Rattle.folder_io.specs.Folders.{most_bytes, table_limit, marker, marker_of, file_of, file_text, text_of};

use crate::fault::{ExportKind, FolderFault, FolderLimit};
use crate::file::ExportFile;
use crate::tables::TableText;
use cat_rows::SysTable;
use copy_text::Text;
use dump_ports::{Files, WholeFault, read_whole};
use std::alloc::{AllocError, Global};

/// The text of the marker file.
pub(crate) const MARKER: &[u8] = b"1\n";

/// Tries the marker file, which must be there and have its text.
#[tactic(auto, unfolding(crate::specs::Folders::marker_of))]
pub(crate) fn check_marker<F: Files>(
    alloc: Global,
    files: &mut F,
    folder: &Text,
) -> Result<(), FolderFault>
    ensures due { (tree : Tree) → F.tree files.old ≡ Some tree → Gives (λ done. done) result (marker_of folder.now tree) }
    ensures kept { F.tree files.new ≡ F.tree files.old }
    ensures read_count { CountsRead result (F.read_faults files.old) (F.read_faults files.new) }
    ensures write_count { F.write_faults files.new ≡ F.write_faults files.old }
{
    let name = path(alloc, folder, ExportFile::Marker)?;
    match read_whole(alloc, files, name.as_str(), 2) {
        Ok(Some(text)) if text.as_slice() == MARKER => Ok(()),
        Ok(Some(_)) | Err(WholeFault::TooLarge(_)) => Err(FolderFault::BadExport {
            file: ExportFile::Marker,
            line: 1,
            kind: ExportKind::Version,
        }),
        Ok(None) => Err(missing(&name)),
        Err(WholeFault::Failed) => Err(FolderFault::Failed),
        Err(WholeFault::Memory) => Err(FolderFault::Memory),
    }
}

/// The text of a file, which must be there and within the limit.
///
/// `Missing` comes exactly where the file is absent, `TooLarge` exactly where it has more bytes than the limit, and
/// `Failed` exactly where a call of the files failed.
#[tactic(auto, unfolding(crate::specs::Folders::file_text))]
pub fn read_file<F: Files>(
    alloc: Global,
    files: &mut F,
    folder: &Text,
    file: ExportFile,
    limit: FolderLimit,
) -> Result<Vec<u8>, FolderFault>
    ensures due { (tree : Tree) → F.tree files.old ≡ Some tree → Gives (λ text. text.items) result (file_text limit folder.now tree file) }
    ensures limited { IfOk result (λ text. vec_len text ≤ most_bytes limit) }
    ensures kept { F.tree files.new ≡ F.tree files.old }
    ensures read_count { CountsRead result (F.read_faults files.old) (F.read_faults files.new) }
    ensures write_count { F.write_faults files.new ≡ F.write_faults files.old }
{
    let name = path(alloc, folder, file)?;
    match read_whole(alloc, files, name.as_str(), limit.bytes()) {
        Ok(Some(text)) => Ok(text),
        Ok(None) => Err(missing(&name)),
        Err(WholeFault::TooLarge(size)) => Err(FolderFault::TooLarge(limit, size)),
        Err(WholeFault::Failed) => Err(FolderFault::Failed),
        Err(WholeFault::Memory) => Err(FolderFault::Memory),
    }
}

/// The text of a table's file.
#[tactic(auto, unfolding(crate::specs::Folders::text_of))]
pub(crate) fn read_text<F: Files>(
    alloc: Global,
    files: &mut F,
    folder: &Text,
    table: SysTable,
) -> Result<TableText, FolderFault>
    ensures due { (tree : Tree) → F.tree files.old ≡ Some tree → Gives (λ text. text) result (text_of folder.now tree table) }
    ensures table { IfOk result (λ text. text.table ≡ table) }
    ensures limited { IfOk result (λ text. length text.text ≤ table_limit) }
    ensures kept { F.tree files.new ≡ F.tree files.old }
    ensures read_count { CountsRead result (F.read_faults files.old) (F.read_faults files.new) }
    ensures write_count { F.write_faults files.new ≡ F.write_faults files.old }
{
    let file = ExportFile::Table(table);
    let bytes = read_file(alloc, files, folder, file, FolderLimit::TableFile)?;
    Ok(TableText { table, bytes })
}

/// That a file is absent, or that memory ran out.
fn missing(name: &Text) -> FolderFault
    ensures { IsMissing name.now result }
{
    match name.clone() {
        Ok(name) => FolderFault::Missing(name),
        Err(_) => FolderFault::Memory,
    }
}

/// The path of a file in a folder.
fn path(alloc: Global, folder: &Text, file: ExportFile) -> Result<Text, AllocError>
    ensures { IfOk result (λ text. text ≡ file_of folder.now file) }
{
    let mut text = String::from_str(alloc, folder.as_str())?;
    text.push_str("/")?;
    file.push_name(&mut text)?;
    Ok(text_of_string(text))
}

/// The text of a string.
fn text_of_string(string: String) -> Text
    ensures { result ≡ string_bytes string }
{
    match Text::new(string.into_bytes()) {
        Some(text) => text,
        None => unreachable!(),
    }
}
