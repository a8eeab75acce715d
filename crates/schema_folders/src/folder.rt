//! Export folders of plain form, read and written.
ghost use Rattle.std.specs.Prelude.{◌≡◌, ℕ, ◌≤◌, ◌++◌, ◌||◌, ◌&&◌, not, List, [], ◌∷◌, Option, Some, option_map, IfSome, IfOk, IfErr, OnOk, OnErr, Result, Ok, Err};
ghost use Rattle.std.specs.List.{list_all};
ghost use Rattle.std.specs.FinMap.{insert};
ghost use Rattle.dump_ports.specs.Tree.{Tree, text_at, TakesPrefix};
ghost use Rattle.tool_words.specs.Answers.{Gives, CountsRead, CountsWrite, IsLate};
ghost use Rattle.schema_folders.specs.Folder.{marker, marker_file, authid_text, database_text, file_of_table, plain_text, table_files, marker_written, files_written, folder_saved};
ghost use Rattle.saved_folders.specs.Files.{saved, PartSaved};

use crate::texts::path;
use cat_rows::SysTable;
use copy_text::Text;
use dump_ports::{Failed, Files, pieces_make_the_text};
use std::alloc::{AllocError, Global};
use tool_words::Outcome;

/// The text of a folder's marker file.
pub const MARKER: &[u8] = b"1\n";

/// The one role of the empty export.
pub const AUTHID: &[u8] = b"10\tpostgres\tt\tt\tt\tt\tt\tt\tt\t-1\t\\N\t\\N\n";

/// The one database of the empty export.
pub const DATABASE: &[u8] = b"5\tpostgres\t10\tUTF8\tt\n";

/// Writes the tables one after another, and the marker last.
///
/// After an error the files before the one that was being written are whole, that one holds a first part of its
/// text or what it held, and the later ones are untouched.
pub fn write_folder<F: Files>(
    alloc: Global,
    files: &mut F,
    folder: &Text,
    namespaces: &[u8],
) -> Result<(), Outcome>
    ensures late { IfErr result IsLate }
    ensures ok { OnOk result (F.tree files.new ≡ option_map (folder_saved folder.now namespaces.now) (F.tree files.old)) }
    ensures err { OnErr result (PartSaved (files_written folder.now namespaces.now) (F.tree files.old) (F.tree files.new)) }
    ensures read_count { F.read_faults files.new ≡ F.read_faults files.old }
    ensures write_count { CountsWrite result (F.write_faults files.old) (F.write_faults files.new) }
{
    write_tables(alloc, files, folder, namespaces)?;
    write_marker(alloc, files, folder)
}

/// Writes the files of the tables, in their order.
fn write_tables<F: Files>(
    alloc: Global,
    files: &mut F,
    folder: &Text,
    namespaces: &[u8],
) -> Result<(), Outcome>
    ensures late { IfErr result IsLate }
    ensures ok { OnOk result (F.tree files.new ≡ option_map (saved (table_files folder.now namespaces.now)) (F.tree files.old)) }
    ensures err { OnErr result (PartSaved (table_files folder.now namespaces.now) (F.tree files.old) (F.tree files.new)) }
    ensures read_count { F.read_faults files.new ≡ F.read_faults files.old }
    ensures write_count { CountsWrite result (F.write_faults files.old) (F.write_faults files.new) }
{
    for table in &SysTable::ALL {
        let name = path(alloc, folder, table.file_name())?;
        write_file(files, &name, table_text(*table, namespaces))?;
    }
    Ok(())
}

/// Writes the marker file.
fn write_marker<F: Files>(alloc: Global, files: &mut F, folder: &Text) -> Result<(), Outcome>
    ensures late { IfErr result IsLate }
    ensures ok { OnOk result (F.tree files.new ≡ option_map (saved (marker_written folder.now ∷ [])) (F.tree files.old)) }
    ensures err { OnErr result (PartSaved (marker_written folder.now ∷ []) (F.tree files.old) (F.tree files.new)) }
    ensures read_count { F.read_faults files.new ≡ F.read_faults files.old }
    ensures write_count { CountsWrite result (F.write_faults files.old) (F.write_faults files.new) }
{
    let name = path(alloc, folder, "format")?;
    write_file(files, &name, MARKER)
}

/// What is written of a table.
fn table_text(table: SysTable, namespaces: &[u8]) -> &[u8]
    ensures { result.now ≡ plain_text namespaces.now table }
{
    match table {
        SysTable::PgAuthid => AUTHID,
        SysTable::PgDatabase => DATABASE,
        SysTable::PgNamespace => namespaces,
        _ => b"",
    }
}

/// Writes a file anew. After an error it holds a first part of the text, or what it held.
fn write_file<F: Files>(files: &mut F, name: &Text, text: &[u8]) -> Result<(), Outcome>
    ensures late { IfErr result IsLate }
    ensures ok { OnOk result (F.tree files.new ≡ option_map (λ tree. insert tree name.now text.now) (F.tree files.old)) }
    ensures err { OnErr result (TakesPrefix (λ part tree. insert tree name.now part) text.now (F.tree files.old) (F.tree files.new)) }
    ensures read_count { F.read_faults files.new ≡ F.read_faults files.old }
    ensures write_count { CountsWrite result (F.write_faults files.old) (F.write_faults files.new) }
{
    pieces_make_the_text();
    if let Err(Failed) = files.make(name.as_str()) {
        return Err(Outcome::WriteFault);
    }
    if text.is_empty() {
        return Ok(());
    }
    if let Err(Failed) = files.append(name.as_str(), text) {
        return Err(Outcome::WriteFault);
    }
    Ok(())
}
