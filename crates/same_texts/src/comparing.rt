//! Files of two folders, compared one after another.
ghost use Rattle.std.specs.Prelude.{◌≡◌, Some, IfErr, IfOk, IfSome, IsTrue};
ghost use Rattle.std.specs.List.{All};
ghost use Rattle.dump_ports.specs.Tree.{Tree, text_at};
ghost use Rattle.folder_io.specs.Answers.{CountsRead};
ghost use Rattle.folder_io.specs.Folders.{all_tables, file_of};
ghost use Rattle.folder_io.specs.declared.file.ExportFile.TheVariants as file;
ghost use Rattle.table_rows.specs.Tables.{table_oids};
ghost use Rattle.same_texts.specs.Alike.{HasSame, IsData, HoldSame, IsCutOff};

use crate::pieces::has_text;
use cat_names::DataSet;
use cat_rows::{Catalogue, SysTable};
use copy_text::Text;
use dump_ports::Files;
use folder_io::{ExportFile, FolderFault, FolderLimit, read_file};
use std::alloc::Global;
use table_rows::table_oids;

/// The text of a file; `None` where reading refuses the file.
fn text_in<F: Files>(
    alloc: Global,
    files: &mut F,
    folder: &Text,
    file: ExportFile,
    limit: FolderLimit,
) -> Result<Option<Vec<u8>>, FolderFault>
    ensures text { IfOk result (λ found. IfSome found (λ text. (tree : Tree) → F.tree files.old ≡ Some tree → text_at tree (file_of folder.now file) ≡ Some text.items)) }
    ensures cut_off { IfErr result IsCutOff }
    ensures kept { F.tree files.new ≡ F.tree files.old }
    ensures read_count { CountsRead result (F.read_faults files.old) (F.read_faults files.new) }
    ensures write_count { F.write_faults files.new ≡ F.write_faults files.old }
{
    match read_file(alloc, files, folder, file, limit) {
        Ok(text) => Ok(Some(text)),
        Err(FolderFault::Failed) => Err(FolderFault::Failed),
        Err(FolderFault::Memory) => Err(FolderFault::Memory),
        Err(_) => Ok(None),
    }
}

fn are_same(text: &[u8], other: &[u8]) -> bool
    ensures { IsTrue result → text.now ≡ other.now }
{
    text == other
}

/// Whether a file of one folder has a text, and that of the other the same.
fn has_same<F: Files>(
    alloc: Global,
    files: &mut F,
    first: &Text,
    second: &Text,
    file: ExportFile,
) -> Result<bool, FolderFault>
    ensures same { IfOk result (λ same. IsTrue same → (tree : Tree) → F.tree files.old ≡ Some tree → HasSame first.now second.now tree file) }
    ensures cut_off { IfErr result IsCutOff }
    ensures kept { F.tree files.new ≡ F.tree files.old }
    ensures read_count { CountsRead result (F.read_faults files.old) (F.read_faults files.new) }
    ensures write_count { F.write_faults files.new ≡ F.write_faults files.old }
{
    let Some(text) = text_in(alloc, files, first, file, FolderLimit::TableFile)? else {
        return Ok(false);
    };
    let Some(other) = text_in(alloc, files, second, file, FolderLimit::TableFile)? else {
        return Ok(false);
    };
    Ok(are_same(&text, &other))
}

/// The same of the files of all system tables.
fn have_same_tables<F: Files>(
    alloc: Global,
    files: &mut F,
    first: &Text,
    second: &Text,
) -> Result<bool, FolderFault>
    ensures same { IfOk result (λ same. IsTrue same → (tree : Tree) → F.tree files.old ≡ Some tree → All (λ table. HasSame first.now second.now tree (file.Table table)) all_tables) }
    ensures cut_off { IfErr result IsCutOff }
    ensures kept { F.tree files.new ≡ F.tree files.old }
    ensures read_count { CountsRead result (F.read_faults files.old) (F.read_faults files.new) }
    ensures write_count { F.write_faults files.new ≡ F.write_faults files.old }
{
    for table in &SysTable::ALL {
        if !has_same(alloc, files, first, second, ExportFile::Table(*table))? {
            return Ok(false);
        }
    }
    Ok(true)
}

/// Whether the data file of a table has this text; the empty text for none.
fn is_data<F: Files>(
    alloc: Global,
    files: &mut F,
    folder: &Text,
    rows: &DataSet,
    table: u32,
) -> Result<bool, FolderFault>
    ensures same { IfOk result (λ same. IsTrue same → (tree : Tree) → F.tree files.old ≡ Some tree → IsData folder.now tree rows.now table) }
    ensures cut_off { IfErr result IsCutOff }
    ensures kept { F.tree files.new ≡ F.tree files.old }
    ensures read_count { CountsRead result (F.read_faults files.old) (F.read_faults files.new) }
    ensures write_count { F.write_faults files.new ≡ F.write_faults files.old }
{
    let Some(held) = rows.text(table) else {
        return Ok(false);
    };
    has_text(alloc, files, folder, ExportFile::Data(table), held)
}

/// The same of the data files of these tables.
fn are_data<F: Files>(
    alloc: Global,
    files: &mut F,
    folder: &Text,
    rows: &DataSet,
    tables: &[u32],
) -> Result<bool, FolderFault>
    ensures same { IfOk result (λ same. IsTrue same → (tree : Tree) → F.tree files.old ≡ Some tree → All (IsData folder.now tree rows.now) tables.now) }
    ensures cut_off { IfErr result IsCutOff }
    ensures kept { F.tree files.new ≡ F.tree files.old }
    ensures read_count { CountsRead result (F.read_faults files.old) (F.read_faults files.new) }
    ensures write_count { F.write_faults files.new ≡ F.write_faults files.old }
{
    for table in tables {
        if !is_data(alloc, files, folder, rows, *table)? {
            return Ok(false);
        }
    }
    Ok(true)
}

/// Whether each data file of a catalogue's tables has the text that was read of another folder.
fn have_same_rows<F: Files>(
    alloc: Global,
    files: &mut F,
    folder: &Text,
    cat: &Catalogue,
    rows: &DataSet,
) -> Result<bool, FolderFault>
    ensures same { IfOk result (λ same. IsTrue same → (tree : Tree) → F.tree files.old ≡ Some tree → All (IsData folder.now tree rows.now) (table_oids cat.now)) }
    ensures cut_off { IfErr result IsCutOff }
    ensures kept { F.tree files.new ≡ F.tree files.old }
    ensures read_count { CountsRead result (F.read_faults files.old) (F.read_faults files.new) }
    ensures write_count { F.write_faults files.new ≡ F.write_faults files.old }
{
    let tables = table_oids(alloc, cat)?;
    are_data(alloc, files, folder, rows, &tables)
}

/// Whether the marker and the files of the system tables are there and the same in two folders. It says no where it can't tell,
/// and stops there. It holds the file of one table of each folder at a time.
///
/// # Errors
///
/// `Failed` exactly where a call of the files failed, or `Memory`.
pub fn have_same_catalogue<F: Files>(
    alloc: Global,
    files: &mut F,
    first: &Text,
    second: &Text,
) -> Result<bool, FolderFault>
    ensures same { IfOk result (λ same. IsTrue same → (tree : Tree) → F.tree files.old ≡ Some tree → HasSame first.now second.now tree file.Marker × All (λ table. HasSame first.now second.now tree (file.Table table)) all_tables) }
    ensures cut_off { IfErr result IsCutOff }
    ensures kept { F.tree files.new ≡ F.tree files.old }
    ensures read_count { CountsRead result (F.read_faults files.old) (F.read_faults files.new) }
    ensures write_count { F.write_faults files.new ≡ F.write_faults files.old }
{
    if !has_same(alloc, files, first, second, ExportFile::Marker)? {
        return Ok(false);
    }
    have_same_tables(alloc, files, first, second)
}

/// Whether a second folder holds, byte for byte, the texts of a first one in all files that reading takes: the marker, the
/// files of the system tables, and the data files of the tables, whose texts `rows` are those that were read of the first.
///
/// It says no where it can't tell, as where a file is absent, and stops there. It holds the file of one system table of each
/// folder at a time, and of a data file a piece.
///
/// # Errors
///
/// `Failed` exactly where a call of the files failed, or `Memory`.
pub fn hold_same_texts<F: Files>(
    alloc: Global,
    files: &mut F,
    first: &Text,
    second: &Text,
    cat: &Catalogue,
    rows: &DataSet,
) -> Result<bool, FolderFault>
    ensures same { IfOk result (λ same. IsTrue same → (tree : Tree) → F.tree files.old ≡ Some tree → HoldSame first.now second.now tree cat.now rows.now) }
    ensures cut_off { IfErr result IsCutOff }
    ensures kept { F.tree files.new ≡ F.tree files.old }
    ensures read_count { CountsRead result (F.read_faults files.old) (F.read_faults files.new) }
    ensures write_count { F.write_faults files.new ≡ F.write_faults files.old }
{
    if !have_same_catalogue(alloc, files, first, second)? {
        return Ok(false);
    }
    have_same_rows(alloc, files, second, cat, rows)
}
