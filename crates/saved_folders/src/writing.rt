//! The files of a folder, written one after another.
ghost use Rattle.std.specs.Prelude.{◌≡◌, ◌++◌, [], ◌∷◌, map, option_map, IfErr, IfOk, OnOk, OnErr, string_bytes};
ghost use Rattle.std.specs.FinMap.{insert};
ghost use Rattle.dump_ports.specs.Tree.{TakesPrefix};
ghost use Rattle.table_rows.specs.Values.{text_of};
ghost use Rattle.folder_io.specs.Folders.{file_of};
ghost use Rattle.tool_words.specs.Answers.{CountsWrite, IsLate};
ghost use Rattle.saved_folders.specs.Files.{saved, PartSaved};
ghost use Rattle.saved_folders.specs.Folders.{file_in, data_text, data_written, table_written, marker_written, texts_with, front_files, files_of, folder_saved};

use crate::tables::TableText;
use cat_names::DataSet;
use copy_text::Text;
use dump_ports::{Failed, Files, pieces_make_the_text};
use folder_io::ExportFile;
use std::alloc::{AllocError, Global};
use tool_words::Outcome;

/// The text of a folder's marker file.
const MARKER: &[u8] = b"1\n";

/// Writes the data files of these oids one after another, then the files of the tables, and the marker last.
///
/// After an error the files before the one that was being written are whole, that one holds a first part of its text or
/// what it held, and the later ones are untouched.
pub(crate) fn write_files<F: Files>(
    alloc: Global,
    files: &mut F,
    folder: &Text,
    rows: &DataSet,
    oids: &[u32],
    tables: &[TableText],
) -> Result<(), Outcome>
    ensures late { IfErr result IsLate }
    ensures ok { OnOk result (F.tree files.new ≡ option_map (folder_saved folder.now (texts_with rows.now oids.now tables.now)) (F.tree files.old)) }
    ensures err { OnErr result (PartSaved (files_of folder.now (texts_with rows.now oids.now tables.now)) (F.tree files.old) (F.tree files.new)) }
    ensures read_count { F.read_faults files.new ≡ F.read_faults files.old }
    ensures write_count { CountsWrite result (F.write_faults files.old) (F.write_faults files.new) }
{
    write_front(alloc, files, folder, rows, oids, tables)?;
    write_in(alloc, files, folder, ExportFile::Marker, MARKER)
}

/// Writes the files before the marker.
fn write_front<F: Files>(
    alloc: Global,
    files: &mut F,
    folder: &Text,
    rows: &DataSet,
    oids: &[u32],
    tables: &[TableText],
) -> Result<(), Outcome>
    ensures late { IfErr result IsLate }
    ensures ok { OnOk result (F.tree files.new ≡ option_map (saved (front_files folder.now (texts_with rows.now oids.now tables.now))) (F.tree files.old)) }
    ensures err { OnErr result (PartSaved (front_files folder.now (texts_with rows.now oids.now tables.now)) (F.tree files.old) (F.tree files.new)) }
    ensures read_count { F.read_faults files.new ≡ F.read_faults files.old }
    ensures write_count { CountsWrite result (F.write_faults files.old) (F.write_faults files.new) }
{
    write_data(alloc, files, folder, rows, oids)?;
    write_tables(alloc, files, folder, tables)
}

/// Writes the data files of these oids.
fn write_data<F: Files>(
    alloc: Global,
    files: &mut F,
    folder: &Text,
    rows: &DataSet,
    oids: &[u32],
) -> Result<(), Outcome>
    ensures late { IfErr result IsLate }
    ensures ok { OnOk result (F.tree files.new ≡ option_map (saved (map (data_written folder.now) (map (data_text rows.now) oids.now))) (F.tree files.old)) }
    ensures err { OnErr result (PartSaved (map (data_written folder.now) (map (data_text rows.now) oids.now)) (F.tree files.old) (F.tree files.new)) }
    ensures read_count { F.read_faults files.new ≡ F.read_faults files.old }
    ensures write_count { CountsWrite result (F.write_faults files.old) (F.write_faults files.new) }
{
    for oid in oids {
        let file = ExportFile::Data(*oid);
        write_in(alloc, files, folder, file, text_of(rows, *oid))?;
    }
    Ok(())
}

/// Writes the files of these tables.
fn write_tables<F: Files>(
    alloc: Global,
    files: &mut F,
    folder: &Text,
    tables: &[TableText],
) -> Result<(), Outcome>
    ensures late { IfErr result IsLate }
    ensures ok { OnOk result (F.tree files.new ≡ option_map (saved (map (table_written folder.now) tables.now)) (F.tree files.old)) }
    ensures err { OnErr result (PartSaved (map (table_written folder.now) tables.now) (F.tree files.old) (F.tree files.new)) }
    ensures read_count { F.read_faults files.new ≡ F.read_faults files.old }
    ensures write_count { CountsWrite result (F.write_faults files.old) (F.write_faults files.new) }
{
    for text in tables {
        let file = ExportFile::Table(text.table());
        write_in(alloc, files, folder, file, text.bytes())?;
    }
    Ok(())
}

/// The text of a table's rows; none that was put is the empty text.
fn text_of(rows: &DataSet, table: u32) -> &[u8]
    ensures { result.now ≡ text_of rows.now table }
{
    match rows.text(table) {
        Some(text) => text,
        None => b"",
    }
}

/// Writes a file of a folder anew.
fn write_in<F: Files>(
    alloc: Global,
    files: &mut F,
    folder: &Text,
    file: ExportFile,
    text: &[u8],
) -> Result<(), Outcome>
    ensures late { IfErr result IsLate }
    ensures ok { OnOk result (F.tree files.new ≡ option_map (saved (file_in folder.now file text.now ∷ [])) (F.tree files.old)) }
    ensures err { OnErr result (PartSaved (file_in folder.now file text.now ∷ []) (F.tree files.old) (F.tree files.new)) }
    ensures read_count { F.read_faults files.new ≡ F.read_faults files.old }
    ensures write_count { CountsWrite result (F.write_faults files.old) (F.write_faults files.new) }
{
    let name = path(alloc, folder, file)?;
    write_file(files, &name, text)
}

/// Writes a file anew. After an error it holds a first part of the text, or what it held.
fn write_file<F: Files>(files: &mut F, name: &Text, text: &[u8]) -> Result<(), Outcome>
    ensures late { IfErr result IsLate }
    ensures ok { OnOk result (F.tree files.new ≡ option_map (λ tree. insert tree name.now text.now) (F.tree files.old)) }
    ensures err { OnErr result (TakesPrefix (λ part tree. insert tree name.now part) text.now (F.tree files.old) (F.tree files.new)) }
    ensures read_count { F.read_faults files.new ≡ F.read_faults files.old }
    ensures write_count { CountsWrite result (F.write_faults files.old) (F.write_faults files.new) }
{
    pieces_make_the_text();
    if let Err(Failed) = files.make(name.as_str()) {
        return Err(Outcome::WriteFault);
    }
    if text.is_empty() {
        return Ok(());
    }
    if let Err(Failed) = files.append(name.as_str(), text) {
        return Err(Outcome::WriteFault);
    }
    Ok(())
}

/// The path of a file in a folder.
fn path(alloc: Global, folder: &Text, file: ExportFile) -> Result<Text, AllocError>
    ensures { IfOk result (λ text. text ≡ file_of folder.now file) }
{
    let mut text = String::from_str(alloc, folder.as_str())?;
    text.push_str("/")?;
    file.push_name(&mut text)?;
    Ok(text_of_string(text))
}

/// The text of a string.
fn text_of_string(string: String) -> Text
    ensures { result ≡ string_bytes string }
{
    match Text::new(string.into_bytes()) {
        Some(text) => text,
        None => unreachable!(),
    }
}
