//! Two folders that have one opening, told without holding a text of their data files.
ghost use Rattle.std.specs.Prelude.{◌≡◌, ◌≤◌, ℕ, None, Some, Ok, IfErr, IfOk, IfSome, IsTrue};
ghost use Rattle.dump_ports.specs.Tree.{Tree};
ghost use Rattle.folder_io.specs.declared.fault.FolderLimit.TheVariants.{Folder};
ghost use Rattle.folder_io.specs.declared.file.ExportFile.TheVariants as file;
ghost use Rattle.folder_io.specs.Folders.{all_tables, bytes_of, catalogue_of, catalogue_rows, most_bytes};
ghost use Rattle.well_formed.specs.Catalogues.{catalogue_fault};
ghost use Rattle.same_texts.specs.Alike.{HasSame};
ghost use Rattle.tool_words.specs.Answers.{CountsRead};
ghost use Rattle.same_folders.specs.CutOff.{IsCutOff};
ghost use Rattle.same_folders.specs.Streams.{HoldLines, LinesMeet, OpenAsOne, StandsFor};
ghost use Rattle.std.specs.List.{All, AllByRecursion};
ghost use Rattle.cat_names.specs.DataSets.{TextsByOid};
ghost use Rattle.plain_loads.specs.Meeting.{TableTakes};
ghost use Rattle.table_rows.specs.Tables.{table_oids};

use crate::streams::tables_are_same;
use cat_book::Book;
use cat_names::CheckError;
use cat_rows::Catalogue;
use copy_text::Text;
use dump_ports::Files;
use eng_map::NamedMap;
use folder_io::{FolderFault, FolderLimit, read_catalogue};
use plain_loads::bare_map;
use same_texts::have_same_catalogue;
use same_texts::laws::same_texts_are_read_alike;
use std::alloc::Global;
use table_rows::table_oids;
use tool_words::Outcome;
use well_formed::WellFormed;

/// How many bytes are asked for at once.
const PIECE: usize = 262_144;

// Whether both folders hold the same marker and the same files of the system tables.
fn catalogues_are_same<F: Files>(
    alloc: Global,
    files: &mut F,
    first: &Text,
    second: &Text,
) -> Result<bool, Outcome>
    ensures same { IfOk result (λ same. IsTrue same → (tree : Tree) → F.tree files.old ≡ Some tree → HasSame first.now second.now tree file.Marker × All (λ table. HasSame first.now second.now tree (file.Table table)) all_tables) }
    ensures cut_off { IfErr result IsCutOff }
    ensures kept { F.tree files.new ≡ F.tree files.old }
    ensures read_count { CountsRead result (F.read_faults files.old) (F.read_faults files.new) }
    ensures write_count { F.write_faults files.new ≡ F.write_faults files.old }
{
    match have_same_catalogue(alloc, files, first, second) {
        Ok(same) => Ok(same),
        Err(FolderFault::Failed) => Err(Outcome::ReadFault),
        Err(_) => Err(Outcome::Memory),
    }
}

// Whether the data files of these tables are the same in both folders, and each table takes the lines of its file: two parts of
// the files are held at a time.
fn parts_meet<F: Files>(
    alloc: Global,
    files: &mut F,
    first: &Text,
    second: &Text,
    named: &NamedMap,
    book: &Book<'_>,
    tables: &[u32],
    used: u64,
) -> Result<bool, Outcome>
    requires { used ≤ most_bytes Folder }
    ensures same { IfOk result (λ same. IsTrue same → (tree : Tree) → F.tree files.old ≡ Some tree → HoldLines first.now second.now tree used tables.now) }
    ensures takes { IfOk result (λ same. IsTrue same → (tree : Tree) → F.tree files.old ≡ Some tree → (texts : TextsByOid) → AllByRecursion (StandsFor first.now tree texts) tables.now → AllByRecursion (TableTakes named.now book.now texts) tables.now) }
    ensures cut_off { IfErr result IsCutOff }
    ensures kept { F.tree files.new ≡ F.tree files.old }
    ensures read_count { CountsRead result (F.read_faults files.old) (F.read_faults files.new) }
    ensures write_count { F.write_faults files.new ≡ F.write_faults files.old }
{
    let mut one = vec![in alloc; 0u8; PIECE]?;
    let mut other = vec![in alloc; 0u8; PIECE]?;
    tables_are_same(
        alloc,
        files,
        first,
        second,
        named,
        book,
        tables,
        used,
        one.as_mut_slice(),
        other.as_mut_slice(),
    )
}

// The same of all tables of a catalogue, whose map without rows is this one.
fn tables_meet<F: Files>(
    alloc: Global,
    files: &mut F,
    first: &Text,
    second: &Text,
    cat: &WellFormed,
    named: &NamedMap,
    book: &Book<'_>,
    used: u64,
) -> Result<bool, Outcome>
    requires { used ≤ most_bytes Folder }
    ensures same { IfOk result (λ same. IsTrue same → (tree : Tree) → F.tree files.old ≡ Some tree → HoldLines first.now second.now tree used (table_oids cat.now)) }
    ensures takes { IfOk result (λ same. IsTrue same → (tree : Tree) → F.tree files.old ≡ Some tree → (texts : TextsByOid) → AllByRecursion (StandsFor first.now tree texts) (table_oids cat.now) → AllByRecursion (TableTakes named.now book.now texts) (table_oids cat.now)) }
    ensures cut_off { IfErr result IsCutOff }
    ensures kept { F.tree files.new ≡ F.tree files.old }
    ensures read_count { CountsRead result (F.read_faults files.old) (F.read_faults files.new) }
    ensures write_count { F.write_faults files.new ≡ F.write_faults files.old }
{
    let tables = table_oids(alloc, cat.rows())?;
    parts_meet(alloc, files, first, second, named, book, &tables, used)
}

// The same by the catalogue and its map alone.
fn rows_meet<F: Files>(
    alloc: Global,
    files: &mut F,
    first: &Text,
    second: &Text,
    cat: &WellFormed,
    named: &NamedMap,
    used: u64,
) -> Result<bool, Outcome>
    requires { used ≤ most_bytes Folder }
    ensures same { IfOk result (λ same. IsTrue same → (tree : Tree) → F.tree files.old ≡ Some tree → HoldLines first.now second.now tree used (table_oids cat.now)) }
    ensures takes { IfOk result (λ same. IsTrue same → (tree : Tree) → F.tree files.old ≡ Some tree → (texts : TextsByOid) → AllByRecursion (StandsFor first.now tree texts) (table_oids cat.now) → AllByRecursion (TableTakes named.now cat.now texts) (table_oids cat.now)) }
    ensures cut_off { IfErr result IsCutOff }
    ensures kept { F.tree files.new ≡ F.tree files.old }
    ensures read_count { CountsRead result (F.read_faults files.old) (F.read_faults files.new) }
    ensures write_count { F.write_faults files.new ≡ F.write_faults files.old }
{
    let book = cat.book(alloc)?;
    tables_meet(alloc, files, first, second, cat, named, &book, used)
}

// Whether the data files of a catalogue's tables are the same in both folders, and each table takes the lines of its file.
fn lines_meet<F: Files>(
    alloc: Global,
    files: &mut F,
    first: &Text,
    second: &Text,
    cat: &WellFormed,
    used: u64,
) -> Result<bool, Outcome>
    requires { used ≤ most_bytes Folder }
    ensures meet { IfOk result (λ meet. IsTrue meet → (tree : Tree) → F.tree files.old ≡ Some tree → LinesMeet first.now second.now tree cat.now used) }
    ensures cut_off { IfErr result IsCutOff }
    ensures kept { F.tree files.new ≡ F.tree files.old }
    ensures read_count { CountsRead result (F.read_faults files.old) (F.read_faults files.new) }
    ensures write_count { F.write_faults files.new ≡ F.write_faults files.old }
{
    match bare_map(alloc, cat) {
        Ok(Some(named)) => rows_meet(alloc, files, first, second, cat, &named, used),
        Ok(None) => Ok(false),
        Err(_) => Err(Outcome::Memory),
    }
}

fn is_small(used: u64) -> bool
    ensures { IsTrue result → used ≤ most_bytes Folder }
{
    used <= FolderLimit::Folder.bytes()
}

// Whether the folders have one opening, where this is the catalogue of the first, whose files have so many bytes.
fn open_formed<F: Files>(
    alloc: Global,
    files: &mut F,
    first: &Text,
    second: &Text,
    cat: &WellFormed,
    used: u64,
) -> Result<bool, Outcome>
    ensures one { IfOk result (λ one. IsTrue one → (tree : Tree) → F.tree files.old ≡ Some tree → catalogue_of first.now tree ≡ Ok (catalogue_rows cat.now) → catalogue_fault cat.now ≡ None → used ≡ bytes_of first.now tree → OpenAsOne first.now second.now tree) }
    ensures cut_off { IfErr result IsCutOff }
    ensures kept { F.tree files.new ≡ F.tree files.old }
    ensures read_count { CountsRead result (F.read_faults files.old) (F.read_faults files.new) }
    ensures write_count { F.write_faults files.new ≡ F.write_faults files.old }
{
    same_texts_are_read_alike();
    if !is_small(used) {
        return Ok(false);
    }
    if !catalogues_are_same(alloc, files, first, second)? {
        return Ok(false);
    }
    lines_meet(alloc, files, first, second, cat, used)
}

// The same where the catalogue is well-formed.
fn open_with<F: Files>(
    alloc: Global,
    files: &mut F,
    first: &Text,
    second: &Text,
    cat: Catalogue,
    used: u64,
) -> Result<bool, Outcome>
    ensures one { IfOk result (λ one. IsTrue one → (tree : Tree) → F.tree files.old ≡ Some tree → catalogue_of first.now tree ≡ Ok (catalogue_rows cat) → used ≡ bytes_of first.now tree → OpenAsOne first.now second.now tree) }
    ensures cut_off { IfErr result IsCutOff }
    ensures kept { F.tree files.new ≡ F.tree files.old }
    ensures read_count { CountsRead result (F.read_faults files.old) (F.read_faults files.new) }
    ensures write_count { F.write_faults files.new ≡ F.write_faults files.old }
{
    match WellFormed::check(alloc, cat) {
        Ok(formed) => open_formed(alloc, files, first, second, &formed, used),
        Err(CheckError::Memory) => Err(Outcome::Memory),
        Err(CheckError::Fault(_)) => Ok(false),
    }
}

/// Whether a second folder holds, byte for byte, the texts of a first one in all files that reading takes, and these are rows
/// that meet their tables, so that both have one opening. The data files of both are read once and in step, a part at a time; no
/// text of them is held, no row is made, and no map of what the folders stand for.
///
/// It says no where it can't tell that so, as `plain_loads::begin_trial` and `TableTrial::take` do, and stops there. The error is
/// `ReadFault`, exactly where a call of the files failed, or `Memory`.
pub fn open_as_one<F: Files>(
    alloc: Global,
    files: &mut F,
    first: &Text,
    second: &Text,
) -> Result<bool, Outcome>
    ensures one { IfOk result (λ one. IsTrue one → (tree : Tree) → F.tree files.old ≡ Some tree → OpenAsOne first.now second.now tree) }
    ensures cut_off { IfErr result IsCutOff }
    ensures kept { F.tree files.new ≡ F.tree files.old }
    ensures read_count { CountsRead result (F.read_faults files.old) (F.read_faults files.new) }
    ensures write_count { F.write_faults files.new ≡ F.write_faults files.old }
{
    match read_catalogue(alloc, files, first) {
        Ok(read) => open_with(alloc, files, first, second, read.cat, read.bytes),
        Err(FolderFault::Failed) => Err(Outcome::ReadFault),
        Err(FolderFault::Memory) => Err(Outcome::Memory),
        Err(_) => Ok(false),
    }
}
