//! A folder read as a catalogue.
ghost use Rattle.std.specs.Prelude.{◌≡◌, ◌*◌, ◌≤◌, map, Some, IfOk};
ghost use Rattle.dump_ports.specs.Tree.{Tree};
ghost use Rattle.folder_io.specs.Answers.{Gives, CountsRead};
ghost use Rattle.folder_io.specs.Folders.{all_tables, table_limit, texts_of, texts_length, bytes_of, catalogue_of, catalogue_rows};

use crate::fault::FolderFault;
use crate::tables::{TableText, read_tables, total_length};
use crate::texts::{MARKER, check_marker, read_text};
use cat_rows::{Catalogue, SysTable};
use copy_text::Text;
use dump_ports::Files;
use std::alloc::Global;

/// What reading a folder's catalogue gives.
#[derive(Drop)]
pub struct ReadCatalogue {
    /// The catalogue.
    pub cat: Catalogue,
    /// How many bytes the marker file and the tables' files have together.
    pub bytes: u64,
}

/// Reads a folder's tables. The first that refuses is the answer: the marker file; then the files of the tables, one
/// after another in the order of `SysTable::ALL`, for their absence and their length; then their rows, in the same
/// order. `Failed` comes exactly where a call of the files failed.
#[tactic(auto, unfolding(crate::specs::Folders::catalogue_of))]
pub fn read_catalogue<F: Files>(
    alloc: Global,
    files: &mut F,
    folder: &Text,
) -> Result<ReadCatalogue, FolderFault>
    ensures due { (tree : Tree) → F.tree files.old ≡ Some tree → Gives (λ read. catalogue_rows read.cat) result (catalogue_of folder.now tree) }
    ensures bytes { (tree : Tree) → F.tree files.old ≡ Some tree → IfOk result (λ read. read.bytes ≡ bytes_of folder.now tree) }
    ensures kept { F.tree files.new ≡ F.tree files.old }
    ensures read_count { CountsRead result (F.read_faults files.old) (F.read_faults files.new) }
    ensures write_count { F.write_faults files.new ≡ F.write_faults files.old }
{
    check_marker(alloc, files, folder)?;
    let texts = read_texts(alloc, files, folder)?;
    let cat = read_tables(alloc, &texts)?;
    let bytes = MARKER.len() as u64 + total_length(&texts);
    Ok(ReadCatalogue { cat, bytes })
}

/// The texts of all tables.
fn read_texts<F: Files>(
    alloc: Global,
    files: &mut F,
    folder: &Text,
) -> Result<Vec<TableText>, FolderFault>
    ensures due { (tree : Tree) → F.tree files.old ≡ Some tree → Gives (λ texts. texts.items) result (texts_of folder.now tree) }
    ensures tables { IfOk result (λ texts. map (λ text. text.table) texts.items ≡ all_tables) }
    ensures limited { IfOk result (λ texts. texts_length texts.items ≤ 15 * table_limit) }
    ensures kept { F.tree files.new ≡ F.tree files.old }
    ensures read_count { CountsRead result (F.read_faults files.old) (F.read_faults files.new) }
    ensures write_count { F.write_faults files.new ≡ F.write_faults files.old }
{
    let mut texts = Vec::new(alloc);
    for table in &SysTable::ALL {
        let text = read_text(alloc, files, folder, *table)?;
        texts.push(text)?;
    }
    Ok(texts)
}
