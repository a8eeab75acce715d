//! An export with the texts of its folder.
ghost use Rattle.std.specs.Prelude.{◌≡◌, None, option_map, IfErr, IfOk, OnOk, OnErr};
ghost use Rattle.dump_ports.specs.Tree.{Tree};
ghost use Rattle.cat_model.specs.Values.{Bytes};
ghost use Rattle.table_rows.specs.Values.{values_fault};
ghost use Rattle.exports.specs.Exports.{export_of};
ghost use Rattle.tool_words.specs.Answers.{Gives, CountsWrite, IsLate};
ghost use Rattle.saved_folders.specs.Files.{PartSaved};
ghost use Rattle.saved_folders.specs.Folders.{Texts, AreTexts, files_of, folder_saved};
ghost use Rattle.saved_folders.specs.Exports.{ReadsAs, IsReordered, IsCallFree, HasNoTexts};

use crate::laws::{written_folders_keep_their_rows, written_folders_read_alike};
use crate::reading::read_back;
use crate::tables::{TableText, table_texts};
use crate::writing::write_files;
use cat_names::DataSet;
use cat_rows::Catalogue;
use copy_text::Text;
use dump_ports::Files;
use exports::Export;
use std::alloc::Global;
use std::marker::Model;
use table_rows::table_oids;
use tool_words::Outcome;
use well_formed::WellFormed;

/// An export with the texts of its folder: a folder to which they are written is read as this export. A contract sees
/// the record of both.
#[derive(Drop)]
pub struct ExportTexts {
    export: Export,
    oids: Vec<u32>,
    tables: Vec<TableText>,
}

impl Model for ExportTexts {
    ghost use Rattle.std.specs.Coded.{codes};
    ghost use Rattle.exports.specs.Exports.{texts_code};
    ghost use Rattle.saved_folders.specs.Exports.{WithTexts};

    ghost Value = { WithTexts };

    ghost coded = { Prim.hlevel (codes, texts_code) };

    ghost use Rattle.saved_folders.specs.Folders.{texts_with};
    ghost use Rattle.saved_folders.specs.Exports.{ReadsAs};

    ghost view = { λ e. record { export = e.export; texts = texts_with e.export.rows e.oids.items e.tables.items } };

    ghost invariant = { λ e. ReadsAs (texts_with e.export.rows e.oids.items e.tables.items) e.export };
}

impl ExportTexts {
    /// The catalogue, with the rows of each table in the order in which they are written.
    pub fn catalogue(&self) -> &WellFormed
        ensures value { result.now ≡ self.now.export.cat }
        ensures reads { ReadsAs self.now.texts self.now.export }
    {
        self.export.catalogue()
    }

    /// The texts of its tables' rows. Each table has one, and it holds rows of the table.
    pub fn rows(&self) -> &DataSet
        ensures rows { result.now ≡ self.now.export.rows }
        ensures hold { values_fault self.now.export.cat self.now.export.rows ≡ None }
    {
        self.export.rows()
    }
}

/// The texts of the folder of a catalogue and the rows of its tables, and the export as which a folder with these texts
/// is read: the rows of each system table in its order, and the text put for each table, or the empty one.
///
/// The texts are read once, in memory. So the answer is what reading the folder would give: `TooLarge` where the text of
/// a system table or of a table's rows has more than 134,217,728 bytes, or all texts together have more than 268,435,456,
/// and `BadExport` or `OutOfProfile` where the catalogue isn't well-formed or a text doesn't hold rows of its table.
/// `Memory` may come for any texts, and no other answer comes.
pub fn make_texts(alloc: Global, cat: &Catalogue, rows: &DataSet) -> Result<ExportTexts, Outcome>
    ensures texts { IfOk result (λ made. AreTexts cat.now rows.now made.texts) }
    ensures reads { IfOk result (λ made. ReadsAs made.texts made.export) }
    ensures kept { IfOk result (λ made. IsReordered cat.now rows.now made.export) }
    ensures due { (texts : Texts) → AreTexts cat.now rows.now texts → (folder : Bytes) (tree : Tree) → Gives (λ made. made.export) result (export_of folder (folder_saved folder texts tree)) }
    ensures call_free { IfErr result IsCallFree }
    ensures unread { IfErr result (HasNoTexts cat.now rows.now) }
{
    written_folders_read_alike();
    written_folders_keep_their_rows();
    let tables = table_texts(alloc, cat)?;
    let oids = table_oids(alloc, cat)?;
    let export = read_back(alloc, rows, &oids, &tables)?;
    Ok(ExportTexts {
        export,
        oids,
        tables,
    })
}

/// Writes a folder: the data files by rising oid, then the files of the system tables in their order, and the marker
/// last. Each is made anew. Files that are none of these are neither read nor changed.
///
/// The only errors are `WriteFault` and `Memory`. After one the files before the one that was being written are whole,
/// that one holds a first part of its text or what it held, and the later ones are untouched.
pub fn write_texts<F: Files>(
    alloc: Global,
    files: &mut F,
    folder: &Text,
    texts: &ExportTexts,
) -> Result<(), Outcome>
    ensures late { IfErr result IsLate }
    ensures ok { OnOk result (F.tree files.new ≡ option_map (folder_saved folder.now texts.now.texts) (F.tree files.old)) }
    ensures err { OnErr result (PartSaved (files_of folder.now texts.now.texts) (F.tree files.old) (F.tree files.new)) }
    ensures reads { ReadsAs texts.now.texts texts.now.export }
    ensures read_count { F.read_faults files.new ≡ F.read_faults files.old }
    ensures write_count { CountsWrite result (F.write_faults files.old) (F.write_faults files.new) }
{
    write_files(
        alloc,
        files,
        folder,
        texts.export.rows(),
        &texts.oids,
        &texts.tables,
    )
}
