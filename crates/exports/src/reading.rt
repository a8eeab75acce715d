//! A folder read as an export.
ghost use Rattle.std.specs.Prelude.{◌≡◌, ℕ, Some, None};
ghost use Rattle.dump_ports.specs.Tree.{Tree};
ghost use Rattle.table_rows.specs.Values.{values_fault};
ghost use Rattle.well_formed.specs.Catalogues.{catalogue_fault};
ghost use Rattle.folder_io.specs.Folders.{bytes_of};
ghost use Rattle.tool_words.specs.Answers.{Gives, CountsRead};
ghost use Rattle.exports.specs.Exports.{formed_with, formed_of, texts_with, texts_of, held, export_of};

use cat_names::DataSet;
use cat_rows::Catalogue;
use copy_text::Text;
use dump_ports::Files;
use folder_io::read_catalogue;
use folder_rows::read_rows;
use std::alloc::Global;
use std::marker::Model;
use table_rows::check_values;
use tool_words::Outcome;
use well_formed::WellFormed;

/// What an export folder holds: a catalogue that is well-formed, and texts that hold rows of its tables. A contract sees
/// the record of both.
#[derive(Drop)]
pub struct Export {
    cat: WellFormed,
    rows: DataSet,
}

impl Model for Export {
    ghost use Rattle.std.specs.Coded.{codes};
    ghost use Rattle.exports.specs.Exports.{Exported, texts_code};

    ghost Value = { Exported };

    ghost coded = { Prim.hlevel (codes, texts_code) };

    ghost use Rattle.std.specs.Prelude.{◌≡◌, None};
    ghost use Rattle.table_rows.specs.Values.{values_fault};
    ghost use Rattle.well_formed.specs.Catalogues.{catalogue_fault};

    ghost view = { λ e. record { cat = e.cat; rows = e.rows } };

    ghost invariant = { λ e. (catalogue_fault e.cat ≡ None) × (values_fault e.cat e.rows ≡ None) };
}

impl Export {
    /// Its catalogue.
    pub fn catalogue(&self) -> &WellFormed
        ensures { result.now ≡ self.now.cat }
    {
        &self.cat
    }

    /// The texts of its tables' rows. Each table has one, and it holds rows of the table, whose catalogue is well-formed.
    pub fn rows(&self) -> &DataSet
        ensures rows { result.now ≡ self.now.rows }
        ensures formed { catalogue_fault self.now.cat ≡ None }
        ensures hold { values_fault self.now.cat self.now.rows ≡ None }
    {
        &self.rows
    }
}

/// Reads the catalogue of an export folder: the marker and its tables, which are well-formed. No data file is read.
///
/// `Missing`, `BadExport`, `OutOfProfile` and `TooLarge` are told as these steps meet them. `ReadFault` comes exactly
/// where a call of the files failed, and `Memory` may come for any folder.
#[tactic(auto, unfolding(crate::specs::Exports::formed_of))]
pub fn read_formed<F: Files>(
    alloc: Global,
    files: &mut F,
    folder: &Text,
) -> Result<WellFormed, Outcome>
    ensures due { (tree : Tree) → F.tree files.old ≡ Some tree → Gives (λ cat. cat) result (formed_of folder.now tree) }
    ensures kept { F.tree files.new ≡ F.tree files.old }
    ensures read_count { CountsRead result (F.read_faults files.old) (F.read_faults files.new) }
    ensures write_count { F.write_faults files.new ≡ F.write_faults files.old }
{
    let read = read_catalogue(alloc, files, folder)?;
    check_formed(alloc, read.cat)
}

/// The same catalogue, where it is well-formed.
fn check_formed(alloc: Global, cat: Catalogue) -> Result<WellFormed, Outcome>
    ensures due { Gives (λ cat. cat) result (formed_with cat) }
    ensures count { (n : ℕ) → CountsRead result n n }
{
    Ok(WellFormed::check(alloc, cat)?)
}

/// What an export folder holds, of which it isn't told yet whether the texts hold rows of the tables: a catalogue that is
/// well-formed, and the text of each table's data file. A contract sees the record of both.
#[derive(Drop)]
pub struct FolderTexts {
    cat: WellFormed,
    rows: DataSet,
}

impl Model for FolderTexts {
    ghost use Rattle.std.specs.Coded.{codes};
    ghost use Rattle.exports.specs.Exports.{Exported, texts_code};

    ghost Value = { Exported };

    ghost coded = { Prim.hlevel (codes, texts_code) };

    ghost view = { λ t. record { cat = t.cat; rows = t.rows } };
}

impl FolderTexts {
    /// The catalogue.
    pub fn catalogue(&self) -> &WellFormed
        ensures { result.now ≡ self.now.cat }
    {
        &self.cat
    }

    /// The texts of the tables' data files. Each table has one.
    pub fn texts(&self) -> &DataSet
        ensures { result.now ≡ self.now.rows }
    {
        &self.rows
    }

    /// The export, where each of the texts holds rows of its table, by rising oid; else `BadExport` at the first that doesn't.
    /// `Memory` may come for any texts.
    pub fn into_export(self, alloc: Global) -> Result<Export, Outcome>
        ensures due { Gives (λ export. export) result (held self) }
        ensures count { (n : ℕ) → CountsRead result n n }
    {
        let FolderTexts { cat, rows } = self;
        check_values(alloc, cat.rows(), &rows)?;
        Ok(Export { cat, rows })
    }
}

/// Reads an export folder but for telling whether its texts hold rows. The first step that refuses is the answer: the marker
/// and the tables of the catalogue are read; the catalogue is well-formed; the data files of its tables are read, by rising
/// oid.
///
/// `Missing`, `BadExport`, `OutOfProfile` and `TooLarge` are told as these steps meet them. `ReadFault` comes exactly
/// where a call of the files failed, and `Memory` may come for any folder.
#[tactic(auto, unfolding(crate::specs::Exports::texts_of))]
pub fn read_texts<F: Files>(
    alloc: Global,
    files: &mut F,
    folder: &Text,
) -> Result<FolderTexts, Outcome>
    ensures due { (tree : Tree) → F.tree files.old ≡ Some tree → Gives (λ texts. texts) result (texts_of folder.now tree) }
    ensures kept { F.tree files.new ≡ F.tree files.old }
    ensures read_count { CountsRead result (F.read_faults files.old) (F.read_faults files.new) }
    ensures write_count { F.write_faults files.new ≡ F.write_faults files.old }
{
    let read = read_catalogue(alloc, files, folder)?;
    read_behind(alloc, files, folder, read.cat, read.bytes)
}

/// What stands behind the tables of the catalogue, whose files have so many bytes.
#[tactic(auto, unfolding(crate::specs::Exports::texts_with))]
fn read_behind<F: Files>(
    alloc: Global,
    files: &mut F,
    folder: &Text,
    cat: Catalogue,
    bytes: u64,
) -> Result<FolderTexts, Outcome>
    ensures due { (tree : Tree) → F.tree files.old ≡ Some tree → Gives (λ texts. texts) result (texts_with folder.now bytes cat tree) }
    ensures kept { F.tree files.new ≡ F.tree files.old }
    ensures read_count { CountsRead result (F.read_faults files.old) (F.read_faults files.new) }
    ensures write_count { F.write_faults files.new ≡ F.write_faults files.old }
{
    let cat = WellFormed::check(alloc, cat)?;
    let rows = read_rows(alloc, files, folder, cat.rows(), bytes)?;
    Ok(FolderTexts { cat, rows })
}

/// Reads an export folder. The first step that refuses is the answer: the marker and the tables of the catalogue are
/// read; the catalogue is well-formed; the data files of its tables are read, by rising oid; and each of their texts
/// holds rows of its table, in the same order.
///
/// `Missing`, `BadExport`, `OutOfProfile` and `TooLarge` are told as these steps meet them. `ReadFault` comes exactly
/// where a call of the files failed, and `Memory` may come for any folder.
pub fn read_export<F: Files>(alloc: Global, files: &mut F, folder: &Text) -> Result<Export, Outcome>
    ensures due { (tree : Tree) → F.tree files.old ≡ Some tree → Gives (λ export. export) result (export_of folder.now tree) }
    ensures kept { F.tree files.new ≡ F.tree files.old }
    ensures read_count { CountsRead result (F.read_faults files.old) (F.read_faults files.new) }
    ensures write_count { F.write_faults files.new ≡ F.write_faults files.old }
{
    let texts = read_texts(alloc, files, folder)?;
    texts.into_export(alloc)
}
