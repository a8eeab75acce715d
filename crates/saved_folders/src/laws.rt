//! Laws of the definitions, each the contract of a function that does nothing.
ghost use Rattle.std.specs.Prelude.{◌≡◌, None, Ok};
ghost use Rattle.dump_ports.specs.Tree.{Tree};
ghost use Rattle.cat_rows.specs.declared.catalogue.Catalogue.{Catalogue};
ghost use Rattle.cat_model.specs.Values.{Bytes};
ghost use Rattle.cat_names.specs.DataSets.{TextsByOid};
ghost use Rattle.well_formed.specs.Catalogues.{catalogue_fault};
ghost use Rattle.table_rows.specs.Values.{values_fault};
ghost use Rattle.exports.specs.Exports.{Exported, export_of};
ghost use Rattle.saved_folders.specs.Folders.{Texts, AreTexts, folder_saved};
ghost use Rattle.saved_folders.specs.Exports.{IsReordered, StandsInOrder, IsReadWithinLimits, rows_kept};
ghost use Rattle.saved_folders.specs.Examples.{Examples};

use cat_rows::laws::{read_rows_can_be_written, rows_have_one_order};
use folder_rows::laws::folders_hold_their_rows;

/// Folders to which the texts of one catalogue and its rows are written are read alike, whatever they are called and
/// whatever was there before.
pub fn written_folders_read_alike()
    ensures { (cat : Catalogue) (rows : TextsByOid) (texts others : Texts) → AreTexts cat rows texts → AreTexts cat rows others
        → (folder other : Bytes) (tree before : Tree) → export_of folder (folder_saved folder texts tree) ≡ export_of other (folder_saved other others before) }
{
    rows_have_one_order();
    read_rows_can_be_written();
}

/// A folder to which the texts of a catalogue and its rows are written, where it is read as an export, is read as the
/// one with the same rows: those of each system table in its order, and the text of each table.
pub fn written_folders_keep_their_rows()
    ensures { (cat : Catalogue) (rows : TextsByOid) (texts : Texts) (folder : Bytes) (tree : Tree) (export : Exported) → AreTexts cat rows texts
        → export_of folder (folder_saved folder texts tree) ≡ Ok export → IsReordered cat rows export }
{
    rows_have_one_order();
    read_rows_can_be_written();
    folders_hold_their_rows();
}

/// A well-formed catalogue whose rows stand in the order of their tables, with texts that hold rows of its tables, is read
/// as itself from each folder to which its texts are written, with these texts; or the folder is past a limit. No other
/// refusal comes.
pub fn catalogues_in_order_are_read()
    ensures { (cat : Catalogue) (rows : TextsByOid) (texts : Texts) (folder : Bytes) (tree : Tree) → AreTexts cat rows texts
        → StandsInOrder cat → catalogue_fault cat ≡ None → values_fault cat rows ≡ None
        → IsReadWithinLimits (record { cat = cat; rows = rows_kept cat rows }) (export_of folder (folder_saved folder texts tree)) }
{
    rows_have_one_order();
    read_rows_can_be_written();
    folders_hold_their_rows();
}

/// A worked example, computed from the definitions.
pub fn worked_example()
    ensures { Examples }
{}
