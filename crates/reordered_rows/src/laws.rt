//! Laws of the definitions, each the contract of a function that does nothing but name laws that it rests on.
ghost use Rattle.std.specs.Prelude.{◌≡◌, List, None};
ghost use Rattle.dump_ports.specs.Tree.{Tree};
ghost use Rattle.cat_rows.specs.declared.catalogue.Catalogue.{Catalogue};
ghost use Rattle.cat_rows.specs.declared.notes.DependRow.{DependRow};
ghost use Rattle.cat_model.specs.Values.{Bytes, Named};
ghost use Rattle.cat_names.specs.DataSets.{TextsByOid};
ghost use Rattle.cat_naming.specs.Texts.{rows_by_oid};
ghost use Rattle.cat_sound.specs.Sound.{IsSound};
ghost use Rattle.cat_sound.specs.Texts.{Texts as Grammar};
ghost use Rattle.exports.specs.Exports.{Exported, export_of};
ghost use Rattle.named_objects.specs.Oids.{ObjectOids};
ghost use Rattle.named_objects.specs.Standing.{AllStandFor};
ghost use Rattle.named_objects.specs.Views.{AreKept};
ghost use Rattle.named_tables.specs.Oids.{AreOids};
ghost use Rattle.reordered_rows.specs.Reading.{IsReadOrTooLarge};
ghost use Rattle.saved_folders.specs.Exports.{IsReordered};
ghost use Rattle.saved_folders.specs.Folders.{Texts, AreTexts, folder_saved};
ghost use Rattle.table_rows.specs.Values.{values_fault};
ghost use Rattle.well_formed.specs.Catalogues.{catalogue_fault};
ghost use Rattle.well_formed.specs.Formed.{IsWellFormed};

use cat_rows::laws::{read_rows_can_be_written, rows_have_one_order};
use folder_rows::laws::folders_hold_their_rows;

/// Fifteen tables that are well-formed and, with the rows of tables, stand for a catalogue in order stand for it as well once
/// their rows stand in the order in which a folder is read; and what they keep of the opening still meets the conditions of its
/// tables.
pub fn reordered_tables_stand()
    ensures stand { (texts : Grammar) (named : Named) (oids : ObjectOids) (current : Bytes) (depends : List DependRow) (cat : Catalogue) (put : TextsByOid) (export : Exported) → IsSound texts named → AreOids named oids.of → IsWellFormed cat → AllStandFor named oids current depends cat (rows_by_oid put) → IsReordered cat put export → AllStandFor named oids current depends export.cat (rows_by_oid export.rows) }
    ensures kept { (texts : Grammar) (named : Named) (oids : ObjectOids) (current : Bytes) (depends : List DependRow) (cat : Catalogue) (put : TextsByOid) (export : Exported) → IsSound texts named → AreOids named oids.of → IsWellFormed cat → AllStandFor named oids current depends cat (rows_by_oid put) → IsReordered cat put export → AreKept cat → AreKept export.cat }
{}

/// The texts of tables that are well-formed once their rows stand in order, and of rows of tables that hold such rows, are read
/// from each folder to which they are written; or the folder is past a limit. No other refusal comes.
pub fn written_tables_are_read()
    ensures { (cat : Catalogue) (rows : TextsByOid) (texts : Texts) (folder : Bytes) (tree : Tree) → AreTexts cat rows texts → values_fault cat rows ≡ None → ((export : Exported) → IsReordered cat rows export → catalogue_fault export.cat ≡ None) → IsReadOrTooLarge (export_of folder (folder_saved folder texts tree)) }
{
    rows_have_one_order();
    read_rows_can_be_written();
    folders_hold_their_rows();
}
