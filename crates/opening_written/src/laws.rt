//! Laws of the definitions, each the contract of a function that does nothing but name laws that it rests on.
ghost use Rattle.std.specs.Prelude.{◌≡◌, ℤ, None};
ghost use Rattle.dump_ports.specs.Tree.{Tree};
ghost use Rattle.cat_rows.specs.declared.catalogue.Catalogue.{Catalogue};
ghost use Rattle.cat_rows.specs.declared.roles.DatabaseRow.{DatabaseRow};
ghost use Rattle.cat_model.specs.declared.object.QName.{QName};
ghost use Rattle.cat_model.specs.Values.{Bytes, Named};
ghost use Rattle.cat_names.specs.DataSets.{TextsByOid};
ghost use Rattle.cat_naming.specs.Entries.{catalogue_named};
ghost use Rattle.cat_naming.specs.Texts.{rows_by_oid};
ghost use Rattle.exports.specs.Exports.{Exported, export_of};
ghost use Rattle.object_ids.specs.Ids.{IdsOf};
ghost use Rattle.opening_sound.specs.Export.{IsExport, CanBeExported};
ghost use Rattle.reordered_rows.specs.Reading.{IsReadOrTooLarge};
ghost use Rattle.reordered_rows.specs.Exports.{IsReordered};
ghost use Rattle.reordered_rows.specs.Folders.{Texts, AreTexts, folder_saved};
ghost use Rattle.sound_rows.specs.Rows.{IsAmong};
ghost use Rattle.well_formed.specs.Catalogues.{catalogue_fault};

use opening_sound::laws::spelled_texts_hold_rows;
use reordered_rows::laws::written_tables_are_read;

/// A folder to which the texts of tables are written that are made of what can be exported is read, whatever it is called and
/// whatever was there before; or it is past a limit. No other refusal comes.
pub fn exports_are_read()
    ensures { (opening : Catalogue) (named : Named) (ids : IdsOf) (number : QName → Bytes → ℤ) (d : DatabaseRow) (cat : Catalogue) (rows : TextsByOid) (texts : Texts) (folder : Bytes) (tree : Tree) → CanBeExported opening named → IsAmong d opening.pg_database → IsExport opening named ids number d.datname cat rows → AreTexts cat rows texts → IsReadOrTooLarge (export_of folder (folder_saved folder texts tree)) }
{
    spelled_texts_hold_rows();
    written_tables_are_read();
}

/// What it is read as, the same tables with their rows in order, is well-formed and stands for what was exported.
pub fn what_is_read_is_what_was_left()
    ensures formed { (opening : Catalogue) (named : Named) (ids : IdsOf) (number : QName → Bytes → ℤ) (d : DatabaseRow) (cat : Catalogue) (rows : TextsByOid) (read : Exported) → CanBeExported opening named → IsAmong d opening.pg_database → IsExport opening named ids number d.datname cat rows → IsReordered cat rows read → catalogue_fault read.cat ≡ None }
    ensures same { (opening : Catalogue) (named : Named) (ids : IdsOf) (number : QName → Bytes → ℤ) (d : DatabaseRow) (cat : Catalogue) (rows : TextsByOid) (read : Exported) → CanBeExported opening named → IsAmong d opening.pg_database → IsExport opening named ids number d.datname cat rows → IsReordered cat rows read → catalogue_named read.cat (rows_by_oid read.rows) ≡ named }
{}
