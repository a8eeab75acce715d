//! Laws of the definitions, each the contract of a function that does nothing but name laws that it rests on.
ghost use Rattle.std.specs.List.{AllByRecursion};
ghost use Rattle.std.specs.Prelude.{◌≡◌, ℤ, List, None, Some, Ok};
ghost use Rattle.cat_rows.specs.declared.catalogue.Catalogue.{Catalogue};
ghost use Rattle.cat_rows.specs.declared.roles.DatabaseRow.{DatabaseRow};
ghost use Rattle.cat_model.specs.declared.object.QName.{QName};
ghost use Rattle.cat_model.specs.declared.stmt.Stmt.{Stmt};
ghost use Rattle.cat_model.specs.Effects.{effect};
ghost use Rattle.cat_model.specs.Trees.{next, run};
ghost use Rattle.cat_model.specs.Values.{Bytes, Named};
ghost use Rattle.cat_names.specs.DataSets.{TextsByOid};
ghost use Rattle.cat_names.specs.Naming.{boot};
ghost use Rattle.opening_laws.specs.Entries.{catalogue_named};
ghost use Rattle.opening_laws.specs.Texts.{rows_by_oid};
ghost use Rattle.cat_sound.specs.Fit.{IsFit};
ghost use Rattle.cat_sound.specs.Sound.{IsSound};
ghost use Rattle.cat_sound.specs.Texts.{Texts};
ghost use Rattle.model_laws.specs.Examples.{catalogue_after};
ghost use Rattle.object_ids.specs.Ids.{IdsOf};
ghost use Rattle.sound_rows.specs.Rows.{IsAmong};
ghost use Rattle.opening_laws.specs.Grammar.{grammar};
ghost use Rattle.table_rows.specs.Values.{values_fault};
ghost use Rattle.named_objects.specs.Formed.{IsWellFormed};
ghost use Rattle.opening_sound.specs.Left.{IsLeft};
ghost use Rattle.opening_sound.specs.Export.{AreSpelled, IsExport, CanBeExported};

use data_rows::laws::written_rows_read;

/// A well-formed opening that stands for a catalogue in order starts so, with the role to which new objects belong.
pub fn openings_are_in_order()
    ensures { (opening : Catalogue) (texts : TextsByOid) (role : Bytes) → IsWellFormed opening → IsSound grammar (catalogue_named opening (rows_by_oid texts)) → boot opening ≡ Some role → IsLeft opening texts role (catalogue_named opening (rows_by_oid texts)) }
{}

/// Each statement that is fit, as each that is read is, leaves it so: one that is carried out, one after another, and one that
/// is refused.
pub fn statements_leave_it_in_order()
    ensures each { (opening : Catalogue) (texts : TextsByOid) (role : Bytes) (s : Stmt) (named : Named) → IsLeft opening texts role named → IsFit grammar s → IsLeft opening texts role (next (effect role s) named) }
    ensures carried_out { (opening : Catalogue) (texts : TextsByOid) (role : Bytes) (s : Stmt) (named after : Named) → IsLeft opening texts role named → IsFit grammar s → run (effect role s) named ≡ Ok after → IsLeft opening texts role after }
    ensures all { (opening : Catalogue) (texts : TextsByOid) (role : Bytes) (ss : List Stmt) (named : Named) → IsLeft opening texts role named → AllByRecursion (IsFit grammar) ss → IsLeft opening texts role (catalogue_after role ss named) }
{}

/// What is left can be exported: the boot role and the databases stay, by the oids that they had, and the opening's columns of
/// views and its dependencies lead on to what they led to.
pub fn what_is_left_can_be_exported()
    ensures { (opening : Catalogue) (texts : TextsByOid) (role : Bytes) (named : Named) → IsWellFormed opening → IsLeft opening texts role named → CanBeExported opening named }
{}

/// Tables that are made of what can be exported are well-formed, and are named as it.
pub fn exported_tables_are_well_formed()
    ensures formed { (opening : Catalogue) (named : Named) (ids : IdsOf) (number : QName → Bytes → ℤ) (d : DatabaseRow) (cat : Catalogue) (texts : TextsByOid) → CanBeExported opening named → IsAmong d opening.pg_database → IsExport opening named ids number d.datname cat texts → IsWellFormed cat }
    ensures named { (opening : Catalogue) (named : Named) (ids : IdsOf) (number : QName → Bytes → ℤ) (current : Bytes) (cat : Catalogue) (texts : TextsByOid) → CanBeExported opening named → IsExport opening named ids number current cat texts → catalogue_named cat (rows_by_oid texts) ≡ named }
{}

/// Texts hold rows of the tables of a catalogue that is well-formed, where what both stand for is in order and each text is the
/// one that spells its rows; so those that are made of what can be exported do.
pub fn spelled_texts_hold_rows()
    ensures spelled { (good : Texts) (cat : Catalogue) (texts : TextsByOid) → IsWellFormed cat → IsSound good (catalogue_named cat (rows_by_oid texts)) → AreSpelled texts → values_fault cat texts ≡ None }
    ensures exported { (opening : Catalogue) (named : Named) (ids : IdsOf) (number : QName → Bytes → ℤ) (d : DatabaseRow) (cat : Catalogue) (texts : TextsByOid) → CanBeExported opening named → IsAmong d opening.pg_database → IsExport opening named ids number d.datname cat texts → values_fault cat texts ≡ None }
{
    written_rows_read();
}
