//! Laws of the definitions, each the contract of a function that does nothing.
ghost use Rattle.std.specs.Prelude.{◌≡◌, ℕ, List, Some, Ok};
ghost use Rattle.cat_rows.specs.declared.catalogue.Catalogue.{Catalogue};
ghost use Rattle.cat_model.specs.Values.{Bytes};
ghost use Rattle.cat_names.specs.DataSets.{TextsByOid};
ghost use Rattle.cat_names.specs.Naming.{boot};
ghost use Rattle.cat_naming.specs.Texts.{rows_by_oid};
ghost use Rattle.ddl_laws.specs.located.Located.{Located};
ghost use Rattle.ddl_laws.specs.Reading.{statements_of};
ghost use Rattle.ddl_laws.specs.Spellings.{said};
ghost use Rattle.model_laws.specs.Examples.{catalogue_after};
ghost use Rattle.cat_sound.specs.Sound.{IsSound};
ghost use Rattle.sound_texts.specs.Grammar.{grammar};
ghost use Rattle.sound_loads.specs.InOrder.{AreFit};
ghost use Rattle.sound_whole.specs.Loaded.{IsLoaded, loaded};

/// Rows that meet their tables have a field for each column.
pub fn rows_that_meet_their_tables_fit()
    ensures { (cat : Catalogue) (texts : TextsByOid) → IsLoaded cat texts → AreFit cat (rows_by_oid texts) }
{}

/// What is loaded is sound, with the texts that the grammar of statements takes.
pub fn what_is_loaded_is_sound()
    ensures { (cat : Catalogue) (texts : TextsByOid) → IsLoaded cat texts → IsSound grammar (loaded cat texts) }
{}

/// So is what a script makes of it, whose statements are carried out one after another.
pub fn what_a_script_leaves_is_sound()
    ensures { (cat : Catalogue) (texts : TextsByOid) (role : Bytes) (text : List ℕ) (found : List Located) → IsLoaded cat texts → boot cat ≡ Some role → statements_of text ≡ Ok found → IsSound grammar (catalogue_after role (said found) (loaded cat texts)) }
{}
