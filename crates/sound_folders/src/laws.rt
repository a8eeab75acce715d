//! Laws of the definitions, each the contract of a function that does nothing.
ghost use Rattle.std.specs.Prelude.{◌≡◌, ℕ, List, Some, Ok};
ghost use Rattle.dump_ports.specs.Tree.{Tree};
ghost use Rattle.cat_model.specs.Values.{Bytes};
ghost use Rattle.cat_names.specs.Naming.{boot};
ghost use Rattle.ddl_scripts.specs.declared.located.Located.{Located};
ghost use Rattle.ddl_scripts.specs.Reading.{statements_of};
ghost use Rattle.ddl_scripts.specs.Spellings.{said};
ghost use Rattle.model_laws.specs.Examples.{catalogue_after};
ghost use Rattle.cat_sound.specs.Sound.{IsSound};
ghost use Rattle.exports.specs.Exports.{Exported};
ghost use Rattle.openings.specs.Openings.{opened_folder, export_named};
ghost use Rattle.sound_texts.specs.Grammar.{grammar};

/// A folder that is taken in, well-formed and with rows that meet their tables, stands for a sound catalogue.
pub fn folders_that_are_taken_in_are_sound()
    ensures { (folder : Bytes) (tree : Tree) (export : Exported) → opened_folder folder tree ≡ Ok export → IsSound grammar (export_named export) }
{}

/// What a script makes of it is sound, by the role to which new objects belong: so psql never has to write a catalogue that
/// isn't.
pub fn what_scripts_make_of_folders_is_sound()
    ensures { (folder : Bytes) (tree : Tree) (export : Exported) (role : Bytes) (text : List ℕ) (found : List Located) → opened_folder folder tree ≡ Ok export → boot export.cat ≡ Some role → statements_of text ≡ Ok found → IsSound grammar (catalogue_after role (said found) (export_named export)) }
{}
