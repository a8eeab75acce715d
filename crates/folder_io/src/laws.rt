//! Laws of the definitions, each the contract of a function that does nothing.
ghost use Rattle.std.specs.Prelude.{◌≡◌, ◌↔◌, Ok};
ghost use Rattle.dump_ports.specs.Tree.{Tree};
ghost use Rattle.cat_rows.specs.declared.catalogue.Catalogue.{Catalogue};
ghost use Rattle.folder_io.specs.Folders.{Bytes, catalogue_of, catalogue_rows, StandsFor};
ghost use Rattle.folder_io.specs.Examples.{Names, Markers, Rows, EmptyExportReads};

/// Reading is due to give a catalogue exactly where the folder stands for it: the marker is there, and each table's
/// file holds a text within the limit that reads as the rows of the table. And the rows determine the catalogue.
pub fn folders_stand_for_one_catalogue()
    ensures read { (folder : Bytes) (tree : Tree) (cat : Catalogue)
        → (catalogue_of folder tree ≡ Ok (catalogue_rows cat)) ↔ StandsFor folder tree cat }
    ensures one { (cat other : Catalogue) → catalogue_rows cat ≡ catalogue_rows other → cat ≡ other }
{}

/// Worked examples, computed from the definitions.
pub fn worked_examples()
    ensures names { Names }
    ensures markers { Markers }
    ensures rows { Rows }
    ensures empty_export { EmptyExportReads }
{}
