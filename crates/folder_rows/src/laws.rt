//! Laws of the definitions, each the contract of a function that does nothing.
ghost use Rattle.std.specs.Prelude.{◌≡◌, ◌↔◌, ℕ, Ok};
ghost use Rattle.dump_ports.specs.Tree.{Tree};
ghost use Rattle.cat_rows.specs.declared.catalogue.Catalogue.{Catalogue};
ghost use Rattle.cat_names.specs.DataSets.{TextsByOid};
ghost use Rattle.folder_io.specs.Folders.{Bytes};
ghost use Rattle.folder_rows.specs.Reading.{data_of};
ghost use Rattle.folder_rows.specs.Holding.{HoldsRows};
ghost use Rattle.folder_rows.specs.Examples.{Examples};

/// Reading is due to give texts exactly where the folder holds them: each table's data file is there, the files are
/// within the limits, and the texts are those of the files.
pub fn folders_hold_their_rows()
    ensures { (folder : Bytes) (used : ℕ) (cat : Catalogue) (tree : Tree) (rows : TextsByOid)
        → (data_of folder used cat tree ≡ Ok rows) ↔ HoldsRows folder used cat tree rows }
{}

/// Worked examples, computed from the definitions.
pub fn worked_examples()
    ensures { Examples }
{}
