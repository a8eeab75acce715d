//! Laws of the definitions, each the contract of a function that does nothing.
ghost use Rattle.std.specs.Prelude.{◌≡◌, ℕ, Ok};
ghost use Rattle.dump_ports.specs.Tree.{Tree};
ghost use Rattle.cat_rows.specs.declared.catalogue.Catalogue.{Catalogue};
ghost use Rattle.cat_names.specs.DataSets.{TextsByOid};
ghost use Rattle.folder_io.specs.Folders.{Bytes, bytes_of, catalogue_of};
ghost use Rattle.folder_rows.specs.Reading.{data_of};
ghost use Rattle.same_texts.specs.Alike.{HoldSame};

use folder_rows::laws::folders_hold_their_rows;

/// Folders that hold the same texts are read alike: their catalogues are the same, or the same fault is due, they have as
/// many bytes, and the rows that were read of the first are those of the second.
pub fn same_texts_are_read_alike()
    ensures catalogue { (first second : Bytes) (tree : Tree) (cat : Catalogue) (rows : TextsByOid) → HoldSame first second tree cat rows → catalogue_of second tree ≡ catalogue_of first tree }
    ensures bytes { (first second : Bytes) (tree : Tree) (cat : Catalogue) (rows : TextsByOid) → HoldSame first second tree cat rows → bytes_of second tree ≡ bytes_of first tree }
    ensures rows { (first second : Bytes) (tree : Tree) (cat : Catalogue) (rows : TextsByOid) (used : ℕ) → HoldSame first second tree cat rows → data_of first used cat tree ≡ Ok rows → data_of second used cat tree ≡ Ok rows }
{
    folders_hold_their_rows();
}
