//! Laws of the definitions, each the contract of a function that does nothing.
ghost use Rattle.std.specs.Prelude.{◌≡◌, ◌↔◌, Ok};
ghost use Rattle.dump_ports.specs.Tree.{Tree};
ghost use Rattle.cat_model.specs.Values.{Bytes};
ghost use Rattle.folder_io.specs.Folders.{StandsFor};
ghost use Rattle.exports.specs.Exports.{Exported, export_of};
ghost use Rattle.exports.specs.Holding.{IsWhole};

use folder_io::laws::folders_stand_for_one_catalogue;
use folder_rows::laws::folders_hold_their_rows;

/// Where the tables of a folder stand for the catalogue of an export, reading is due to give this export exactly where
/// the catalogue is well-formed, and the data files are there and hold its rows.
pub fn exports_are_whole()
    ensures { (folder : Bytes) (tree : Tree) (export : Exported) → StandsFor folder tree export.cat
        → (export_of folder tree ≡ Ok export) ↔ IsWhole folder tree export }
{
    folders_stand_for_one_catalogue();
    folders_hold_their_rows();
}
