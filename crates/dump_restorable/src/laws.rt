//! Laws of the definitions, each the contract of a function that does nothing.
ghost use Rattle.std.specs.Prelude.{◌≡◌, ◌<◌, ◌≤◌, ◌^◌, ℕ, Bool, true, List, length, Option, None, Some, Ok};
ghost use Rattle.cat_model.specs.Values.{Bytes};
ghost use Rattle.cat_rows.specs.declared.catalogue.Catalogue.{Catalogue};
ghost use Rattle.obj_graph.specs.declared.select.Select.{Select};
ghost use Rattle.dump_ports.specs.Tree.{Tree};
ghost use Rattle.toc_entry.specs.declared.head.Head.{Head};
ghost use Rattle.toc_layout.specs.Heads.{head_seen};
ghost use Rattle.fmt_directory.specs.Directories.{is_directory};
ghost use Rattle.dump_files.specs.Outlets.{outside};
ghost use Rattle.dump_plain.specs.Dumps.{plain_out};
ghost use Rattle.dump_archives.specs.Customs.{custom_written};
ghost use Rattle.dump_directory.specs.Files.{saved};
ghost use Rattle.dump_directory.specs.Directories.{directory_out};
ghost use Rattle.dump_plans.specs.Plans.{Dumping};
ghost use Rattle.restore_texts.specs.declared.asked.Wish.TheVariants as wish;
ghost use Rattle.restore_texts.specs.Texts.{custom_due, archive_due};
ghost use Rattle.archive_laws.specs.Restored.{HasVersions, IsRestorable};
ghost use Rattle.directory_laws.specs.Stored.{size_of};
ghost use Rattle.dump_restorable.specs.Dumped.{all_taken, IsDumped};

use archive_laws::{dumps_to_files_are_restored, dumps_to_output_are_restored};
use directory_laws::dumps_to_folders_are_restored;

/// The entries and data files of a dump of a folder, whatever is chosen of it, are such that pg_restore makes the plain dump of
/// their archive, where it leaves none of them out.
pub fn dumps_of_folders_are_restorable()
    ensures { (folder : Bytes) (select : Select) (cat : Catalogue) (tree : Tree) (head : Head) (dumping : Dumping) (owners : Bool)
        → IsDumped folder select cat tree head dumping → IsRestorable tree head dumping.entries dumping.files (all_taken owners) }
{}

/// So what pg_restore writes as a script of a dump of a folder is the plain dump of that folder: of one in the custom format
/// that was written to standard output or to a file, and of one in the directory format, written into a folder.
pub fn scripts_of_dumps_are_plain_dumps()
    ensures output { (folder : Bytes) (select : Select) (cat : Catalogue) (tree now : Tree) (head plain : Head) (dumping : Dumping) (owners : Bool)
        → IsDumped folder select cat tree head dumping → HasVersions plain (head_seen head) → head.format ≡ 1
        → custom_due wish.Script (all_taken owners) None now (custom_written tree None head dumping.entries dumping.files) ≡ Ok (plain_out tree plain owners dumping.entries dumping.files).text }
    ensures file { (folder : Bytes) (select : Select) (cat : Catalogue) (tree now : Tree) (head plain : Head) (dumping : Dumping) (owners : Bool) (name : List ℕ)
        → IsDumped folder select cat tree head dumping → HasVersions plain (head_seen head) → head.format ≡ 1
        → length (custom_written tree (Some name) head dumping.entries dumping.files) < 2 ^ 64
        → custom_due wish.Script (all_taken owners) None now (custom_written tree (Some name) head dumping.entries dumping.files) ≡ Ok (plain_out tree plain owners dumping.entries dumping.files).text }
    ensures folder { (folder : Bytes) (select : Select) (cat : Catalogue) (tree before now : Tree) (head plain : Head) (dumping : Dumping) (owners : Bool) (written : Option (List ℕ)) (target : List ℕ)
        → IsDumped folder select cat tree head dumping → HasVersions plain (head_seen head) → is_directory head.format ≡ true
        → (saved (directory_out tree target head dumping.entries dumping.files).files (outside (Some before) written)).tree ≡ Some now
        → size_of (directory_out tree target head dumping.entries dumping.files).files ≤ 268435456
        → archive_due wish.Script (all_taken owners) None None now target ≡ Ok (plain_out tree plain owners dumping.entries dumping.files).text }
{
    dumps_of_folders_are_restorable();
    dumps_to_output_are_restored();
    dumps_to_files_are_restored();
    dumps_to_folders_are_restored();
}
