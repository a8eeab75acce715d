//! Laws of the definitions, each the contract of a function that does nothing.
ghost use Rattle.std.specs.Prelude.{◌≡◌, ◌≤◌, ℕ, List, true, Option, None, Some, Ok};
ghost use Rattle.toc_layout.specs.Heads.{head_seen};
ghost use Rattle.restore_texts.specs.declared.asked.Wish.TheVariants as wish;
ghost use Rattle.restore_texts.specs.declared.asked.ArchiveFormat.TheVariants as format;
ghost use Rattle.restore_texts.specs.Texts.{directory_due, archive_due};
ghost use Rattle.dump_ports.specs.Tree.{Tree};
ghost use Rattle.toc_entry.specs.declared.entry.Entry.{Entry};
ghost use Rattle.toc_entry.specs.declared.head.Head.{Head};
ghost use Rattle.entry_choices.specs.declared.options.Options.{Options};
ghost use Rattle.fmt_directory.specs.Directories.{is_directory};
ghost use Rattle.dump_files.specs.declared.file.DataFile.{DataFile};
ghost use Rattle.dump_files.specs.Outlets.{outside};
ghost use Rattle.dump_plain.specs.Dumps.{plain_out};
ghost use Rattle.dump_directory.specs.Files.{saved};
ghost use Rattle.dump_directory.specs.Directories.{directory_out};
ghost use Rattle.archive_laws.specs.Restored.{HasVersions, IsRestorable};
ghost use Rattle.directory_laws.specs.Stored.{AreStored, size_of};

/// What pg_restore writes as a script of a folder that holds the files of a dump in the directory format, of at most
/// 268,435,456 bytes together, is the plain dump of the same entries and rows.
pub fn folders_are_scripted()
    ensures whole { (tree : Tree) (folder : List ℕ) (head : Head) (entries : List Entry) (needed : List DataFile) (o : Options) → IsRestorable tree head entries needed o
        → (directory_out tree folder head entries needed).bad ≡ None }
    ensures script { (tree now : Tree) (folder : List ℕ) (head plain : Head) (entries : List Entry) (needed : List DataFile) (o : Options) → IsRestorable tree head entries needed o → HasVersions plain (head_seen head) → is_directory head.format ≡ true
        → AreStored now (directory_out tree folder head entries needed).files → size_of (directory_out tree folder head entries needed).files ≤ 268435456
        → directory_due wish.Script o None now folder ≡ Ok (plain_out tree plain o.owners entries needed).text }
{}

/// The same of the folder that such a dump was written into, whatever stood there before, where pg_restore is called with it:
/// it is taken for a folder whether the format is asked for or not.
pub fn dumps_to_folders_are_restored()
    ensures stored { (tree before now : Tree) (written : Option (List ℕ)) (folder : List ℕ) (head : Head) (entries : List Entry) (needed : List DataFile) (o : Options) → IsRestorable tree head entries needed o
        → (saved (directory_out tree folder head entries needed).files (outside (Some before) written)).tree ≡ Some now → AreStored now (directory_out tree folder head entries needed).files }
    ensures unasked { (tree before now : Tree) (written : Option (List ℕ)) (folder : List ℕ) (head plain : Head) (entries : List Entry) (needed : List DataFile) (o : Options) → IsRestorable tree head entries needed o → HasVersions plain (head_seen head) → is_directory head.format ≡ true
        → (saved (directory_out tree folder head entries needed).files (outside (Some before) written)).tree ≡ Some now → size_of (directory_out tree folder head entries needed).files ≤ 268435456
        → archive_due wish.Script o None None now folder ≡ Ok (plain_out tree plain o.owners entries needed).text }
    ensures asked { (tree before now : Tree) (written : Option (List ℕ)) (folder : List ℕ) (head plain : Head) (entries : List Entry) (needed : List DataFile) (o : Options) → IsRestorable tree head entries needed o → HasVersions plain (head_seen head) → is_directory head.format ≡ true
        → (saved (directory_out tree folder head entries needed).files (outside (Some before) written)).tree ≡ Some now → size_of (directory_out tree folder head entries needed).files ≤ 268435456
        → archive_due wish.Script o None (Some format.Directory) now folder ≡ Ok (plain_out tree plain o.owners entries needed).text }
{}
