//! Laws of the definitions, each the contract of a function that does nothing.
ghost use Rattle.std.specs.Prelude.{◌≡◌, ◌<◌, ◌≤◌, ◌^◌, ℕ, List, map, length, false, Option, None, Some, Ok};
ghost use Rattle.toc_layout.specs.Heads.{head_seen};
ghost use Rattle.dump_archives.specs.Customs.{custom_written};
ghost use Rattle.restore_texts.specs.declared.asked.Wish.TheVariants as wish;
ghost use Rattle.restore_texts.specs.declared.asked.ArchiveFormat.{ArchiveFormat};
ghost use Rattle.restore_texts.specs.Texts.{custom_due, is_directory, archive_due};
ghost use Rattle.dump_ports.specs.Tree.{Tree, text_at};
ghost use Rattle.toc_entry.specs.declared.entry.Entry.{Entry};
ghost use Rattle.toc_entry.specs.declared.head.Head.{Head};
ghost use Rattle.entry_choices.specs.declared.options.Options.{Options};
ghost use Rattle.entry_choices.specs.Choices.{wanted_places};
ghost use Rattle.fmt_custom.specs.Customs.{Custom};
ghost use Rattle.archive_scripts.specs.Scripts.{custom_rows, custom_script};
ghost use Rattle.dump_files.specs.declared.file.DataFile.{DataFile};
ghost use Rattle.dump_plain.specs.Dumps.{plain_out};
ghost use Rattle.archive_laws.specs.Restored.{bare, RowsAre, LeavesNone, HasVersions, IsRestorable};

/// What pg_restore writes as a script of a custom archive is the plain dump of the same entries and rows, wherever the archive
/// tells that its rows are.
pub fn archives_are_scripted()
    ensures script { (tree : Tree) (custom : Custom) (plain : Head) (entries : List Entry) (needed : List DataFile) (o : Options)
        → map bare custom.entries ≡ map bare entries → RowsAre tree (custom_rows custom) custom.entries needed → HasVersions plain custom.head → LeavesNone o custom.entries
        → custom_script o.owners custom (wanted_places o custom.entries) ≡ (plain_out tree plain o.owners entries needed).text }
    ensures chosen_alike { (o : Options) (entries others : List Entry) → map bare others ≡ map bare entries → wanted_places o others ≡ wanted_places o entries }
{}

/// What pg_restore writes as a script of a dump in the custom format that was written to standard output is the plain dump.
pub fn dumps_to_output_are_restored()
    ensures { (tree now : Tree) (head plain : Head) (entries : List Entry) (needed : List DataFile) (o : Options) → IsRestorable tree head entries needed o → HasVersions plain (head_seen head) → head.format ≡ 1
        → custom_due wish.Script o None now (custom_written tree None head entries needed) ≡ Ok (plain_out tree plain o.owners entries needed).text }
{}

/// The same of one that was written to a file, whose entries tell the places of their blocks.
pub fn dumps_to_files_are_restored()
    ensures { (tree now : Tree) (name : List ℕ) (head plain : Head) (entries : List Entry) (needed : List DataFile) (o : Options) → IsRestorable tree head entries needed o → HasVersions plain (head_seen head) → head.format ≡ 1
        → length (custom_written tree (Some name) head entries needed) < 2 ^ 64
        → custom_due wish.Script o None now (custom_written tree (Some name) head entries needed) ≡ Ok (plain_out tree plain o.owners entries needed).text }
{}

/// The same of either one where it stands in a file that pg_restore is called with, and that isn't taken for a folder.
pub fn dumps_at_paths_are_restored()
    ensures { (tree now : Tree) (target : Option (List ℕ)) (path : List ℕ) (format : Option ArchiveFormat) (head plain : Head) (entries : List Entry) (needed : List DataFile) (o : Options) → IsRestorable tree head entries needed o → HasVersions plain (head_seen head) → head.format ≡ 1
        → text_at now path ≡ Some (custom_written tree target head entries needed) → length (custom_written tree target head entries needed) ≤ 268435456 → is_directory format path now ≡ false
        → archive_due wish.Script o None format now path ≡ Ok (plain_out tree plain o.owners entries needed).text }
{}
