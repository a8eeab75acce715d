//! Laws of the definitions, each the contract of a function that does nothing.
ghost use Rattle.std.specs.Prelude.{◌≡◌, ℕ, true, List, [], ◌∷◌, Option, Some, None, Ok, Err, slice_get};
ghost use Rattle.dump_ports.specs.Tree.{Tree, text_at};
ghost use Rattle.toc_entry.specs.declared.entry.Entry.{Entry};
ghost use Rattle.toc_table.specs.Ids.{is_among};
ghost use Rattle.toc_table.specs.Tables.{ids_with_rows};
ghost use Rattle.entry_choices.specs.declared.options.Options.{Options};
ghost use Rattle.fmt_directory.specs.Directories.{Directory, directory_in, rows_name};
ghost use Rattle.restore_texts.specs.declared.asked.ArchiveFormat.{ArchiveFormat};
ghost use Rattle.restore_texts.specs.declared.asked.Wish.TheVariants as wish;
ghost use Rattle.restore_texts.specs.declared.fault.TextFault.TheVariants as faults;
ghost use Rattle.restore_texts.specs.Texts.{archive_due, places_due, in_directory};
ghost use Rattle.restore_input.specs.Inputs.{input_due, directory_input_due};
ghost use Rattle.restore_input.specs.Laws.{fault_of};

/// A restore reads of an archive what its script is made of: where the one can't be read the other can't, by the same fault.
pub fn restores_read_what_scripts_read()
    ensures { (o : Options) (list : Option (List ℕ)) (f : Option ArchiveFormat) (tree : Tree) (path : List ℕ)
        → fault_of (input_due o list f tree path) ≡ fault_of (archive_due wish.Script o list f tree path) }
{}

/// Where the first entry that a restore takes of a directory archive has rows, and their file is absent, it is missing.
pub fn absent_file_is_missing()
    ensures { (o : Options) (list : Option (List ℕ)) (tree : Tree) (folder : List ℕ) (d : Directory) (i : ℕ) (places : List ℕ) (e : Entry)
        → in_directory (directory_in folder tree) ≡ Ok d → places_due o d.entries list tree ≡ Ok (i ∷ places) → slice_get d.entries i ≡ Some e
        → is_among (ids_with_rows [] d.entries) e.dump_id ≡ true → text_at tree (rows_name d.folder e.dump_id) ≡ None
        → directory_input_due o list tree folder ≡ Err (faults.Missing (rows_name d.folder e.dump_id)) }
{}
