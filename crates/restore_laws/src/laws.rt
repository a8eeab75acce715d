//! Laws of the definitions, each the contract of a function that does nothing.
ghost use Rattle.std.specs.Prelude.{◌≡◌, ℕ, Bool, true, false, List, [], ◌∷◌, Option, Some, None, Ok, Err, length, map, slice_get, option_map};
ghost use Rattle.std.specs.Global.{Vec};
ghost use Rattle.std.specs.List.{filter, range_with_len};
ghost use Rattle.dump_ports.specs.Tree.{Tree, text_at};
ghost use Rattle.toc_entry.specs.declared.entry.Entry.{Entry};
ghost use Rattle.toc_entry.specs.declared.head.Head.{Head};
ghost use Rattle.toc_layout.specs.Heads.{head_seen};
ghost use Rattle.toc_table.specs.Ids.{is_among};
ghost use Rattle.toc_table.specs.Tables.{ids_with_rows};
ghost use Rattle.entry_choices.specs.declared.options.Options.{Options};
ghost use Rattle.entry_choices.specs.Choices.{wanted, wanted_places};
ghost use Rattle.entry_choices.specs.Examples.{plain};
ghost use Rattle.fmt_text.specs.Script.{script};
ghost use Rattle.fmt_custom.specs.Customs.{Custom};
ghost use Rattle.fmt_directory.specs.declared.fault.DirFault.TheVariants as faults;
ghost use Rattle.fmt_directory.specs.Directories.{Directory, rows_name};
ghost use Rattle.archive_scripts.specs.Scripts.{part_at, parts_at, custom_rows, custom_script};
ghost use Rattle.archive_scripts.specs.Directories.{directory_script};
ghost use Rattle.restore_laws.specs.Laws.{entries_with_rows};
ghost use Rattle.restore_laws.specs.Examples.{serial, schema_serial, data_script};

/// The script of entries of a custom archive is the plain script of these entries, each with its rows.
pub fn scripts_are_of_entries()
    ensures { (owners : Bool) (custom : Custom) (places : List ℕ) (head : Head) (entries : List (Entry × Option (Vec ℕ)))
        → head_seen head ≡ custom.head
        → map (λ e. (e.0, option_map (λ v. v.items) e.1)) entries ≡ entries_with_rows custom.entries (custom_rows custom) places
        → custom_script owners custom places ≡ script head entries owners }
{}

/// Entries that have no part of their own may be left out: those of the session and of the database.
pub fn entries_without_parts_may_go()
    ensures { (owners : Bool) (custom : Custom) (places : List ℕ) (p : ℕ → Bool)
        → ((i : ℕ) → p i ≡ false → part_at owners custom.entries (custom_rows custom) i ≡ [])
        → custom_script owners custom (filter p places) ≡ custom_script owners custom places }
{}

/// Where options refuse no entry but those that have no part of their own, as those of the database, the script of the
/// entries that a restore takes is the plain script of all entries.
pub fn whole_scripts_are_plain()
    ensures { (owners : Bool) (o : Options) (custom : Custom) (head : Head) (entries : List (Entry × Option (Vec ℕ)))
        → head_seen head ≡ custom.head
        → map (λ e. (e.0, option_map (λ v. v.items) e.1)) entries ≡ entries_with_rows custom.entries (custom_rows custom) (range_with_len 0 (length custom.entries))
        → ((i : ℕ) → wanted o custom.entries i ≡ false → part_at owners custom.entries (custom_rows custom) i ≡ [])
        → custom_script owners custom (wanted_places o custom.entries) ≡ script head entries owners }
{}

/// Where the file of the first entry with rows is absent, the script of a directory archive is missing it.
pub fn absent_file_is_missing()
    ensures { (owners : Bool) (d : Directory) (tree : Tree) (used i : ℕ) (places : List ℕ) (e : Entry)
        → slice_get d.entries i ≡ Some e → is_among (ids_with_rows [] d.entries) e.dump_id ≡ true → text_at tree (rows_name d.folder e.dump_id) ≡ None
        → directory_script owners d tree used (i ∷ places) ≡ Err (faults.Missing (rows_name d.folder e.dump_id)) }
{}

/// Worked examples, computed from the definitions: of the dump of a table with a serial column the script of the schema
/// alone, which is the script of a dump of the schema alone, and that of the data alone without owners.
pub fn worked_examples()
    ensures schema_only { custom_script true serial (wanted_places (record plain { schema_only = true }) serial.entries)
        ≡ custom_script true schema_serial (wanted_places plain schema_serial.entries) }
    ensures data_only { custom_script false serial (wanted_places (record plain { data_only = true; owners = false }) serial.entries) ≡ data_script }
{}
