//! Laws of the definitions, each the contract of a function that does nothing.
ghost use Rattle.std.specs.Prelude.{◌≡◌, List, [], ◌∷◌, Some, Ok, Err, codes};
ghost use Rattle.dump_ports.specs.Tree.{Tree};
ghost use Rattle.cat_model.specs.Values.{Bytes};
ghost use Rattle.cat_rows.specs.declared.catalogue.Catalogue.{Catalogue};
ghost use Rattle.obj_graph.specs.declared.select.Select.{Select};
ghost use Rattle.command_line.specs.declared.usage.UsageKind.TheVariants.{BadValue, MissingOption};
ghost use Rattle.command_line.specs.declared.values.Format.TheVariants as format;
ghost use Rattle.tool_words.specs.declared.outcome.Outcome.TheVariants.{Usage};
ghost use Rattle.tool_words.specs.declared.words.Asked.{Asked};
ghost use Rattle.tool_words.specs.declared.words.DumpAsked.{DumpAsked};
ghost use Rattle.tool_words.specs.Words.{words_asked};
ghost use Rattle.dump_outputs.specs.declared.form.DumpForm.{DumpForm};
ghost use Rattle.dump_outputs.specs.Forms.{IsClear};
ghost use Rattle.dump_plans.specs.Plans.{Dumping, dumping_of};
ghost use Rattle.dump_targets.specs.Targets.{IsOutside, IsFormOutside};

/// Words that read never ask for a dump into the folder that is dumped.
pub fn a_dump_is_written_outside_of_its_folder()
    ensures { (words : List Bytes) (asked : DumpAsked) → words_asked words ≡ Ok (Asked.Dump asked) → IsOutside asked.folder asked.target }
{}

/// Words that read never ask for an archive that is a folder without naming the folder: `pg_dump -Fd` without `-f`, or with the
/// name of standard output, is refused. <https://www.postgresql.org/docs/16/app-pgdump.html>
pub fn an_archive_that_is_a_folder_is_named()
    ensures named { (words : List Bytes) (asked : DumpAsked) → words_asked words ≡ Ok (Asked.Dump asked) → asked.format ≡ format.Directory → (name : Bytes) × (asked.target ≡ Some name) }
    ensures unnamed { words_asked (codes "pg_dump" ∷ codes "-Fd" ∷ codes "S" ∷ []) ≡ Err (Usage 3 MissingOption) }
    ensures printed { words_asked (codes "pg_dump" ∷ codes "-Fd" ∷ codes "-f" ∷ codes "-" ∷ codes "S" ∷ []) ≡ Err (Usage 2 BadValue) }
{}

/// What is written outside of a folder is none of its data files, and neither is a file of an archive in a folder.
pub fn what_is_outside_is_no_data_file()
    ensures { (folder : Bytes) (form : DumpForm) (select : Select) (cat : Catalogue) (tree : Tree) (dump : Dumping)
        → IsFormOutside folder form → dumping_of folder select cat tree ≡ Ok dump → IsClear form dump.files }
{}
