//! Laws of the definitions, each the contract of a function that does nothing.
ghost use Rattle.std.specs.Prelude.{◌≡◌, Bool, List, Ok};
ghost use Rattle.std.specs.Str.{IsUtf8};
ghost use Rattle.cat_model.specs.Values.{Bytes};
ghost use Rattle.cat_rows.specs.declared.catalogue.Catalogue.{Catalogue};
ghost use Rattle.ddl_laws.specs.Spellings.{said};
ghost use Rattle.ddl_laws.specs.located.Located.{Located};
ghost use Rattle.ddl_laws.specs.Reading.{statements_of};
ghost use Rattle.dep_sort.specs.Ordering.{Sorted, due};
ghost use Rattle.dump_toc.specs.Toc.{toc};
ghost use Rattle.dump_ports.specs.Tree.{Tree};
ghost use Rattle.fmt_text.specs.Script.{script};
ghost use Rattle.folder_io.specs.Folders.{StandsFor};
ghost use Rattle.obj_graph.specs.declared.select.Select.{Select};
ghost use Rattle.obj_graph.specs.Graphs.{graph_of};
ghost use Rattle.script_laws.specs.Scripts.{AllEntries, script_statements};
ghost use Rattle.stmt_laws.specs.Named.{HoldsCells};
ghost use Rattle.toc_entry.specs.declared.entry.Entry.{Entry};
ghost use Rattle.toc_entry.specs.declared.head.Head.{Head};
ghost use Rattle.toc_laws.specs.Dumps.{IsDump, HaveRows, entries_in};
ghost use Rattle.well_formed.specs.Formed.{IsWellFormed};
ghost use Rattle.dump_script_laws.specs.Behind.{AreBehind};
ghost use Rattle.dump_script_laws.specs.Statements.{Texts, HaveTexts, dump_statements};

use cat_rows::laws::read_rows_can_be_written;
use copy_text::laws::tests_are_exact;
use ddl_laws::laws::{laid_out_statements_are_read, what_can_be_written_is_spelled};
use dep_sort::laws::needs_stand_before;
use grant_laws::laws::grants_can_be_written;
use text_laws::laws::texts_of_rows_can_be_written;
use toc_laws::laws::scripts_of_dumps_read_as_their_statements;

/// The rows of a catalogue that a folder holds are such as tables hold.
pub fn rows_of_folders_are_such_as_tables_hold()
    ensures { (folder : Bytes) (tree : Tree) (cat : Catalogue) → StandsFor folder tree cat → HoldsCells cat }
{
    read_rows_can_be_written();
}

/// What is chosen of a well-formed catalogue, whose rows are such as tables hold, can be dumped: each object of the dump has
/// names that are names, a role for its owner, and rights such as its kind has.
pub fn well_formed_catalogues_can_be_dumped()
    ensures { (cat : Catalogue) (select : Select) (order : Sorted) → HoldsCells cat → IsWellFormed cat
        → due (graph_of cat select) ≡ Ok order → IsDump cat order }
{}

/// The script of a dump of a well-formed catalogue reads as the statements that prepare the session, and then those of its
/// entries in order, and as no others.
pub fn scripts_of_well_formed_catalogues_read()
    ensures { (cat : Catalogue) (select : Select) (head : Head) (entries : AllEntries) (owners : Bool)
        → HoldsCells cat → IsWellFormed cat → toc cat select ≡ Ok (entries_in entries) → HaveRows entries
        → IsUtf8 head.server → IsUtf8 head.dumper
        → (found : List Located) × (statements_of (script head entries owners) ≡ Ok found)
        × (said found ≡ script_statements owners entries) }
{
    scripts_of_dumps_read_as_their_statements();
}

/// And these statements are told by the rows of the catalogue: object by object in the order of the dump the statement that
/// makes it, COPY with its table's rows, its owner's, the column that owns a sequence, and its comments; and at the end the
/// grants. A view on a loop is made as a dummy, and the rule behind the data replaces it by the view itself.
pub fn scripts_of_well_formed_catalogues_say_what_rows_tell()
    ensures { (cat : Catalogue) (select : Select) (head : Head) (entries : AllEntries) (owners : Bool) (texts : Texts)
        → HoldsCells cat → IsWellFormed cat → toc cat select ≡ Ok (entries_in entries) → HaveTexts texts entries
        → IsUtf8 head.server → IsUtf8 head.dumper
        → (order : Sorted) × (due (graph_of cat select) ≡ Ok order)
        × (found : List Located) × (statements_of (script head entries owners) ≡ Ok found)
        × (said found ≡ dump_statements owners cat select texts order) }
{
    scripts_of_well_formed_catalogues_read();
    laid_out_statements_are_read();
    texts_of_rows_can_be_written();
    grants_can_be_written();
    what_can_be_written_is_spelled();
    tests_are_exact();
}

/// Whatever an entry of a dump lists as what it needs stands before it, of any catalogue and any selection.
pub fn entries_stand_behind_what_they_need()
    ensures { (cat : Catalogue) (select : Select) (entries : List Entry) → toc cat select ≡ Ok entries → AreBehind entries }
{
    needs_stand_before();
}
