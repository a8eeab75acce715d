//! Laws of the definitions, each the contract of a function that does nothing.
ghost use Rattle.std.specs.Prelude.{◌≡◌, ◌≤◌, Bool, true, false, List, map, length, [], Some, None, Ok, codes};
ghost use Rattle.std.specs.Str.{IsUtf8};
ghost use Rattle.std.specs.FinMap.{empty};
ghost use Rattle.dump_ports.specs.Tree.{Tree};
ghost use Rattle.dump_ports.specs.declared.moment.Moment.{Moment};
ghost use Rattle.cat_model.specs.Values.{Bytes};
ghost use Rattle.dump_toc.specs.Toc.{toc};
ghost use Rattle.fmt_text.specs.Script.{script};
ghost use Rattle.obj_graph.specs.Closed.{whole};
ghost use Rattle.schema_folders.specs.declared.schemas.SchemaRow.{SchemaRow};
ghost use Rattle.dump_tools.specs.Due.{Application, Applies, psql_due, compare_due};
ghost use Rattle.openings.specs.Openings.{export_named};
ghost use Rattle.dump_tools.specs.Outputs.{World, all_performed};
ghost use Rattle.dump_tools.specs.Inputs.{where_read};
ghost use Rattle.dump_tools.specs.Runs.{Run, run_of, IsApplied, MayCome, MayRun};
ghost use Rattle.tool_words.specs.declared.outcome.Outcome.TheVariants.{Done};
ghost use Rattle.tool_words.specs.Words.{is_input};
ghost use Rattle.tool_words.specs.declared.words.ScriptSource.{ScriptSource};
ghost use Rattle.tool_words.specs.declared.words.Teller.{Teller};
ghost use Rattle.cat_rows.specs.declared.table.SysTable.TheVariants.{PgNamespace};
ghost use Rattle.cat_rows.specs.Reading.{table_of};
ghost use Rattle.well_formed.specs.Catalogues.{catalogue_fault};
ghost use Rattle.exports.specs.Exports.{export_of};
ghost use Rattle.folder_io.specs.Folders.{table_limit};
ghost use Rattle.schema_folders.specs.Folder.{opening_of, cells_of_row, schemas_alone, folder_saved};
ghost use Rattle.schema_folders.specs.Naming.{boot, named};
ghost use Rattle.schema_folders.specs.Run.{catalogue_after};
ghost use Rattle.tool_laws.specs.Opening.{AreSchemas, WereRead};
ghost use Rattle.toc_entry.specs.declared.entry.Entry.{Entry};
ghost use Rattle.toc_entry.specs.declared.head.Head.{Head};
ghost use Rattle.tool_laws.specs.RoundTrip.{without_rows, Remakes, GoesBack, MakesSame, Restores, fresh_rows};

use cat_rows::laws::read_rows_can_be_written;
use dump_tools::laws::an_applied_script_leaves_its_folder;
use exports::laws::exports_are_whole;
use output_laws::laws::a_plain_dump_is_a_script;
use schema_dumps::laws::{dumps_of_schemas_have_no_rows, dumps_of_schemas_say_their_schemas};
use well_formed::laws::{well_formed_is_without_fault, well_formed_tables_are_all};

/// The schemas of a folder that is read as an opening have oids and names that aren't the system's own, no two the same,
/// and `public` is among them.
pub fn openings_are_schemas()
    ensures { (folder : Bytes) (tree : Tree) (rows : List SchemaRow) → opening_of folder tree ≡ Ok rows → WereRead rows }
{
    well_formed_is_without_fault();
    read_rows_can_be_written();
}

/// A catalogue whose only objects are such schemas is well-formed.
pub fn catalogues_of_schemas_are_well_formed()
    ensures { (rows : List SchemaRow) → AreSchemas rows → catalogue_fault (schemas_alone rows) ≡ None }
{
    well_formed_tables_are_all();
}

/// The script of a dump of all of a folder whose only objects are schemas, with its owners, whatever its head: read by psql and
/// applied to a fresh folder it leaves these schemas laid over what was there, and no statement is refused.
pub fn the_dumped_script_makes_the_schemas()
    ensures { (source : Bytes) (tree : Tree) (rows : List SchemaRow) (head : Head) (entries : List Entry) → opening_of source tree ≡ Ok rows
        → toc (schemas_alone rows) whole ≡ Ok entries → IsUtf8 head.server → IsUtf8 head.dumper → Remakes (script head (without_rows entries) true) rows }
{
    openings_are_schemas();
    catalogues_of_schemas_are_well_formed();
    well_formed_is_without_fault();
    read_rows_can_be_written();
    dumps_of_schemas_say_their_schemas();
    dumps_of_schemas_have_no_rows();
}

/// What pg_catcmp takes a folder of schemas to stand for, by all its tables, is what psql and pg_dump take its schemas to
/// stand for.
pub fn folders_of_schemas_have_one_meaning()
    ensures { (rows : List SchemaRow) → export_named (record { cat = schemas_alone rows; rows = empty }) ≡ named rows }
{}

/// What psql leaves of a folder is well-formed, whatever oids were drawn, and stands for what the statements make of the
/// catalogue by names; and it is read as an export, by every tool, and as an opening by psql and pg_dump, where the file
/// of pg_namespace is within the limit of a table's file.
pub fn psql_leaves_an_export()
    ensures formed { (folder : Bytes) (script : ScriptSource) (stop : Bool) (tree : Tree) (input : Bytes) (plan : Application) (run : Run) (applied : IsApplied plan run)
        → psql_due folder script stop tree input ≡ Ok (Applies plan)
        → catalogue_fault (schemas_alone applied.comes.rows) ≡ None }
    ensures named { (plan : Application) (run : Run) (applied : IsApplied plan run)
        → export_named (record { cat = schemas_alone applied.comes.rows; rows = empty }) ≡ catalogue_after boot plan.statements (named plan.rows) }
    ensures read { (folder : Bytes) (script : ScriptSource) (stop : Bool) (tree : Tree) (input : Bytes) (plan : Application) (run : Run) (applied : IsApplied plan run) (after : Tree)
        → psql_due folder script stop tree input ≡ Ok (Applies plan)
        → length applied.text ≤ table_limit
        → export_of plan.folder (folder_saved plan.folder applied.text after) ≡ Ok (record { cat = schemas_alone applied.comes.rows; rows = empty }) }
    ensures opened { (folder : Bytes) (script : ScriptSource) (stop : Bool) (tree : Tree) (input : Bytes) (plan : Application) (run : Run) (applied : IsApplied plan run) (after : Tree)
        → psql_due folder script stop tree input ≡ Ok (Applies plan)
        → length applied.text ≤ table_limit
        → opening_of plan.folder (folder_saved plan.folder applied.text after) ≡ Ok applied.comes.rows }
{
    openings_are_schemas();
    catalogues_of_schemas_are_well_formed();
    folders_of_schemas_have_one_meaning();
    exports_are_whole();
}

/// Two folders whose schemas are the same by names are the same to pg_catcmp: each run that may come is done and puts out
/// nothing.
pub fn pg_catcmp_finds_the_same_schemas_the_same()
    ensures { (source target : Bytes) (tree : Tree) (rows others : List SchemaRow) → opening_of source tree ≡ Ok rows → opening_of target tree ≡ Ok others → named others ≡ named rows
        → (teller : Teller) (run : Run) → MayCome teller (compare_due source target tree) run → run ≡ run_of [] Done }
{}

/// What pg_dump writes of all of a folder of schemas as a script, to standard output or to a file, psql applies to a folder
/// whose one schema is public, from a file or from standard input: nothing is refused, and each run that may come of it is done
/// and leaves the folder standing for the same catalogue by names, with nothing told.
pub fn psql_restores_what_pg_dump_prints()
    ensures due { (source : Bytes) (moment : Moment) (first : Tree) (rows : List SchemaRow) (target : Bytes) (script : ScriptSource) (second : Tree) (input : Bytes)
        → GoesBack source moment first rows target script second input
        → MakesSame (psql_due target script false second input) rows }
    ensures done { (source : Bytes) (moment : Moment) (first : Tree) (rows : List SchemaRow) (target : Bytes) (script : ScriptSource) (second : Tree) (input : Bytes) (teller : Teller) (run : Run) (before : World)
        → GoesBack source moment first rows target script second input
        → before.tree ≡ Some second
        → MayRun (where_read (is_input script) input) teller (psql_due target script false second input) run
        → (run.answer ≡ Done) × Restores target rows (where_read (is_input script) input) before (all_performed run.outputs before) }
{
    the_dumped_script_makes_the_schemas();
    openings_are_schemas();
    an_applied_script_leaves_its_folder();
    a_plain_dump_is_a_script();
    dumps_of_schemas_have_no_rows();
}

/// The line of `pg_namespace` in the empty export stands for the one schema of a fresh folder.
pub fn the_empty_export_holds_public()
    ensures { table_of PgNamespace (codes "2200\tpublic\t10\t\\N\n") ≡ Ok (map cells_of_row fresh_rows) }
{}
