//! Laws of the definitions, each the contract of a function that does nothing.
ghost use Rattle.std.specs.Prelude.{◌≡◌, ◌++◌, true, false, List, map, Ok};
ghost use Rattle.std.specs.List.{AllByRecursion, flat_map};
ghost use Rattle.std.specs.List.Sorted.{IsPermutation};
ghost use Rattle.std.specs.Str.{IsUtf8};
ghost use Rattle.cat_model.specs.Values.{Bytes};
ghost use Rattle.cat_rows.specs.declared.roles.AuthidRow.{AuthidRow};
ghost use Rattle.cat_rows.specs.declared.roles.DatabaseRow.{DatabaseRow};
ghost use Rattle.cat_rows.specs.declared.schemas.NamespaceRow.{NamespaceRow};
ghost use Rattle.ddl_scripts.specs.Spellings.{said};
ghost use Rattle.ddl_scripts.specs.declared.located.Located.{Located};
ghost use Rattle.ddl_scripts.specs.Reading.{statements_of};
ghost use Rattle.dump_script_laws.specs.Statements.{Texts, HaveTexts};
ghost use Rattle.dump_toc.specs.Toc.{toc};
ghost use Rattle.fmt_text.specs.Script.{script};
ghost use Rattle.obj_graph.specs.Closed.{whole};
ghost use Rattle.script_laws.specs.Scripts.{AllEntries, session_statements};
ghost use Rattle.stmt_laws.specs.Named.{HoldsCells};
ghost use Rattle.toc_entry.specs.declared.entry.Entry.{Entry};
ghost use Rattle.toc_entry.specs.declared.head.Head.{Head};
ghost use Rattle.toc_laws.specs.Dumps.{entries_in};
ghost use Rattle.well_formed.specs.Formed.{IsWellFormed};
ghost use Rattle.schema_dumps.specs.Alone.{alone, AreOwned, schema_said};

use dep_sort::laws::orders_are_whole;
use dump_script_laws::laws::scripts_of_well_formed_catalogues_say_what_rows_tell;

/// The script of a dump of schemas alone reads as the statements that prepare the session, and then, schema by schema in the
/// order of the dump, which leaves none out and has none twice, as those that make it and give it to its owner.
pub fn dumps_of_schemas_say_their_schemas()
    ensures { (roles : List AuthidRow) (databases : List DatabaseRow) (schemas : List NamespaceRow) (role : Bytes) (head : Head) (entries : AllEntries) (texts : Texts)
        → HoldsCells (alone roles databases schemas) → IsWellFormed (alone roles databases schemas) → AreOwned role roles schemas
        → toc (alone roles databases schemas) whole ≡ Ok (entries_in entries) → HaveTexts texts entries → IsUtf8 head.server → IsUtf8 head.dumper
        → (names : List Bytes) × IsPermutation (map (λ row. row.nspname) schemas) names
        × (found : List Located) × (statements_of (script head entries true) ≡ Ok found)
        × (said found ≡ session_statements ++ flat_map (schema_said role) names) }
{
    scripts_of_well_formed_catalogues_say_what_rows_tell();
    orders_are_whole();
}

/// No entry of a dump of schemas alone has rows.
pub fn dumps_of_schemas_have_no_rows()
    ensures { (roles : List AuthidRow) (databases : List DatabaseRow) (schemas : List NamespaceRow) (entries : List Entry)
        → toc (alone roles databases schemas) whole ≡ Ok entries → AllByRecursion (λ e. e.has_rows ≡ false) entries }
{
    orders_are_whole();
}
