//! Laws of the definitions, each the contract of a function that does nothing.
ghost use Rattle.std.specs.Prelude.{◌≡◌, ℕ, [], ◌∷◌, ◌++◌, Bool, true, false, List, Option, Some, Ok, map};
ghost use Rattle.std.specs.Option.{option_to_list};
ghost use Rattle.std.specs.Str.{IsUtf8};
ghost use Rattle.cat_model.specs.declared.grant.Granted.{Granted};
ghost use Rattle.cat_model.specs.declared.object.QName.{QName};
ghost use Rattle.cat_model.specs.declared.stmt.Stmt.{Stmt};
ghost use Rattle.cat_model.specs.declared.stmt.Stmt.TheVariants as stmt;
ghost use Rattle.cat_model.specs.Values.{Bytes};
ghost use Rattle.cat_rows.specs.declared.catalogue.Catalogue.{Catalogue};
ghost use Rattle.ddl_laws.specs.located.Located.{Located};
ghost use Rattle.ddl_laws.specs.Reading.{statements_of};
ghost use Rattle.ddl_laws.specs.Respelling.{IsWritable, AllWritable};
ghost use Rattle.ddl_laws.specs.Spellings.{said};
ghost use Rattle.ddl_laws.specs.Rows.{AreRows};
ghost use Rattle.dep_sort.specs.Ordering.{Sorted};
ghost use Rattle.dump_rows.specs.Rows.{columns_of};
ghost use Rattle.dump_stmts.specs.Paths.{path_of, written};
ghost use Rattle.dump_stmts.specs.Sequences.{owned_stmt};
ghost use Rattle.dump_stmts.specs.Stmts.{stmt_of};
ghost use Rattle.dump_toc.specs.Comments.{Remark, remark_draft};
ghost use Rattle.dump_toc.specs.Drafts.{object_draft, owned_with};
ghost use Rattle.dump_toc.specs.Numbers.{entry_of};
ghost use Rattle.dump_toc.specs.Rights.{grants_draft};
ghost use Rattle.dump_toc.specs.Toc.{toc_of};
ghost use Rattle.graph_parts.specs.declared.object.Obj.{Obj};
ghost use Rattle.fmt_text.specs.Script.{script};
ghost use Rattle.obj_graph.specs.declared.select.Select.{Select};
ghost use Rattle.toc_entry.specs.declared.head.Head.{Head};
ghost use Rattle.script_laws.specs.Scripts.{AllEntries, owner_statements, entry_statements, script_statements};
ghost use Rattle.toc_laws.specs.Dumps.{is_data, IsDumpable, IsDump, ended, HaveRows, entries_in};
ghost use Rattle.stmt_laws.specs.Named.{HoldsCells};
ghost use Rattle.toc_laws.specs.Serial.{Serial};

use ddl_laws::laws::{laid_out_statements_are_read, what_can_be_written_is_spelled};
use grant_laws::laws::grants_can_be_written;
use script_laws::laws::scripts_read_as_their_statements;
use text_laws::laws::texts_of_rows_can_be_written;

/// A worked example: the entries of a table whose column takes its values from the sequence that it owns.
pub fn serial_meets_the_example()
    ensures { Serial }
{}

/// The script of a dump reads as the statements that prepare the session, and then those of its entries in order, and as no
/// others.
pub fn scripts_of_dumps_read_as_their_statements()
    ensures { (cat : Catalogue) (select : Select) (order : Sorted) (head : Head) (entries : AllEntries) (owners : Bool)
        → IsDump cat order → entries_in entries ≡ toc_of cat select order → HaveRows entries
        → IsUtf8 head.server → IsUtf8 head.dumper
        → (found : List Located) × (statements_of (script head entries owners) ≡ Ok found)
        × (said found ≡ script_statements owners entries) }
{
    scripts_read_as_their_statements();
    texts_of_rows_can_be_written();
    grants_can_be_written();
    what_can_be_written_is_spelled();
}

/// What each entry says, whatever its number is: the statement that makes its object, and the one that gives it to its owner;
/// COPY with the rows of a table; the column that owns a sequence; a comment; and grants.
pub fn entries_say_their_statements()
    ensures objects { (cat : Catalogue) (standing : List ℕ) (o : Obj) (needs : List ℕ) (ids : List (Option ℕ)) (id : ℕ) (owners : Bool) (rows : Option Bytes)
        → HoldsCells cat → IsDumpable cat o → is_data o.kind ≡ false
        → entry_statements owners (entry_of ids id (object_draft cat standing o needs)) rows
        ≡ option_to_list (stmt_of cat standing o) ++ owner_statements owners (entry_of ids id (object_draft cat standing o needs)) }
    ensures rows { (cat : Catalogue) (standing : List ℕ) (o : Obj) (needs : List ℕ) (ids : List (Option ℕ)) (id : ℕ) (owners : Bool) (q : QName) (r : Bytes)
        → HoldsCells cat → IsDumpable cat o → is_data o.kind ≡ true → path_of o ≡ Some q → AreRows r
        → entry_statements owners (entry_of ids id (object_draft cat standing o needs)) (Some (ended r))
        ≡ stmt.CopyRows q (map (λ a. a.attname) (columns_of cat o.id.oid)) r ∷ [] }
    ensures columns { (cat : Catalogue) (objects : List Obj) (o : Obj) (needs : List ℕ) (place : ℕ) (s : Stmt) (ids : List (Option ℕ)) (id : ℕ) (owners : Bool) (rows : Option Bytes)
        → HoldsCells cat → IsDumpable cat o → owned_stmt cat o ≡ Some s
        → entry_statements owners (entry_of ids id (owned_with cat objects o needs place (written (Some s)))) rows ≡ s ∷ [] }
    ensures comments { (cat : Catalogue) (o : Obj) (place : ℕ) (r : Remark) (ids : List (Option ℕ)) (id : ℕ) (owners : Bool) (rows : Option Bytes)
        → IsWritable (stmt.Comment r.0 (Some r.1))
        → entry_statements owners (entry_of ids id (remark_draft cat o place r)) rows ≡ stmt.Comment r.0 (Some r.1) ∷ [] }
    ensures grants { (cat : Catalogue) (o : Obj) (place : ℕ) (what : Granted) (statements : List Stmt) (ids : List (Option ℕ)) (id : ℕ) (owners : Bool) (rows : Option Bytes)
        → AllWritable statements
        → entry_statements owners (entry_of ids id (grants_draft cat o place what statements)) rows ≡ statements }
{
    laid_out_statements_are_read();
    texts_of_rows_can_be_written();
    grants_can_be_written();
    what_can_be_written_is_spelled();
}
