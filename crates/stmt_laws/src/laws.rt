//! Laws of the definitions, each the contract of a function that does nothing.
ghost use Rattle.std.specs.Prelude.{◌≡◌, List, ℕ, Some};
ghost use Rattle.cat_model.specs.declared.stmt.Stmt.{Stmt};
ghost use Rattle.cat_rows.specs.declared.catalogue.Catalogue.{Catalogue};
ghost use Rattle.ddl_grammar.specs.Respelling.{IsWritable};
ghost use Rattle.dump_stmts.specs.Sequences.{owned_stmt};
ghost use Rattle.dump_stmts.specs.Stmts.{stmt_of};
ghost use Rattle.graph_parts.specs.declared.object.Obj.{Obj};
ghost use Rattle.stmt_laws.specs.Named.{HoldsCells, IsNamed};

use text_laws::laws::texts_of_rows_can_be_written;

/// The statement that makes an object can be written, where the rows of the catalogue are such as tables hold and the
/// object's names are names: also that of a dummy view, which selects a null of its type for each column. So can the one that
/// names the column that owns a sequence.
pub fn statements_of_objects_can_be_written()
    ensures own { (cat : Catalogue) (standing : List ℕ) (o : Obj) (statement : Stmt) → HoldsCells cat → IsNamed o
        → stmt_of cat standing o ≡ Some statement → IsWritable statement }
    ensures owned { (cat : Catalogue) (o : Obj) (statement : Stmt) → HoldsCells cat → IsNamed o
        → owned_stmt cat o ≡ Some statement → IsWritable statement }
{
    texts_of_rows_can_be_written();
}
