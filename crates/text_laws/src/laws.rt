//! Laws of the definitions, each the contract of a function that does nothing.
ghost use Rattle.std.specs.Prelude.{◌≡◌, Some};
ghost use Rattle.cat_model.specs.declared.stmt.Stmt.{Stmt};
ghost use Rattle.cat_model.specs.declared.type_name.TypeName.{TypeName};
ghost use Rattle.cat_model.specs.Values.{Bytes};
ghost use Rattle.constraint_table.specs.declared.constraint_text.ConstraintText.TheVariants.{Check};
ghost use Rattle.constraint_table.specs.Said.{statement_said, constraint_said};
ghost use Rattle.ddl_laws.specs.Respelling.{IsWritable, IsType, IsDefaultText, IsExpressionText};
ghost use Rattle.row_texts.specs.declared.index_text.IndexText.{IndexText};
ghost use Rattle.row_texts.specs.DefaultTexts.{default_said};
ghost use Rattle.row_texts.specs.IndexTexts.{index_said};
ghost use Rattle.row_texts.specs.TypeTexts.{type_named};
ghost use Rattle.row_texts.specs.ViewTexts.{view_body};
ghost use Rattle.text_laws.specs.Indexes.{IsIndex};

use ddl_laws::laws::what_was_read_can_be_written;
use row_texts::laws::texts_are_all_of_their_tokens;

/// What the text of a type, a default, a view, an index or a constraint says can be written in a statement.
pub fn texts_of_rows_can_be_written()
    ensures types { (text : Bytes) (name : TypeName) → type_named text ≡ Some name → IsType name }
    ensures defaults { (text said : Bytes) → default_said text ≡ Some said → IsDefaultText said }
    ensures views { (text body : Bytes) → view_body text ≡ Some body → IsExpressionText body }
    ensures indexes { (text : Bytes) (said : IndexText) → index_said text ≡ Some said → IsIndex said }
    ensures constraints { (text : Bytes) (statement : Stmt) → statement_said text ≡ Some statement → IsWritable statement }
    ensures checks { (text said : Bytes) → constraint_said text ≡ Some (Check said) → IsExpressionText said }
{
    texts_are_all_of_their_tokens();
    what_was_read_can_be_written();
}
