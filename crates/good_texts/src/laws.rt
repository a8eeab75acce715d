//! Laws of the definitions, each the contract of a function that does nothing.
ghost use Rattle.std.specs.Prelude.{◌≡◌, true, List, Some, None, codes};
ghost use Rattle.std.specs.Option.{option_and_then};
ghost use Rattle.cat_model.specs.declared.constraint.ConstraintKind.TheVariants as kinds;
ghost use Rattle.cat_model.specs.declared.object.QName.{QName};
ghost use Rattle.cat_model.specs.declared.stmt.Stmt.TheVariants as stmt;
ghost use Rattle.cat_model.specs.declared.type_name.TypeName.{TypeName};
ghost use Rattle.cat_model.specs.declared.value.Constraint.{Constraint};
ghost use Rattle.cat_model.specs.declared.value.Index.{Index};
ghost use Rattle.cat_model.specs.declared.value.Value.TheVariants as value;
ghost use Rattle.cat_model.specs.Values.{Bytes};
ghost use Rattle.cat_sound.specs.Itself.{check_of, IsConstraint};
ghost use Rattle.cat_naming.specs.Constraints.{constraint_value};
ghost use Rattle.constraint_table.specs.Said.{statement_said};
ghost use Rattle.ddl_laws.specs.Tables.{type_text};
ghost use Rattle.row_texts.specs.DefaultTexts.{default_said};
ghost use Rattle.row_texts.specs.IndexTexts.{index_said};
ghost use Rattle.row_texts.specs.TypeTexts.{type_named};
ghost use Rattle.row_texts.specs.ViewTexts.{view_body};
ghost use Rattle.sound_texts.specs.Grammar.{grammar};
ghost use Rattle.good_texts.specs.Rows.{body_text, index_text, check_said, key_said, foreign_said, some_table, constraint_text};

/// A type that is good is named by its one spelling, a default that is good by itself, a view's body with a semicolon behind it,
/// and an index by the statement that makes it.
pub fn good_texts_are_read_from_rows()
    ensures types { (t : TypeName) → grammar.type t ≡ true → type_named (type_text t) ≡ Some t }
    ensures defaults { (v : Bytes) → grammar.expression v ≡ true → default_said v ≡ Some v }
    ensures bodies { (v : Bytes) → grammar.body v ≡ true → view_body (body_text v) ≡ Some v }
    ensures indexes { (q : QName) (name : Bytes) (i : Index) → grammar.index q name i ≡ true → index_said (index_text q name i) ≡ Some (record { unique = i.unique; name = name; table = q; method = i.method; rest = i.text }) }
{}

/// A constraint that is good is read from what follows its name in the statement that adds it.
pub fn good_constraints_are_read_from_rows()
    ensures checks { (v : Bytes) → grammar.constraint (check_of v) ≡ true → statement_said (check_said v) ≡ Some (stmt.AddCheck some_table (codes "a") v) }
    ensures primaries { (columns : List Bytes) (rest : Bytes) → grammar.constraint (record { kind = kinds.Primary; columns = columns; parent = None; text = rest }) ≡ true → statement_said (key_said (codes "PRIMARY KEY ") columns rest) ≡ Some (stmt.AddPrimary some_table (codes "a") columns rest) }
    ensures uniques { (columns : List Bytes) (rest : Bytes) → grammar.constraint (record { kind = kinds.Unique; columns = columns; parent = None; text = rest }) ≡ true → statement_said (key_said (codes "UNIQUE ") columns rest) ≡ Some (stmt.AddUnique some_table (codes "a") columns rest) }
    ensures foreign_keys { (columns : List Bytes) (parent : QName) (parents : List Bytes) (rest : Bytes) → grammar.constraint (record { kind = kinds.Foreign; columns = columns; parent = Some (parent, parents); text = rest }) ≡ true → statement_said (foreign_said columns parent parents rest) ≡ Some (stmt.AddForeign some_table (codes "a") columns parent parents rest) }
{}

/// So a constraint in order, of a kind and with what goes with that kind, has a text that stands for it.
pub fn constraints_in_order_have_their_text()
    ensures { (c : Constraint) → IsConstraint grammar c → option_and_then constraint_value (statement_said (constraint_text c)) ≡ Some (value.Constraint c) }
{}
