//! Laws of the definitions, each the contract of a function that does nothing.
ghost use Rattle.std.specs.List.{AllByRecursion};
ghost use Rattle.std.specs.Prelude.{◌≡◌, ◌↔◌, ℕ, Bool, true, List, None, Some, Ok};
ghost use Rattle.copy_text.specs.Texts.{IsName};
ghost use Rattle.cat_model.specs.declared.constraint.ConstraintKind.TheVariants as kinds;
ghost use Rattle.cat_model.specs.declared.key.Key.TheVariants as key;
ghost use Rattle.cat_model.specs.declared.object.QName.{QName};
ghost use Rattle.cat_model.specs.declared.stmt.Stmt.{Stmt};
ghost use Rattle.cat_model.specs.declared.stmt.Stmt.TheVariants as stmt;
ghost use Rattle.cat_model.specs.declared.type_name.TypeName.{TypeName};
ghost use Rattle.cat_model.specs.Values.{Bytes, Named};
ghost use Rattle.ddl_laws.specs.Texts.{IsPath, IsType, IsDefaultText, IsExpressionText};
ghost use Rattle.ddl_laws.specs.located.Located.{Located};
ghost use Rattle.ddl_laws.specs.Reading.{statements_of};
ghost use Rattle.ddl_laws.specs.Respelling.{IsWritable};
ghost use Rattle.ddl_laws.specs.Spellings.{said};
ghost use Rattle.model_laws.specs.Examples.{catalogue_after};
ghost use Rattle.cat_sound.specs.Asked.{Asked};
ghost use Rattle.cat_sound.specs.Fit.{IsFit};
ghost use Rattle.cat_sound.specs.Itself.{check_of};
ghost use Rattle.cat_sound.specs.Sound.{IsMet, IsSound};
ghost use Rattle.sound_texts.specs.Examples.{Types, Expressions, Constraints, Indexes};
ghost use Rattle.sound_texts.specs.Grammar.{grammar};

/// The tests say of each text what the grammar does: a type, a default and a view's body is good exactly where it can be
/// written, a constraint where the statement that adds it can, and an index where the statement that makes it can.
pub fn texts_are_good_that_can_be_written()
    ensures types { (t : TypeName) → (grammar.type t ≡ true) ↔ IsType t }
    ensures defaults { (v : Bytes) → (grammar.expression v ≡ true) ↔ IsDefaultText v }
    ensures bodies { (v : Bytes) → (grammar.body v ≡ true) ↔ IsExpressionText v }
    ensures checks { (v : Bytes) → (grammar.constraint (check_of v) ≡ true) ↔ IsExpressionText v }
    ensures primaries { (q : QName) (name rest : Bytes) (columns : List Bytes) → IsPath q → IsName name → (grammar.constraint (record { kind = kinds.Primary; columns = columns; parent = None; text = rest }) ≡ true) ↔ IsWritable (stmt.AddPrimary q name columns rest) }
    ensures uniques { (q : QName) (name rest : Bytes) (columns : List Bytes) → IsPath q → IsName name → (grammar.constraint (record { kind = kinds.Unique; columns = columns; parent = None; text = rest }) ≡ true) ↔ IsWritable (stmt.AddUnique q name columns rest) }
    ensures foreign_keys { (q parent : QName) (name rest : Bytes) (columns parents : List Bytes) → IsPath q → IsName name → (grammar.constraint (record { kind = kinds.Foreign; columns = columns; parent = Some (parent, parents); text = rest }) ≡ true) ↔ IsWritable (stmt.AddForeign q name columns parent parents rest) }
    ensures indexes { (q : QName) (name method rest : Bytes) (unique : Bool) → (grammar.index q name (record { method = method; unique = unique; text = rest }) ≡ true) ↔ IsWritable (stmt.CreateIndex q name method rest) }
{}

/// A statement that can be written is fit.
pub fn statements_that_can_be_written_are_fit()
    ensures { (s : Stmt) → IsWritable s → IsFit grammar s }
{}

/// So is each statement that is read.
pub fn statements_that_are_read_are_fit()
    ensures { (text : List ℕ) (found : List Located) → statements_of text ≡ Ok found → AllByRecursion (IsFit grammar) (said found) }
{}

/// So what a script leaves of a catalogue in order is in order, where the boot role is there.
pub fn scripts_keep()
    ensures { (boot : Bytes) (text : List ℕ) (found : List Located) (named : Named) → statements_of text ≡ Ok found → IsSound grammar named → IsMet named (key.Role boot, Asked.there) → IsSound grammar (catalogue_after boot (said found) named) }
{}

/// Worked examples: texts that are good, and texts that aren't.
pub fn the_tests_meet_the_examples()
    ensures types { Types }
    ensures expressions { Expressions }
    ensures constraints { Constraints }
    ensures indexes { Indexes }
{}
