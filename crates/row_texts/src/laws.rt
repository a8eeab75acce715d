//! Laws of the definitions, each the contract of a function that does nothing.
ghost use Rattle.std.specs.Prelude.{◌≡◌, ◌↔◌, Some, true};
ghost use Rattle.cat_model.specs.declared.constraint.SequenceKind.{SequenceKind};
ghost use Rattle.cat_model.specs.declared.type_name.TypeName.{TypeName};
ghost use Rattle.cat_model.specs.Values.{Bytes};
ghost use Rattle.ddl_part_laws.specs.Expressions.{default_text};
ghost use Rattle.ddl_part_laws.specs.Types.{type_part};
ghost use Rattle.row_texts.specs.declared.index_text.IndexText.{IndexText};
ghost use Rattle.row_texts.specs.Texts.{SpellsWhole};
ghost use Rattle.row_texts.specs.TypeTexts.{type_named};
ghost use Rattle.row_texts.specs.DefaultTexts.{default_said, is_default};
ghost use Rattle.row_texts.specs.IndexTexts.{index_text, is_bracketed, index_said};
ghost use Rattle.row_texts.specs.SequenceTypes.{sequence_type, sequence_kind};
ghost use Rattle.row_texts.specs.ViewTexts.{view_text, view_body};
ghost use Rattle.row_texts.specs.Examples.{Types, Defaults, Indexes, Sequences, Views, Names};

/// Worked examples, computed from the definitions.
pub fn texts_meet_the_examples()
    ensures types { Types }
    ensures defaults { Defaults }
    ensures indexes { Indexes }
    ensures sequences { Sequences }
    ensures views { Views }
    ensures names { Names }
{}

/// A text says something exactly where all of its tokens together spell it. An index's rest begins with a bracket.
pub fn texts_are_all_of_their_tokens()
    ensures types { (text : Bytes) (t : TypeName) → (type_named text ≡ Some t) ↔ SpellsWhole type_part text t }
    ensures defaults { (text said : Bytes) → (default_said text ≡ Some said) ↔ SpellsWhole default_text text said }
    ensures are_defaults { (text : Bytes) → (is_default text ≡ true) ↔ ((said : Bytes) × SpellsWhole default_text text said) }
    ensures indexes { (text : Bytes) (said : IndexText) → (index_said text ≡ Some said) ↔ (SpellsWhole index_text text said × (is_bracketed said.rest ≡ true)) }
    ensures sequences { (text : Bytes) (kind : SequenceKind) → (sequence_kind text ≡ Some kind) ↔ SpellsWhole sequence_type text kind }
    ensures views { (text body : Bytes) → (view_body text ≡ Some body) ↔ SpellsWhole view_text text body }
{}
