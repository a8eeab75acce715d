//! Laws of the definitions, each the contract of a function that does nothing.
ghost use Rattle.ddl_parts.specs.Laws.{Lawful};
ghost use Rattle.ddl_parts.specs.Leaves.{name, is_name, literal, qualified};
ghost use Rattle.ddl_parts.specs.Lists.{listed};
ghost use Rattle.ddl_parts.specs.Expressions.{expression, default_text, default_and_null};
ghost use Rattle.ddl_parts.specs.Types.{type_part};
ghost use Rattle.ddl_parts.specs.Numbers.{whole_number};

/// What each part reads is spelled so; what is spelled so is read, before anything that can't belong to the part; and
/// where reading stops, what stands before can be finished, and nothing goes on with the next token.
pub fn parts_have_their_laws()
    ensures name { Lawful name }
    ensures literal { Lawful literal }
    ensures qualified { Lawful qualified }
    ensures expression { Lawful expression }
    ensures default_text { Lawful default_text }
    ensures default_and_null { Lawful default_and_null }
    ensures type_part { Lawful type_part }
    ensures names { Lawful (listed is_name name) }
{}

/// What a whole number reads is spelled so; what is spelled so is read; and where reading stops, what stands before can
/// be finished, and nothing goes on with the next token.
pub fn numbers_have_their_laws()
    ensures { Lawful whole_number }
{}
