//! Laws of the definitions, the contract of a function that does nothing.
ghost use Rattle.ddl_part_laws.specs.Laws.{Lawful};
ghost use Rattle.ddl_grammar.specs.Grants.{granted, revoked};

/// What GRANT and REVOKE read is spelled so; what is spelled so is read; and where reading stops, what stands before
/// can be finished, and nothing goes on with the next token.
pub fn grants_have_their_laws()
    ensures granted { Lawful granted }
    ensures revoked { Lawful revoked }
{}
