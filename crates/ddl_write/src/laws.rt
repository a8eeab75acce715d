//! Laws of the definitions, each the contract of a function that does nothing.
ghost use Rattle.ddl_write.specs.Examples.{WorkedExamples};

/// The definitions give what is known of some statements.
pub fn the_spellings_meet_the_examples()
    ensures { WorkedExamples }
{}
