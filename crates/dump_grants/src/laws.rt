//! Laws of the definitions, each the contract of a function that does nothing.
ghost use Rattle.dump_grants.specs.Examples.{WorkedExamples};

/// The statements for some lists of rights.
pub fn grants_meet_the_examples()
    ensures { WorkedExamples }
{}
