//! The definitions give what is known of some texts.
ghost use Rattle.ddl_scripts.specs.Examples.{WorkedExamples};
ghost use Rattle.ddl_scripts.specs.AlterExamples.{AlterExamples};
ghost use Rattle.ddl_scripts.specs.SequenceExamples.{SequenceExamples};
ghost use Rattle.ddl_scripts.specs.CopyExamples.{CopyExamples};
ghost use Rattle.ddl_scripts.specs.RightsExamples.{RightsExamples};

/// The definitions give what is known of some texts.
pub fn the_definitions_meet_the_examples()
    ensures { WorkedExamples }
{}

/// The same of texts that alter tables.
pub fn altered_tables_meet_the_examples()
    ensures { AlterExamples }
{}

/// The same of texts that create sequences.
pub fn sequences_meet_the_examples()
    ensures { SequenceExamples }
{}

/// The same of texts with COPY, and with lines that begin with a backslash.
pub fn copies_and_lines_meet_the_examples()
    ensures { CopyExamples }
{}

/// The same of texts that grant rights and roles, or take rights away.
pub fn grants_meet_the_examples()
    ensures { RightsExamples }
{}
