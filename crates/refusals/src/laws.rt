//! Laws of the definitions, each the contract of a function that does nothing.
ghost use Rattle.std.specs.Prelude.{◌≡◌};
ghost use Rattle.tool_words.specs.Messages.{report};
ghost use Rattle.refusals.specs.Examples.{of_objects, of_objects_told, of_rows, of_rows_told};

/// Worked examples, computed from the definitions: each cause once at least.
pub fn worked_examples()
    ensures objects { report of_objects ≡ of_objects_told }
    ensures rows { report of_rows ≡ of_rows_told }
{}
