//! Laws of the definitions, each the contract of a function that does nothing.
ghost use Rattle.std.specs.Prelude.{◌≡◌, [], Some, None, true, false};
ghost use Rattle.fmt_text.specs.Parts.{part};
ghost use Rattle.fmt_text.specs.Examples.{schema, schema_owned, schema_alone, table, table_owned, owned_by, owned_by_part, table_data, table_rows, table_data_part, encoding};

/// Worked examples, computed from the definitions.
pub fn worked_examples()
    ensures with_owner { part true schema None ≡ schema_owned }
    ensures without_owner { part false schema None ≡ schema_alone }
    ensures quoted { part true table None ≡ table_owned }
    ensures no_owner { part true owned_by None ≡ owned_by_part }
    ensures rows { part true table_data (Some table_rows) ≡ table_data_part }
    ensures no_part { part true encoding None ≡ [] }
{}
