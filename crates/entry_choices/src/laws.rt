//! Laws of the definitions, each the contract of a function that does nothing.
ghost use Rattle.std.specs.Prelude.{◌≡◌, true, false, [], ◌∷◌, codes};
ghost use Rattle.entry_choices.specs.Choices.{wanted_places};
ghost use Rattle.entry_choices.specs.Examples.{serial, remarks, plain};

/// Worked examples, computed from the definitions: the places of the entries that are wanted, counted from 0.
pub fn worked_examples()
    ensures all { wanted_places plain serial ≡ 0 ∷ 1 ∷ 2 ∷ 4 ∷ 5 ∷ 6 ∷ 7 ∷ 8 ∷ 9 ∷ 10 ∷ [] }
    ensures schema_only { wanted_places (record plain { schema_only = true }) serial ≡ 0 ∷ 1 ∷ 2 ∷ 4 ∷ 5 ∷ 6 ∷ 7 ∷ 8 ∷ [] }
    ensures data_only { wanted_places (record plain { data_only = true }) serial ≡ 0 ∷ 1 ∷ 2 ∷ 9 ∷ 10 ∷ [] }
    ensures of_schema { wanted_places (record plain { schemas = codes "x" ∷ codes "public" ∷ [] }) serial ≡ 0 ∷ 1 ∷ 2 ∷ 5 ∷ 6 ∷ 7 ∷ 8 ∷ 9 ∷ 10 ∷ [] }
    ensures without_schema { wanted_places (record plain { not_schemas = codes "public" ∷ [] }) serial ≡ 0 ∷ 1 ∷ 2 ∷ 4 ∷ [] }
    ensures of_table { wanted_places (record plain { tables = codes "t" ∷ [] }) serial ≡ 0 ∷ 1 ∷ 2 ∷ 5 ∷ 9 ∷ [] }
    ensures of_sequence { wanted_places (record plain { tables = codes "t_id_seq" ∷ [] }) serial ≡ 0 ∷ 1 ∷ 2 ∷ 6 ∷ 10 ∷ [] }
    ensures of_data { wanted_places (record plain { sections = record { pre = false; rows = true; post = false } }) serial ≡ 0 ∷ 1 ∷ 2 ∷ 9 ∷ 10 ∷ [] }
{}

/// Worked examples of comments and grants.
pub fn worked_remarks()
    ensures all { wanted_places plain remarks ≡ 0 ∷ 1 ∷ 2 ∷ 3 ∷ 4 ∷ 5 ∷ 6 ∷ 7 ∷ 8 ∷ [] }
    ensures without_comments { wanted_places (record plain { comments = false }) remarks ≡ 0 ∷ 1 ∷ 3 ∷ 4 ∷ 8 ∷ [] }
    ensures without_grants { wanted_places (record plain { grants = false }) remarks ≡ 0 ∷ 1 ∷ 2 ∷ 4 ∷ 5 ∷ 6 ∷ 7 ∷ 8 ∷ [] }
    ensures data_only { wanted_places (record plain { data_only = true }) remarks ≡ 0 ∷ [] }
    ensures of_table { wanted_places (record plain { tables = codes "t" ∷ [] }) remarks ≡ 0 ∷ 1 ∷ 2 ∷ 3 ∷ [] }
    ensures without_schema { wanted_places (record plain { not_schemas = codes "b" ∷ [] }) remarks ≡ 0 ∷ 1 ∷ 2 ∷ 3 ∷ 4 ∷ 5 ∷ 6 ∷ 7 ∷ 8 ∷ [] }
    ensures post_data { wanted_places (record plain { sections = record { pre = false; rows = false; post = true } }) remarks ≡ 0 ∷ 4 ∷ 5 ∷ 6 ∷ [] }
    ensures pre_data { wanted_places (record plain { sections = record { pre = true; rows = false; post = false } }) remarks ≡ 0 ∷ 1 ∷ 2 ∷ 3 ∷ 7 ∷ 8 ∷ [] }
{}
