//! Worked examples, each the contract of a function that does nothing.
ghost use Rattle.std.specs.Prelude.{◌≡◌, true, false, List, [], ◌∷◌, map, codes};
ghost use Rattle.std.specs.Option.{option_map};
ghost use Rattle.std.specs.List.{slice_get};
ghost use Rattle.cat_model.specs.declared.cause.Cause.TheVariants as cause;
ghost use Rattle.cat_model.specs.declared.key.Key.TheVariants as key;
ghost use Rattle.restore_plan.specs.Examples.{with_public, postgres, two_schemas, parents_first, children_first, equal_parents, table_left_out, behind_rows, owner_missing, no_owner_statement};
ghost use Rattle.restore_plan.specs.Order.{plan};
ghost use Rattle.restore_plan.specs.declared.status.Note.{Note};
ghost use Rattle.restore_plan.specs.Serial.{serial};
ghost use Rattle.restore_plan.specs.declared.status.EntryStatus.TheVariants.{Done, Refused, Skipped};

/// Of two entries that create one schema the second is refused.
pub fn one_schema_twice()
    ensures { (serial postgres with_public (plan with_public two_schemas)).statuses ≡ Done ∷ Refused 1 (cause.Exists (key.Schema (codes "a"))) ∷ [] }
{}

/// Two tables with a foreign key: where the parents' rows come first all is done, where the children's rows come first
/// these are refused and nothing is skipped; where two parents have one key the primary key is refused and the foreign
/// key is skipped.
pub fn parents_and_children()
    ensures parents { (serial postgres with_public (plan with_public parents_first)).statuses ≡ Done ∷ Done ∷ Done ∷ Done ∷ Done ∷ Done ∷ [] }
    ensures children { (serial postgres with_public (plan with_public children_first)).statuses ≡ Done ∷ Done ∷ Done ∷ Done ∷ Refused 1 (cause.NoParent (codes "c_fk") 1) ∷ Done ∷ [] }
    ensures equal { (serial postgres with_public (plan with_public equal_parents)).statuses ≡ Done ∷ Done ∷ Done ∷ Done ∷ Refused 1 (cause.Duplicate (codes "p_pkey") 1 2) ∷ Skipped 10 ∷ [] }
{}

/// In the section post-data the rows of a table stand for it, where they stand earlier, also where the table isn't in the
/// list; a view, which is pre-data, keeps the table. What isn't in the list, as 20, is no dependency.
pub fn rows_stand_for_tables()
    ensures keys_first { map (λ p. p.deps) (plan with_public parents_first) ≡ [] ∷ [] ∷ (7 ∷ []) ∷ (6 ∷ 10 ∷ []) ∷ (7 ∷ []) ∷ (6 ∷ []) ∷ [] }
    ensures rows_first { map (λ p. p.deps) (plan with_public equal_parents) ≡ [] ∷ [] ∷ (6 ∷ []) ∷ (7 ∷ []) ∷ (9 ∷ []) ∷ (8 ∷ 10 ∷ []) ∷ [] }
    ensures left_out { map (λ p. p.deps) (plan with_public table_left_out) ≡ [] ∷ (9 ∷ []) ∷ [] }
    ensures behind { map (λ p. p.deps) (plan with_public behind_rows) ≡ [] ∷ (7 ∷ []) ∷ (7 ∷ []) ∷ (9 ∷ []) ∷ (9 ∷ []) ∷ (9 ∷ []) ∷ [] }
{}

/// Constraints lock the table that they depend on, or its rows in its place; tables, rows, views and indexes lock nothing.
pub fn constraints_lock_tables()
    ensures keys_first { map (λ p. p.locks) (plan with_public parents_first) ≡ [] ∷ [] ∷ (7 ∷ []) ∷ (6 ∷ []) ∷ [] ∷ [] ∷ [] }
    ensures rows_first { map (λ p. p.locks) (plan with_public equal_parents) ≡ [] ∷ [] ∷ [] ∷ [] ∷ (9 ∷ []) ∷ (8 ∷ []) ∷ [] }
    ensures behind { map (λ p. p.locks) (plan with_public behind_rows) ≡ [] ∷ [] ∷ [] ∷ [] ∷ (9 ∷ []) ∷ (9 ∷ []) ∷ [] }
{}

/// A refused owner statement is a note: the rest of its entry runs, and what depends on it is tried. Any other refused
/// statement ends its entry, and skips what depends on it.
pub fn owners_are_notes()
    ensures noted { (serial postgres with_public (plan with_public owner_missing)).statuses ≡ Done ∷ Refused 1 (cause.Exists (key.Schema (codes "b"))) ∷ [] }
    ensures notes { (serial postgres with_public (plan with_public owner_missing)).notes ≡ record { dump_id = 5; cause = cause.Absent (key.Role (codes "alice")) } ∷ [] }
    ensures refused { (serial postgres with_public (plan with_public no_owner_statement)).statuses ≡ Refused 1 (cause.Absent (key.Role (codes "alice"))) ∷ Skipped 5 ∷ [] }
    ensures nothing { (serial postgres with_public (plan with_public no_owner_statement)).notes ≡ [] }
{}
