//! Worked examples: which rows of an entry's statements are its text.
ghost use Rattle.std.specs.Prelude.{◌≡◌, [], ◌∷◌, drop, Some, None, codes};
ghost use Rattle.plan_entries.specs.Texts.{last_rows};
ghost use Rattle.plan_entries.specs.Examples.{copied, made};

/// Of two COPY statements the later one's rows count, and those of none among the statements of the definition.
#[tactic(auto, unfolding(crate::specs::Texts::rows_in))]
pub fn the_last_rows_count()
    ensures later { last_rows (copied (codes "1\n") ∷ made ∷ copied (codes "2\n") ∷ made ∷ []) ≡ Some (codes "2\n") }
    ensures behind { last_rows (drop 1 (copied (codes "1\n") ∷ made ∷ [])) ≡ None }
    ensures empty { last_rows (made ∷ copied [] ∷ []) ≡ Some [] }
    ensures none { last_rows (made ∷ []) ≡ None }
{}
