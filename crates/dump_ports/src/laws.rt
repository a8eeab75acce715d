ghost use Rattle.std.specs.Prelude.{◌≡◌, ℕ, List, [], ◌∷◌, ◌++◌, true, false, Ok, Err, IsTrue};
ghost use Rattle.std.specs.FinMap.{insert};
ghost use Rattle.dump_ports.specs.Tree.{Tree, made, appended, overwritten};
ghost use Rattle.dump_ports.specs.Whole.{within};
ghost use Rattle.dump_ports.specs.Memory.{half, one_more, next_fails};

/// A text that is made and then added to piece by piece is the pieces, one after another.
pub fn pieces_make_the_text()
    ensures first { (t : Tree) (name bytes : List ℕ) → appended name bytes (made name t) ≡ insert t name bytes }
    ensures more { (t : Tree) (name old bytes : List ℕ) → appended name bytes (insert t name old) ≡ insert t name (old ++ bytes) }
    ensures joined { (t : Tree) (name bytes more : List ℕ) → appended name more (appended name bytes t) ≡ appended name (bytes ++ more) t }
{}

/// What the definitions say of a few small values.
pub fn worked_examples()
    ensures put { overwritten 1 (8 ∷ 9 ∷ []) (1 ∷ 2 ∷ 3 ∷ 4 ∷ []) ≡ 1 ∷ 8 ∷ 9 ∷ 4 ∷ [] }
    ensures put_at_the_end { overwritten 2 (9 ∷ []) (1 ∷ 2 ∷ 3 ∷ []) ≡ 1 ∷ 2 ∷ 9 ∷ [] }
    ensures at_the_limit { within 2 (1 ∷ 2 ∷ []) ≡ Ok (1 ∷ 2 ∷ []) }
    ensures over_the_limit { within 2 (1 ∷ 2 ∷ 3 ∷ []) ≡ Err 3 }
    ensures half_of_three { half (1 ∷ 2 ∷ 3 ∷ []) ≡ 1 ∷ [] }
    ensures half_of_one { half (1 ∷ []) ≡ [] }
    ensures second_fails { next_fails (record { fail = 5 ∷ 2 ∷ []; made = 1 }) ≡ true }
    ensures third_works { next_fails (record { fail = 5 ∷ 2 ∷ []; made = 2 }) ≡ false }
    ensures count { one_more 6 ≡ 7 }
    ensures greatest { one_more 18446744073709551615 ≡ 18446744073709551615 }
{}
