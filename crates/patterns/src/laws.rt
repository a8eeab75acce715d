//! Laws of the definitions, each the contract of a function that does nothing.
ghost use Rattle.std.specs.Prelude.{◌≡◌, ◌↔◌, ◌++◌, ◌∷◌, ◌<◌, ℕ, List, IsTrue, codes, length};
ghost use Rattle.patterns.specs.Quoted.{quoted, text_hits};
ghost use Rattle.patterns.specs.Examples.{WorkedExamples};

/// A name in quotes hits itself in the schema public, and nothing else.
pub fn a_quoted_name_hits_itself()
    ensures { (wanted schema name : List ℕ) → 0 < length wanted
        → IsTrue (text_hits (quoted wanted) schema name) ↔ ((schema ≡ codes "public") × (name ≡ wanted)) }
{}

/// A schema and a name in quotes, with a dot between, hit that name in that schema, and nothing else.
pub fn a_quoted_path_hits_itself()
    ensures { (owner wanted schema name : List ℕ) → 0 < length owner → 0 < length wanted
        → IsTrue (text_hits (quoted owner ++ 46 ∷ quoted wanted) schema name) ↔ ((schema ≡ owner) × (name ≡ wanted)) }
{}

/// `*` hits each name in the schema public, and `*.*` each name in each schema.
pub fn a_star_hits_everything()
    ensures public { (schema name : List ℕ) → IsTrue (text_hits (codes "*") schema name) ↔ (schema ≡ codes "public") }
    ensures all { (schema name : List ℕ) → IsTrue (text_hits (codes "*.*") schema name) }
{}

/// Worked examples, computed from the definitions.
pub fn the_definitions_meet_the_examples()
    ensures { WorkedExamples }
{}
