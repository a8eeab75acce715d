//! Laws of the definitions, each the contract of a function that does nothing.
ghost use Rattle.std.specs.Prelude.{◌≡◌, ◌≤◌, ℕ, suc, length};
ghost use Rattle.cat_rows.specs.declared.catalogue.Catalogue.{Catalogue};
ghost use Rattle.cat_model.specs.Values.{Bytes};
ghost use Rattle.type_ends.specs.Ends.{resolved_within, resolved};
ghost use Rattle.type_ends.specs.Examples.{Labelled, Chains, NoEnds};

/// Worked examples, computed from the definitions.
pub fn ends_meet_the_examples()
    ensures labels { Labelled }
    ensures chains { Chains }
    ensures no_ends { NoEnds }
{}

/// More domains than there are types change nothing: a chain that ends at all has ended by then.
pub fn chains_end_within_the_types()
    ensures { (cat : Catalogue) (oid : ℕ) (text : Bytes) (n : ℕ) → length cat.pg_type ≤ n → resolved_within (suc n) cat oid text ≡ resolved cat oid text }
{}
