//! Laws of the verdict, each the contract of a function that does nothing.
ghost use Rattle.std.specs.Prelude.{◌≡◌};
ghost use Rattle.cat_model.specs.Values.{Named};
ghost use Rattle.cat_same.specs.Examples.{SameByNames, SameTables, LeastKeys, TableRows};
ghost use Rattle.cat_same.specs.Verdicts.{IsVerdict};
ghost use Rattle.cat_same.specs.declared.compare.Verdict.{Verdict};

use cat_naming::laws::names_meet_the_examples;

/// Worked examples, computed from the definitions.
pub fn verdicts_meet_the_examples()
    ensures same { SameByNames }
    ensures tables { SameTables }
    ensures least { LeastKeys }
    ensures rows { TableRows }
{
    names_meet_the_examples();
}

/// Two catalogues have one verdict.
pub fn verdicts_are_unique()
    ensures { (a b : Named) (v w : Verdict) → IsVerdict a b v → IsVerdict a b w → v ≡ w }
{}
