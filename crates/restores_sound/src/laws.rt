//! Laws of the definitions, each the contract of a function that does nothing.
ghost use Rattle.std.specs.Prelude.{◌≡◌, ℕ, Bool, List, Option, Ok};
ghost use Rattle.cat_rows.specs.declared.catalogue.Catalogue.{Catalogue};
ghost use Rattle.cat_model.specs.Values.{Bytes, Named};
ghost use Rattle.cat_names.specs.DataSets.{TextsByOid};
ghost use Rattle.opening_sound.specs.Left.{IsLeft};
ghost use Rattle.restore_plan.specs.declared.entry.Entry.{Entry};
ghost use Rattle.restore_plan.specs.declared.planned.Planned.{Planned};
ghost use Rattle.restore_plan.specs.Order.{plan};
ghost use Rattle.restore_plan.specs.Serial.{serial, serial_until};
ghost use Rattle.restore_steps.specs.Faults.{entry_due};
ghost use Rattle.restores_sound.specs.Fit.{AreFitSteps, AreFitEntries, IsFitPlan};
ghost use Rattle.toc_entry.specs.declared.entry.Entry.{Entry as Archived};

/// The statements of an entry that a restore takes are fit: those that its definition and its rows were read as, and its owner
/// statement.
pub fn entries_that_are_taken_are_fit()
    ensures { (owners : Bool) (entry : Archived) (rows : Option (List ℕ)) (taken : Entry) → entry_due owners entry rows ≡ Ok taken → AreFitSteps taken.steps }
{}

/// A restore of entries whose statements are fit leaves what is left of a well-formed opening in order: one that goes on behind
/// refusals, and one that stops at the first.
pub fn restores_leave_it_in_order()
    ensures plans { (named : Named) (entries : List Entry) → AreFitEntries entries → IsFitPlan (plan named entries) }
    ensures serial { (opening : Catalogue) (texts : TextsByOid) (role : Bytes) (planned : List Planned) (named : Named) → IsLeft opening texts role named → IsFitPlan planned → IsLeft opening texts role (serial role named planned).catalogue }
    ensures until { (opening : Catalogue) (texts : TextsByOid) (role : Bytes) (planned : List Planned) (named : Named) → IsLeft opening texts role named → IsFitPlan planned → IsLeft opening texts role (serial_until role named planned).catalogue }
{}
