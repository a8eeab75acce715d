//! The laws of the plan and of the serial restore: each is the contract of a function that does nothing.
ghost use Rattle.std.specs.Prelude.{◌≡◌, true, List, [], ◌∷◌, map};
ghost use Rattle.cat_model.specs.Values.{Bytes, Named};
ghost use Rattle.restore_plan.specs.Chains.{are_distinct, ids_of, is_skipped, outcomes, IsOne, Leads};
ghost use Rattle.restore_plan.specs.declared.entry.Entry.{Entry};
ghost use Rattle.restore_plan.specs.declared.planned.Planned.{Planned};
ghost use Rattle.restore_plan.specs.Order.{foreign_keys, plan};
ghost use Rattle.restore_plan.specs.Places.{Given, InPlaces};
ghost use Rattle.restore_plan.specs.Serial.{serial};
ghost use Rattle.restore_plan.specs.declared.status.EntryStatus.{EntryStatus};

use model_laws::{only_writes_change, statements_stay_within_footprints};

/// Each statement of each entry stays within the entry's footprint in the entry's place: wherever the foreign keys are
/// those of the opening and of the entries so far.
pub fn plans_stay_in_places()
    ensures opening { (opening : Named) → Given (foreign_keys opening) opening }
    ensures entries { (boot : Bytes) (opening : Named) (es : List Entry) → InPlaces boot (foreign_keys opening) (plan opening es) }
{
    statements_stay_within_footprints();
    only_writes_change();
}

/// In every list an entry is skipped exactly where a chain of one or more steps through its dependencies leads to a
/// refused entry.
pub fn chains_skip()
    ensures each { (boot : Bytes) (opening : Named) (es : List Entry) → map (λ o. o.0) (outcomes (plan opening es) (serial boot opening (plan opening es)).statuses) ≡ plan opening es }
    ensures only { (boot : Bytes) (opening : Named) (es : List Entry) (p : Planned) (status : EntryStatus) → IsOne (p, status) (outcomes (plan opening es) (serial boot opening (plan opening es)).statuses) → is_skipped status ≡ true → Leads (outcomes (plan opening es) (serial boot opening (plan opening es)).statuses) p }
    ensures all { (boot : Bytes) (opening : Named) (es : List Entry) (p : Planned) (status : EntryStatus) → are_distinct (ids_of es) ≡ true → IsOne (p, status) (outcomes (plan opening es) (serial boot opening (plan opening es)).statuses) → Leads (outcomes (plan opening es) (serial boot opening (plan opening es)).statuses) p → is_skipped status ≡ true }
{}
