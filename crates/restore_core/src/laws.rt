//! The laws of the machine: each is the contract of a function that does nothing.
ghost use Rattle.std.specs.Prelude.{◌≡◌, ℕ, ◌<◌, Bool, true, false, List, [], ◌∷◌, map, Option, Some, None};
ghost use Rattle.std.specs.List.{slice_get};
ghost use Rattle.cat_model.specs.Values.{Bytes, Named};
ghost use Rattle.cat_model.specs.Marks.{conflict};
ghost use Rattle.restore_plan.specs.declared.entry.Entry.{Entry};
ghost use Rattle.restore_plan.specs.declared.planned.Planned.{Planned};
ghost use Rattle.restore_plan.specs.Order.{plan, clash};
ghost use Rattle.restore_plan.specs.Serial.{serial};
ghost use Rattle.restore_core.specs.InOrder.{in_list_order, AsRecorded};
ghost use Rattle.restore_core.specs.Machine.{Going, State, first, enabled, IsLegal, after, all_ended, result_of};
ghost use Rattle.restore_core.specs.Phases.{is_running};
ghost use Rattle.restore_core.specs.declared.event.Event.{Event};

use model_laws::trees_change_places;
use restore_plan::plans_stay_in_places;

/// In every legal history so far the catalogue is what the statements that each entry has run make of the opening, one
/// entry after another in the order of the list, and each of them says there what was recorded of it.
pub fn history_is_in_list_order()
    ensures catalogue { (boot : Bytes) (opening : Named) (es : List Entry) (events : List Event) → IsLegal boot (first opening (plan opening es)) events → in_list_order boot opening (after boot (first opening (plan opening es)) events).entries ≡ (after boot (first opening (plan opening es)) events).catalogue }
    ensures recorded { (boot : Bytes) (opening : Named) (es : List Entry) (events : List Event) → IsLegal boot (first opening (plan opening es)) events → AsRecorded boot opening (after boot (first opening (plan opening es)) events).entries }
    ensures entries { (boot : Bytes) (opening : Named) (es : List Entry) (events : List Event) → IsLegal boot (first opening (plan opening es)) events → map (λ x. x.plan) (after boot (first opening (plan opening es)) events).entries ≡ plan opening es }
{
    trees_change_places();
    plans_stay_in_places();
}

/// Where every entry has ended the catalogue, the statuses and the notes are those of the serial restore.
pub fn any_schedule_is_serial()
    ensures { (boot : Bytes) (opening : Named) (es : List Entry) (events : List Event) → IsLegal boot (first opening (plan opening es)) events → all_ended (after boot (first opening (plan opening es)) events) ≡ true → result_of (after boot (first opening (plan opening es)) events) ≡ serial boot opening (plan opening es) }
{
    trees_change_places();
    plans_stay_in_places();
}

/// No two running entries conflict or lock one same entry.
pub fn running_entries_are_apart()
    ensures conflicts { (boot : Bytes) (opening : Named) (ps : List Planned) (events : List Event) (i j : ℕ) (x y : Going) → IsLegal boot (first opening ps) events → i < j → slice_get (after boot (first opening ps) events).entries i ≡ Some x → slice_get (after boot (first opening ps) events).entries j ≡ Some y → is_running x.phase ≡ true → is_running y.phase ≡ true → conflict x.plan.footprint y.plan.footprint ≡ false }
    ensures locks { (boot : Bytes) (opening : Named) (ps : List Planned) (events : List Event) (i j : ℕ) (x y : Going) → IsLegal boot (first opening ps) events → i < j → slice_get (after boot (first opening ps) events).entries i ≡ Some x → slice_get (after boot (first opening ps) events).entries j ≡ Some y → is_running x.phase ≡ true → is_running y.phase ≡ true → clash x.plan y.plan ≡ false }
{}

/// From every state that a legal history reaches in which some entry hasn't ended, some event is enabled.
pub fn some_event_is_enabled()
    ensures { (boot : Bytes) (opening : Named) (ps : List Planned) (events : List Event) → IsLegal boot (first opening ps) events → all_ended (after boot (first opening ps) events) ≡ false → (e : Event) × (enabled (after boot (first opening ps) events) e ≡ true) }
{}
