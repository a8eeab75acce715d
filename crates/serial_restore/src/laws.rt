//! Laws of the definitions: each is the contract of a function that does nothing.
ghost use Rattle.std.specs.Prelude.{◌≡◌, List, []};
ghost use Rattle.cat_model.specs.declared.object.QName.{QName as TheName};
ghost use Rattle.cat_model.specs.Values.{Bytes, Named};
ghost use Rattle.restore_plan.specs.declared.entry.Entry.{Entry as TheEntry};
ghost use Rattle.restore_plan.specs.Order.{plan_behind};
ghost use Rattle.restore_plan.specs.Serial.{serial, serial_until};

/// What a restore with one worker comes to doesn't depend on which foreign keys the plan was made with: these bear on
/// which entries may run at once, and on nothing else.
pub fn foreign_keys_change_nothing()
    ensures serial { (boot : Bytes) (named : Named) (es : List TheEntry) (parents others : List (TheName × TheName)) → serial boot named (plan_behind parents [] es) ≡ serial boot named (plan_behind others [] es) }
    ensures until { (boot : Bytes) (named : Named) (es : List TheEntry) (parents others : List (TheName × TheName)) → serial_until boot named (plan_behind parents [] es) ≡ serial_until boot named (plan_behind others [] es) }
{}
