//! Oids stay apart as some are given and new ones are drawn. Each law is the contract of a function that does nothing.
ghost use Rattle.std.specs.Prelude.{◌≡◌, ℕ, Bool, true, IsSome};
ghost use Rattle.std.specs.FinMap.{get};
ghost use Rattle.object_ids.specs.Slots.{Slot};
ghost use Rattle.object_ids.specs.Ids.{IdsOf, AreApart, none, with_id, IsNumbered, KeepIds};

/// Where none has an oid, they are apart.
pub fn none_are_apart()
    ensures { AreApart none }
{}

/// They stay apart where one is given an oid that it may have.
pub fn given_oids_stay_apart()
    ensures { (i : IdsOf) (s : Slot) (oid : ℕ) → AreApart i → AreApart (with_id i s oid) }
{}

/// They stay apart where what has none gets the least oid that isn't in use.
pub fn new_oids_are_apart()
    ensures { (old : IdsOf) (s : Slot) (done : Bool) (new : IdsOf) → AreApart old → IsNumbered old s done new → AreApart new }
{}

/// Then it has one, unless none is left.
pub fn numbered_have_oids()
    ensures { (old : IdsOf) (s : Slot) (done : Bool) (new : IdsOf) → IsNumbered old s done new → done ≡ true → IsSome (get new.ids s) }
{}

/// What had an oid keeps it.
pub fn numbered_keep_oids()
    ensures { (old : IdsOf) (s : Slot) (done : Bool) (new : IdsOf) → IsNumbered old s done new → KeepIds old new }
{}
