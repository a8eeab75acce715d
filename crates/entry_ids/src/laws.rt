//! Oids that all of a catalogue has are apart. Each law is the contract of a function that does nothing.
ghost use Rattle.std.specs.Prelude.{ℤ};
ghost use Rattle.std.specs.FinMap.{entries};
ghost use Rattle.cat_model.specs.Values.{Bytes, Named};
ghost use Rattle.cat_model.specs.declared.object.QName.{QName};
ghost use Rattle.named_tables.specs.Oids.{AreOids};
ghost use Rattle.named_objects.specs.Oids.{AreCheckOids, AreLabelOids};
ghost use Rattle.object_ids.specs.Ids.{IdsOf, AreApart};
ghost use Rattle.entry_ids.specs.Ids.{of_keys, oids_of};
ghost use Rattle.entry_ids.specs.Entries.{slots_of, HaveIds};

/// No two objects of a kind have the same oid, and none has 0.
pub fn objects_are_apart()
    ensures { (named : Named) (ids : IdsOf) → AreApart ids → HaveIds ids (slots_of (entries named)) → AreOids named (of_keys ids) }
{}

/// The checks of domains have oids of their own among those of all constraints.
pub fn checks_are_apart()
    ensures { (named : Named) (ids : IdsOf) (number : QName → Bytes → ℤ) → AreApart ids → HaveIds ids (slots_of (entries named)) → AreCheckOids named (oids_of ids number) }
{}

/// No two labels of enums have the same oid.
pub fn labels_are_apart()
    ensures { (named : Named) (ids : IdsOf) (number : QName → Bytes → ℤ) → AreApart ids → HaveIds ids (slots_of (entries named)) → AreLabelOids named (oids_of ids number) }
{}
