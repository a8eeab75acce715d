//! Laws of the definitions, each the contract of a function that does nothing.
ghost use Rattle.std.specs.List.{AllByRecursion};
ghost use Rattle.std.specs.Prelude.{◌≡◌, ℕ, ℤ, List, Some};
ghost use Rattle.std.specs.FinMap.{get};
ghost use Rattle.cat_rows.specs.declared.catalogue.Catalogue.{Catalogue};
ghost use Rattle.cat_rows.specs.declared.relations.ClassRow.{ClassRow};
ghost use Rattle.cat_rows.specs.declared.roles.DatabaseRow.{DatabaseRow};
ghost use Rattle.cat_rows.specs.declared.types.TypeRow.{TypeRow};
ghost use Rattle.cat_model.specs.declared.key.Key.TheVariants as key;
ghost use Rattle.cat_model.specs.declared.object.QName.{QName};
ghost use Rattle.cat_model.specs.declared.stmt.Stmt.{Stmt};
ghost use Rattle.cat_model.specs.declared.value.Value.{Value};
ghost use Rattle.cat_model.specs.Effects.{effect};
ghost use Rattle.cat_model.specs.Trees.{next};
ghost use Rattle.cat_model.specs.Values.{Bytes, Named};
ghost use Rattle.cat_book.specs.Paths.{class_path, type_path};
ghost use Rattle.sound_loads.specs.Entries.{catalogue_named};
ghost use Rattle.sound_loads.specs.Relations.{RowsByOid};
ghost use Rattle.cat_sound.specs.Asked.{Asked};
ghost use Rattle.cat_sound.specs.Fit.{IsFit};
ghost use Rattle.cat_sound.specs.Sound.{IsMet, IsSound};
ghost use Rattle.cat_sound.specs.Texts.{Texts};
ghost use Rattle.entry_ids.specs.Ids.{of_keys, oids_of};
ghost use Rattle.model_laws.specs.Examples.{catalogue_after};
ghost use Rattle.entry_ids.specs.Standing.{AllStandFor};
ghost use Rattle.entry_ids.specs.Views.{AreKept};
ghost use Rattle.named_tables.specs.Oids.{AreOids, IsStarted};
ghost use Rattle.object_ids.specs.Ids.{IdsOf};
ghost use Rattle.object_ids.specs.Slots.{object};
ghost use Rattle.opening_ids.specs.Opening.{opening_ids};
ghost use Rattle.sound_rows.specs.Rows.{IsAmong};
ghost use Rattle.sound_loads.specs.Formed.{IsWellFormed};
ghost use Rattle.opening_laws.specs.Growing.{Grows};
ghost use Rattle.opening_laws.specs.Keeping.{BeganAs, KeepRows};

/// A relation that is there is what it was behind each statement, one that is refused too.
pub fn statements_leave_relations()
    ensures { (boot : Bytes) (s : Stmt) (named : Named) (q : QName) (v : Value) → get named (key.Rel q) ≡ Some v → get (next (effect boot s) named) (key.Rel q) ≡ Some v }
{}

/// So a catalogue in order grows as statements that are fit are carried out, where the boot role is there.
pub fn catalogues_grow()
    ensures step { (texts : Texts) (boot : Bytes) (s : Stmt) (named : Named) → IsSound texts named → IsFit texts s → IsMet named (key.Role boot, Asked.there) → Grows named (next (effect boot s) named) }
    ensures run { (texts : Texts) (boot : Bytes) (ss : List Stmt) (named : Named) → IsSound texts named → AllByRecursion (IsFit texts) ss → IsMet named (key.Role boot, Asked.there) → Grows named (catalogue_after boot ss named) }
{}

/// The relations and types of a well-formed opening have the oids of their rows, and a relation has no other.
pub fn relations_and_types_keep_oids()
    ensures relations { (cat : Catalogue) (r : ClassRow) (q : QName) → IsWellFormed cat → IsAmong r cat.pg_class → class_path cat.pg_namespace r ≡ Some q → get (opening_ids cat).ids (object (key.Rel q)) ≡ Some r.oid }
    ensures types { (cat : Catalogue) (r : TypeRow) (q : QName) → IsWellFormed cat → IsAmong r cat.pg_type → type_path cat.pg_namespace r ≡ Some q → get (opening_ids cat).ids (object (key.UserType q)) ≡ Some r.oid }
    ensures rows { (cat : Catalogue) (q : QName) (oid : ℕ) → get (opening_ids cat).ids (object (key.Rel q)) ≡ Some oid → (r : ClassRow) × IsAmong r cat.pg_class × (class_path cat.pg_namespace r ≡ Some q) × (r.oid ≡ oid) }
{}

/// What has grown from a well-formed opening has its boot role, by the oid of that role, and each of its databases, so the
/// current one.
pub fn openings_start()
    ensures { (texts : Texts) (cat : Catalogue) (rows : RowsByOid) (named : Named) (d : DatabaseRow) → IsWellFormed cat → IsSound texts named → Grows (catalogue_named cat rows) named → IsAmong d cat.pg_database → IsStarted named (of_keys (opening_ids cat)) d.datname }
{}

/// Tables that stand for what has grown from a well-formed opening, by oids that began as the opening's, keep of it what meets
/// the conditions of its tables: the columns of views, and dependencies.
pub fn kept_rows_meet_their_tables()
    ensures { (texts : Texts) (opening : Catalogue) (rows : RowsByOid) (named : Named) (ids : IdsOf) (number : QName → Bytes → ℤ) (current : Bytes) (cat : Catalogue) (held : RowsByOid) → IsWellFormed opening → IsSound texts named → Grows (catalogue_named opening rows) named → BeganAs opening ids → AreOids named (of_keys ids) → AllStandFor named (oids_of ids number) current opening.pg_depend cat held → KeepRows opening cat → AreKept cat }
{}
