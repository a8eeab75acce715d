//! The rows of a well-formed opening give their oids. Each law is the contract of a function that does nothing.
ghost use Rattle.std.specs.Prelude.{◌≡◌, ℕ, Some};
ghost use Rattle.std.specs.FinMap.{get};
ghost use Rattle.std.specs.List.{slice_get};
ghost use Rattle.cat_book.specs.Meets.{Meets};
ghost use Rattle.cat_model.specs.declared.key.Key.TheVariants as key;
ghost use Rattle.cat_rows.specs.declared.catalogue.Catalogue.{Catalogue};
ghost use Rattle.cat_rows.specs.declared.roles.AuthidRow.{AuthidRow};
ghost use Rattle.cat_rows.specs.declared.roles.DatabaseRow.{DatabaseRow};
ghost use Rattle.cat_rows.specs.declared.schemas.NamespaceRow.{NamespaceRow};
ghost use Rattle.object_ids.specs.Slots.{object};
ghost use Rattle.opening_ids.specs.Opening.{opening_ids};
ghost use Rattle.plain_tables.specs.Roles.{role_rules, database_rules};
ghost use Rattle.plain_tables.specs.Schemas.{schema_rules};

/// Roles, databases and schemas have the oids of their rows, where these meet the conditions of their tables.
pub fn oids_are_kept()
    ensures roles { (cat : Catalogue) (i : ℕ) (r : AuthidRow) → Meets role_rules cat cat.pg_authid → slice_get cat.pg_authid i ≡ Some r → get (opening_ids cat).ids (object (key.Role r.rolname)) ≡ Some r.oid }
    ensures databases { (cat : Catalogue) (i : ℕ) (r : DatabaseRow) → Meets database_rules cat cat.pg_database → slice_get cat.pg_database i ≡ Some r → get (opening_ids cat).ids (object (key.Database r.datname)) ≡ Some r.oid }
    ensures schemas { (cat : Catalogue) (i : ℕ) (r : NamespaceRow) → Meets schema_rules cat cat.pg_namespace → slice_get cat.pg_namespace i ≡ Some r → get (opening_ids cat).ids (object (key.Schema r.nspname)) ≡ Some r.oid }
{}
