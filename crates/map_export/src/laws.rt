//! Tables made of the entries of a catalogue stand for it. Each law is the contract of a function that does nothing.
ghost use Rattle.std.specs.Prelude.{◌≡◌};
ghost use Rattle.std.specs.FinMap.{entries};
ghost use Rattle.std.specs.List.{filter_map};
ghost use Rattle.cat_model.specs.Values.{Bytes, Named};
ghost use Rattle.cat_rows.specs.declared.catalogue.Catalogue.{Catalogue};
ghost use Rattle.named_tables.specs.Cluster.{StandsFor, role_row, member_row, database_row, IsSchemaRow};
ghost use Rattle.named_tables.specs.Oids.{Oids, AreOids};
ghost use Rattle.map_export.specs.Making.{AreSaid};
ghost use Rattle.map_export.specs.Things.{role_in, member_in, database_in, schema_in};

/// The rows of roles, memberships, databases and schemas, one of each in the order of keys, stand for the catalogue where the
/// oids of its objects are apart.
pub fn clusters_stand()
    ensures { (named : Named) (oids : Oids) (current : Bytes) (cat : Catalogue) → AreOids named oids → AreSaid (λ r row. row ≡ role_row oids r) (filter_map role_in (entries named)) cat.pg_authid → AreSaid (λ m row. row ≡ member_row oids m) (filter_map member_in (entries named)) cat.pg_auth_members → AreSaid (λ d row. row ≡ database_row oids current d) (filter_map (database_in named) (entries named)) cat.pg_database → AreSaid (IsSchemaRow oids) (filter_map (schema_in named) (entries named)) cat.pg_namespace → StandsFor named oids current cat }
{}
