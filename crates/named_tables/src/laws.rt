//! Tables that stand for a catalogue which is in order meet their conditions, and what they are named as is that catalogue.
//! Each law is the contract of a function that does nothing.
ghost use Rattle.std.specs.Prelude.{◌≡◌, false, List, Option, Some};
ghost use Rattle.std.specs.FinMap.{get, from_entries, retain_keys};
ghost use Rattle.std.specs.List.{flat_map};
ghost use Rattle.acl_text.specs.declared.list.AclItem.{AclItem};
ghost use Rattle.plain_tables.specs.Meets.{Meets};
ghost use Rattle.cat_model.specs.Lexemes.{same_text};
ghost use Rattle.cat_model.specs.Values.{Bytes, Named, Grants};
ghost use Rattle.cat_model.specs.declared.holder.Holder.TheVariants.{Role as ROLE};
ghost use Rattle.cat_model.specs.declared.holder.Item.{Item};
ghost use Rattle.cat_names.specs.Grants.{grants_of};
ghost use Rattle.cat_names.specs.Naming.{role_entries, member_entries, database_entries, schema_entries, cluster_named};
ghost use Rattle.cat_names.specs.declared.rights.GrantKind.{GrantKind};
ghost use Rattle.cat_rows.specs.declared.catalogue.Catalogue.{Catalogue};
ghost use Rattle.cat_sound.specs.Rights.{AreItems};
ghost use Rattle.cat_sound.specs.Sound.{IsSound};
ghost use Rattle.cat_sound.specs.Texts.{Texts};
ghost use Rattle.named_tables.specs.Cluster.{StandsFor};
ghost use Rattle.named_tables.specs.Examples.{Empty, Others, Values};
ghost use Rattle.named_tables.specs.Kinds.{of_roles, of_members, of_databases, of_schemas, of_cluster};
ghost use Rattle.named_tables.specs.Oids.{Oids, AreOids, IsStarted};
ghost use Rattle.named_tables.specs.Rights.{IsAcl};
ghost use Rattle.plain_tables.specs.Roles.{role_rules, member_rules, database_rules};
ghost use Rattle.plain_tables.specs.Schemas.{schema_rules};

/// The rows of pg_authid meet the table's conditions.
pub fn roles_meet_their_table()
    ensures { (texts : Texts) (named : Named) (oids : Oids) (current : Bytes) (cat : Catalogue) → IsSound texts named → AreOids named oids → IsStarted named oids current → StandsFor named oids current cat → Meets role_rules cat cat.pg_authid }
{}

/// They stand for the roles of the catalogue.
pub fn roles_are_named()
    ensures { (texts : Texts) (named : Named) (oids : Oids) (current : Bytes) (cat : Catalogue) → IsSound texts named → AreOids named oids → StandsFor named oids current cat → from_entries (flat_map role_entries cat.pg_authid) ≡ retain_keys named of_roles }
{}

/// The rows of pg_auth_members meet the table's conditions.
pub fn members_meet_their_table()
    ensures { (texts : Texts) (named : Named) (oids : Oids) (current : Bytes) (cat : Catalogue) → IsSound texts named → AreOids named oids → StandsFor named oids current cat → Meets member_rules cat cat.pg_auth_members }
{}

/// They stand for the memberships.
pub fn members_are_named()
    ensures { (texts : Texts) (named : Named) (oids : Oids) (current : Bytes) (cat : Catalogue) → IsSound texts named → AreOids named oids → StandsFor named oids current cat → from_entries (flat_map (member_entries cat.pg_authid) cat.pg_auth_members) ≡ retain_keys named of_members }
{}

/// The rows of pg_database meet the table's conditions.
pub fn databases_meet_their_table()
    ensures { (texts : Texts) (named : Named) (oids : Oids) (current : Bytes) (cat : Catalogue) → IsSound texts named → AreOids named oids → IsStarted named oids current → StandsFor named oids current cat → Meets database_rules cat cat.pg_database }
{}

/// They stand for the databases and their owners.
pub fn databases_are_named()
    ensures { (texts : Texts) (named : Named) (oids : Oids) (current : Bytes) (cat : Catalogue) → IsSound texts named → AreOids named oids → StandsFor named oids current cat → from_entries (flat_map (database_entries cat.pg_authid) cat.pg_database) ≡ retain_keys named of_databases }
{}

/// The rows of pg_namespace meet the table's conditions.
pub fn schemas_meet_their_table()
    ensures { (texts : Texts) (named : Named) (oids : Oids) (current : Bytes) (cat : Catalogue) → IsSound texts named → AreOids named oids → StandsFor named oids current cat → Meets schema_rules cat cat.pg_namespace }
{}

/// They stand for the schemas with their owners and grants.
pub fn schemas_are_named()
    ensures { (texts : Texts) (named : Named) (oids : Oids) (current : Bytes) (cat : Catalogue) → IsSound texts named → AreOids named oids → StandsFor named oids current cat → from_entries (flat_map (schema_entries cat.pg_authid) cat.pg_namespace) ≡ retain_keys named of_schemas }
{}

/// All four stand for what the catalogue has of the cluster, with its schemas.
pub fn clusters_are_named()
    ensures { (texts : Texts) (named : Named) (oids : Oids) (current : Bytes) (cat : Catalogue) → IsSound texts named → AreOids named oids → StandsFor named oids current cat → cluster_named cat ≡ retain_keys named of_cluster }
{}

/// Grants whose items are in order, none of the owner by name, are what the list that is written for them is named as.
pub fn rights_are_named()
    ensures { (kind : GrantKind) (owner : Bytes) (grants : Grants) (acl : Option (List AclItem)) → AreItems grants → ((name : Bytes) (item : Item) → get grants (ROLE name) ≡ Some item → same_text owner name ≡ false) → IsAcl kind owner grants acl → grants_of kind owner acl ≡ grants }
{}

/// Worked examples: the rows of an empty cluster stand for it, rows that differ from them in one thing don't, and the
/// cells of some rows.
pub fn clusters_meet_the_examples()
    ensures empty { Empty }
    ensures others { Others }
    ensures values { Values }
{}
