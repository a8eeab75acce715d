//! Laws of the definitions, each the contract of a function that does nothing.
ghost use Rattle.std.specs.Prelude.{◌≡◌, Some};
ghost use Rattle.std.specs.FinMap.{get};
ghost use Rattle.cat_rows.specs.declared.catalogue.Catalogue.{Catalogue};
ghost use Rattle.cat_model.specs.declared.key.Key.{Key};
ghost use Rattle.cat_model.specs.declared.key.Key.TheVariants as key;
ghost use Rattle.cat_model.specs.declared.object.Object.{Object};
ghost use Rattle.cat_model.specs.declared.object.Object.TheVariants as object;
ghost use Rattle.cat_model.specs.declared.object.QName.{QName};
ghost use Rattle.cat_model.specs.declared.value.Value.{Value};
ghost use Rattle.cat_model.specs.Values.{Bytes};
ghost use Rattle.cat_naming.specs.Relations.{RowsByOid};
ghost use Rattle.cat_naming.specs.Entries.{catalogue_named};
ghost use Rattle.cat_names.specs.Naming.{boot};
ghost use Rattle.well_formed.specs.Formed.{IsWellFormed};
ghost use Rattle.cat_sound.specs.Asked.{Asked};
ghost use Rattle.cat_sound.specs.Beside.{IsBeside};
ghost use Rattle.cat_sound.specs.Sound.{IsMet, IsSoundAt, IsSound};
ghost use Rattle.cat_sound.specs.Texts.{Texts};
ghost use Rattle.sound_loads.specs.Origins.{Origin};
ghost use Rattle.sound_texts.specs.Grammar.{grammar};
ghost use Rattle.sound_loads.specs.InOrder.{IsInOrder, AreFit};
ghost use Rattle.sound_loads.specs.Reads.{Reads};

/// Whatever stands at a key of a catalogue by names stands for a row, or for a part of one, by the key's kind.
pub fn keys_stand_for_rows()
    ensures { (cat : Catalogue) (rows : RowsByOid) (k : Key) (v : Value) → get (catalogue_named cat rows) k ≡ Some v → Origin cat rows k v }
{}

/// Roles that are loaded are in order, and so are memberships: the three roles are there.
pub fn loaded_roles_are_in_order()
    ensures roles { (texts : Texts) (name : Bytes) → IsInOrder texts (key.Role name) }
    ensures memberships { (texts : Texts) (role member grantor : Bytes) → IsInOrder texts (key.Member role member grantor) }
{}

/// Databases are, with their owners, who are roles.
pub fn loaded_databases_are_in_order()
    ensures databases { (texts : Texts) (name : Bytes) → IsInOrder texts (key.Database name) }
    ensures owners { (texts : Texts) (name : Bytes) → IsInOrder texts (key.Owner (object.Database name)) }
{}

/// Schemas are, with their owners and grants: none is the system's own, and who has rights is a role and not the owner.
pub fn loaded_schemas_are_in_order()
    ensures schemas { (texts : Texts) (name : Bytes) → IsInOrder texts (key.Schema name) }
    ensures owners { (texts : Texts) (name : Bytes) → IsInOrder texts (key.Owner (object.Schema name)) }
    ensures grants { (texts : Texts) (name : Bytes) → IsInOrder texts (key.Acl (object.Schema name)) }
{}

/// The owners and the grants of tables, views and sequences are: the relation is there, and the rights are those of its kind.
pub fn loaded_rights_on_relations_are_in_order()
    ensures owners { (texts : Texts) (q : QName) → IsInOrder texts (key.Owner (object.Relation q)) }
    ensures grants { (texts : Texts) (q : QName) → IsInOrder texts (key.Acl (object.Relation q)) }
{}

/// The values of sequences are: each lies between the bounds of a sequence that is there.
pub fn loaded_values_of_sequences_are_in_order()
    ensures { (texts : Texts) (q : QName) → IsInOrder texts (key.SeqVal q) }
{}

/// Types are in order, where the texts that rows may hold are good: bases and defaults are named and met, checks are, and labels
/// are distinct. Their owners and grants are, whichever texts are good.
pub fn loaded_types_are_in_order()
    ensures types { (texts : Texts) → Reads texts → (q : QName) → IsInOrder texts (key.UserType q) }
    ensures owners { (texts : Texts) (q : QName) → IsInOrder texts (key.Owner (object.Type q)) }
    ensures grants { (texts : Texts) (q : QName) → IsInOrder texts (key.Acl (object.Type q)) }
{}

/// Tables, views, sequences and indexes are: a table's columns are 1600 at most, with distinct names and types that are there,
/// a sequence's numbers fit it, a view's body and an index's schema are there.
pub fn loaded_relations_are_in_order()
    ensures { (texts : Texts) → Reads texts → (q : QName) → IsInOrder texts (key.Rel q) }
{}

/// The defaults of columns are: each is one of a table that has the column, and what it refers to is there.
pub fn loaded_defaults_are_in_order()
    ensures { (texts : Texts) → Reads texts → (q : QName) (column : Bytes) → IsInOrder texts (key.Default q column) }
{}

/// Constraints of tables are, and indexes: their columns are there, with the relation of the index and the columns of the parent.
pub fn loaded_constraints_are_in_order()
    ensures constraints { (texts : Texts) → Reads texts → (q : QName) (name : Bytes) → IsInOrder texts (key.Con q name) }
    ensures indexes { (texts : Texts) → Reads texts → (q : QName) (name : Bytes) → IsInOrder texts (key.Index q name) }
{}

/// The bodies of views are: each is one of a view, and what it refers to is there.
pub fn loaded_bodies_are_in_order()
    ensures { (texts : Texts) → Reads texts → (q : QName) → IsInOrder texts (key.Body q) }
{}

/// The columns that own sequences are there, each of a table.
pub fn loaded_owning_columns_are_in_order()
    ensures { (texts : Texts) (q : QName) → IsInOrder texts (key.OwnedBy q) }
{}

/// Comments are on what is there: on schemas, types, relations, columns of tables and constraints of tables.
pub fn loaded_comments_are_in_order()
    ensures { (texts : Texts) (o : Object) → IsInOrder texts (key.Comment o) }
{}

/// Rows of tables are, where each has a field for each column.
pub fn loaded_rows_are_in_order()
    ensures { (texts : Texts) (cat : Catalogue) (rows : RowsByOid) (q : QName) (v : Value) → IsWellFormed cat → AreFit cat rows → get (catalogue_named cat rows) (key.Rows q) ≡ Some v → IsSoundAt texts (catalogue_named cat rows) (key.Rows q) v }
{}

/// As a whole: chains of domains end, a table has one primary key, an index is that of one key or stands alone, and the
/// parents of foreign keys have keys.
pub fn loaded_catalogues_are_in_order_as_a_whole()
    ensures { (cat : Catalogue) (rows : RowsByOid) → IsWellFormed cat → IsBeside (catalogue_named cat rows) }
{}

/// So what well-formed tables stand for is sound, where the rows fit and the texts that rows may hold are good.
pub fn what_is_loaded_is_sound()
    ensures { (texts : Texts) → Reads texts → (cat : Catalogue) (rows : RowsByOid) → IsWellFormed cat → AreFit cat rows → IsSound texts (catalogue_named cat rows) }
{}

/// The role to which new objects belong is there.
pub fn the_boot_role_is_there()
    ensures { (cat : Catalogue) (rows : RowsByOid) → IsWellFormed cat → (name : Bytes) × (boot cat ≡ Some name) × IsMet (catalogue_named cat rows) (key.Role name, Asked.there) }
{}

/// The texts that rows may hold are good by the grammar of statements.
pub fn the_grammar_takes_what_rows_hold()
    ensures { Reads grammar }
{}
