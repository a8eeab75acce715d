//! Tables that stand for a catalogue which is in order meet their conditions, and what they are named as is that catalogue.
//! Each law is the contract of a function that does nothing.
ghost use Rattle.std.specs.Prelude.{◌≡◌, List, Some};
ghost use Rattle.std.specs.FinMap.{get, from_entries, retain_keys};
ghost use Rattle.std.specs.List.{flat_map};
ghost use Rattle.cat_book.specs.Meets.{Meets};
ghost use Rattle.cat_model.specs.Values.{Bytes, Named};
ghost use Rattle.cat_model.specs.declared.key.Key.{Key};
ghost use Rattle.cat_model.specs.declared.key.Key.TheVariants as key;
ghost use Rattle.cat_model.specs.declared.object.QName.{QName};
ghost use Rattle.cat_model.specs.declared.value.Value.TheVariants as value;
ghost use Rattle.cat_naming.specs.Comments.{comment_entries};
ghost use Rattle.cat_naming.specs.Constraints.{constraint_entries, index_entries};
ghost use Rattle.cat_naming.specs.Entries.{catalogue_named};
ghost use Rattle.cat_naming.specs.Relations.{RowsByOid, body_entries, class_entries, default_entries, sequence_entries};
ghost use Rattle.cat_naming.specs.Types.{type_entries};
ghost use Rattle.cat_rows.specs.declared.catalogue.Catalogue.{Catalogue};
ghost use Rattle.cat_rows.specs.declared.notes.DependRow.{DependRow};
ghost use Rattle.cat_sound.specs.Sound.{IsSound};
ghost use Rattle.cat_sound.specs.Texts.{Texts};
ghost use Rattle.constraint_table.specs.Table.{constraint_rules};
ghost use Rattle.named_objects.specs.Examples.{Empty, Rows, Others};
ghost use Rattle.named_objects.specs.Kinds.{of_bodies, of_comments, of_constraints, of_defaults, of_indexes, of_relations, of_sequences, of_types, kept, named_as};
ghost use Rattle.named_objects.specs.Oids.{ObjectOids, AreNumbers, AreCheckOids, AreLabelOids};
ghost use Rattle.named_objects.specs.Standing.{AllStandFor};
ghost use Rattle.named_objects.specs.Views.{AreKept};
ghost use Rattle.named_tables.specs.Oids.{AreOids, IsStarted};
ghost use Rattle.plain_tables.specs.Comments.{comment_rules};
ghost use Rattle.plain_tables.specs.Labels.{label_rules};
ghost use Rattle.plain_tables.specs.Relations.{relation_rules};
ghost use Rattle.well_formed.specs.Columns.{column_rules, default_rules};
ghost use Rattle.well_formed.specs.Indexes.{index_rules};
ghost use Rattle.well_formed.specs.Sequences.{sequence_rules};
ghost use Rattle.well_formed.specs.Types.{type_rules};
ghost use Rattle.well_formed.specs.Views.{view_rules};
ghost use Rattle.cat_naming.specs.Ends.{labels_of};
ghost use Rattle.well_formed.specs.Formed.{IsWellFormed};

/// The rows of pg_rewrite meet the table's conditions.
pub fn bodies_meet_their_table()
    ensures { (texts : Texts) (named : Named) (oids : ObjectOids) (current : Bytes) (depends : List DependRow) (cat : Catalogue) (rows : RowsByOid) → IsSound texts named → AreOids named oids.of → AllStandFor named oids current depends cat rows → Meets view_rules cat cat.pg_rewrite }
{}

/// They stand for the bodies of views.
pub fn bodies_are_named()
    ensures { (texts : Texts) (named : Named) (oids : ObjectOids) (current : Bytes) (depends : List DependRow) (cat : Catalogue) (rows : RowsByOid) → IsSound texts named → AreOids named oids.of → AllStandFor named oids current depends cat rows → from_entries (flat_map (body_entries cat) cat.pg_rewrite) ≡ retain_keys named of_bodies }
{}

/// The rows of pg_attrdef meet the table's conditions.
pub fn defaults_meet_their_table()
    ensures { (texts : Texts) (named : Named) (oids : ObjectOids) (current : Bytes) (depends : List DependRow) (cat : Catalogue) (rows : RowsByOid) → IsSound texts named → AreOids named oids.of → AreNumbers named oids.number → AllStandFor named oids current depends cat rows → Meets default_rules cat cat.pg_attrdef }
{}

/// They stand for the defaults of columns.
pub fn defaults_are_named()
    ensures { (texts : Texts) (named : Named) (oids : ObjectOids) (current : Bytes) (depends : List DependRow) (cat : Catalogue) (rows : RowsByOid) → IsSound texts named → AreOids named oids.of → AreNumbers named oids.number → AllStandFor named oids current depends cat rows → from_entries (flat_map (default_entries cat) cat.pg_attrdef) ≡ retain_keys named of_defaults }
{}

/// The rows of pg_constraint stand for the constraints of tables.
pub fn constraints_are_named()
    ensures { (texts : Texts) (named : Named) (oids : ObjectOids) (current : Bytes) (depends : List DependRow) (cat : Catalogue) (rows : RowsByOid) → IsSound texts named → AreOids named oids.of → AllStandFor named oids current depends cat rows → from_entries (flat_map (constraint_entries cat) cat.pg_constraint) ≡ retain_keys named of_constraints }
{}

/// The rows of pg_index meet the table's conditions.
pub fn indexes_meet_their_table()
    ensures { (texts : Texts) (named : Named) (oids : ObjectOids) (current : Bytes) (depends : List DependRow) (cat : Catalogue) (rows : RowsByOid) → IsSound texts named → AreOids named oids.of → AreNumbers named oids.number → AllStandFor named oids current depends cat rows → Meets index_rules cat cat.pg_index }
{}

/// They stand for the indexes that aren't a constraint's.
pub fn indexes_are_named()
    ensures { (texts : Texts) (named : Named) (oids : ObjectOids) (current : Bytes) (depends : List DependRow) (cat : Catalogue) (rows : RowsByOid) → IsSound texts named → AreOids named oids.of → AllStandFor named oids current depends cat rows → from_entries (flat_map index_entries cat.pg_index) ≡ retain_keys named of_indexes }
{}

/// The rows of pg_description meet the table's conditions.
pub fn comments_meet_their_table()
    ensures { (texts : Texts) (named : Named) (oids : ObjectOids) (current : Bytes) (depends : List DependRow) (cat : Catalogue) (rows : RowsByOid) → IsSound texts named → AreOids named oids.of → AreNumbers named oids.number → AreCheckOids named oids → AllStandFor named oids current depends cat rows → Meets comment_rules cat cat.pg_description }
{}

/// They stand for the comments.
pub fn comments_are_named()
    ensures { (texts : Texts) (named : Named) (oids : ObjectOids) (current : Bytes) (depends : List DependRow) (cat : Catalogue) (rows : RowsByOid) → IsSound texts named → AreOids named oids.of → AreNumbers named oids.number → AreCheckOids named oids → AllStandFor named oids current depends cat rows → from_entries (flat_map (comment_entries cat) cat.pg_description) ≡ retain_keys named of_comments }
{}

/// The rows of pg_sequence meet the table's conditions.
pub fn sequences_meet_their_table()
    ensures { (texts : Texts) (named : Named) (oids : ObjectOids) (current : Bytes) (depends : List DependRow) (cat : Catalogue) (rows : RowsByOid) → IsSound texts named → AreOids named oids.of → AreNumbers named oids.number → AllStandFor named oids current depends cat rows → Meets sequence_rules cat cat.pg_sequence }
{}

/// They stand for the sequences, their values, and the columns that own them.
pub fn sequences_are_named()
    ensures { (texts : Texts) (named : Named) (oids : ObjectOids) (current : Bytes) (depends : List DependRow) (cat : Catalogue) (rows : RowsByOid) → IsSound texts named → AreOids named oids.of → AreNumbers named oids.number → AllStandFor named oids current depends cat rows → (k : Key) → get (named_as (flat_map (sequence_entries cat) cat.pg_sequence)) k ≡ kept of_sequences k (get named k) }
{}

/// The rows of pg_class meet the table's conditions.
pub fn relations_meet_their_table()
    ensures { (texts : Texts) (named : Named) (oids : ObjectOids) (current : Bytes) (depends : List DependRow) (cat : Catalogue) (rows : RowsByOid) → IsSound texts named → AreOids named oids.of → AreNumbers named oids.number → AllStandFor named oids current depends cat rows → Meets relation_rules cat cat.pg_class }
{}

/// The rows of pg_constraint meet the table's conditions.
pub fn constraints_meet_their_table()
    ensures { (texts : Texts) (named : Named) (oids : ObjectOids) (current : Bytes) (depends : List DependRow) (cat : Catalogue) (rows : RowsByOid) → IsSound texts named → AreOids named oids.of → AreNumbers named oids.number → AreCheckOids named oids → AllStandFor named oids current depends cat rows → Meets constraint_rules cat cat.pg_constraint }
{}

/// The labels of an enum by rows are its labels, in their order.
pub fn labels_are_named()
    ensures { (texts : Texts) (named : Named) (oids : ObjectOids) (current : Bytes) (depends : List DependRow) (cat : Catalogue) (rows : RowsByOid) → IsSound texts named → AreOids named oids.of → AllStandFor named oids current depends cat rows → (q : QName) (labels : List Bytes) → get named (key.UserType q) ≡ Some (value.Enum labels) → labels_of cat (oids.of (key.UserType q)) ≡ labels }
{}

/// The rows of pg_type, with those of labels and checks, stand for the enums and domains with their owners and grants.
pub fn types_are_named()
    ensures { (texts : Texts) (named : Named) (oids : ObjectOids) (current : Bytes) (depends : List DependRow) (cat : Catalogue) (rows : RowsByOid) → IsSound texts named → AreOids named oids.of → AllStandFor named oids current depends cat rows → from_entries (flat_map (type_entries cat) cat.pg_type) ≡ retain_keys named of_types }
{}

/// The rows of pg_class, with those of columns, indexes and keys and with the rows of tables, stand for the relations other
/// than sequences, the rows of tables, and the owners and grants of relations.
pub fn relations_are_named()
    ensures { (texts : Texts) (named : Named) (oids : ObjectOids) (current : Bytes) (depends : List DependRow) (cat : Catalogue) (rows : RowsByOid) → IsSound texts named → AreOids named oids.of → AreNumbers named oids.number → AllStandFor named oids current depends cat rows → (k : Key) → get (named_as (flat_map (class_entries cat rows) cat.pg_class)) k ≡ kept of_relations k (get named k) }
{}

/// Fifteen tables and rows of tables that stand for a catalogue which is in order are named as this catalogue.
pub fn catalogues_are_named()
    ensures { (texts : Texts) (named : Named) (oids : ObjectOids) (current : Bytes) (depends : List DependRow) (cat : Catalogue) (rows : RowsByOid) → IsSound texts named → AreOids named oids.of → AreNumbers named oids.number → AreCheckOids named oids → AllStandFor named oids current depends cat rows → catalogue_named cat rows ≡ named }
{}

/// The rows of pg_type meet the table's conditions.
pub fn types_meet_their_table()
    ensures { (texts : Texts) (named : Named) (oids : ObjectOids) (current : Bytes) (depends : List DependRow) (cat : Catalogue) (rows : RowsByOid) → IsSound texts named → AreOids named oids.of → AllStandFor named oids current depends cat rows → Meets type_rules cat cat.pg_type }
{}

/// The rows of pg_enum meet the table's conditions.
pub fn labels_meet_their_table()
    ensures { (texts : Texts) (named : Named) (oids : ObjectOids) (current : Bytes) (depends : List DependRow) (cat : Catalogue) (rows : RowsByOid) → IsSound texts named → AreOids named oids.of → AreLabelOids named oids → AllStandFor named oids current depends cat rows → Meets label_rules cat cat.pg_enum }
{}

/// The rows of pg_attribute meet the table's conditions, where those of the columns of views do.
pub fn columns_meet_their_table()
    ensures { (texts : Texts) (named : Named) (oids : ObjectOids) (current : Bytes) (depends : List DependRow) (cat : Catalogue) (rows : RowsByOid) → IsSound texts named → AreOids named oids.of → AreNumbers named oids.number → AreKept cat → AllStandFor named oids current depends cat rows → Meets column_rules cat cat.pg_attribute }
{}

/// Fifteen tables that stand for a catalogue which is in order are well-formed, where what they keep of the opening meets
/// the conditions of its tables: the columns of views, and dependencies.
pub fn catalogues_are_well_formed()
    ensures { (texts : Texts) (named : Named) (oids : ObjectOids) (current : Bytes) (depends : List DependRow) (cat : Catalogue) (rows : RowsByOid) → IsSound texts named → AreOids named oids.of → IsStarted named oids.of current → AreNumbers named oids.number → AreCheckOids named oids → AreLabelOids named oids → AreKept cat → AllStandFor named oids current depends cat rows → IsWellFormed cat }
{}

/// Worked examples: the tables of an empty cluster stand for it, with all that these laws ask for; rows of a small catalogue
/// with what they stand for, and rows that differ in one thing and don't.
pub fn tables_meet_the_examples()
    ensures empty { Empty }
    ensures rows { Rows }
    ensures others { Others }
{}
