//! Worked examples: what is in order, and what isn't. Each is the contract of a function that does nothing.
ghost use Rattle.std.specs.Prelude.{◌≡◌, ◌==◌, ℤ, Bool, true, false, List, ◌∷◌, Option, Some, None, codes, length};
ghost use Rattle.std.specs.FinMap.{get};
ghost use Rattle.cat_model.specs.Grants.{table_rights};
ghost use Rattle.cat_model.specs.References.{is_system};
ghost use Rattle.cat_model.specs.RelationEffects.{within};
ghost use Rattle.cat_model.specs.Tables.{columns_there};
ghost use Rattle.cat_model.specs.Values.{Bytes, Named, Grants, Row};
ghost use Rattle.cat_model.specs.declared.holder.Holder.{Holder};
ghost use Rattle.cat_model.specs.declared.holder.Holder.TheVariants.{Role as ROLE};
ghost use Rattle.cat_model.specs.declared.holder.Item.{Item};
ghost use Rattle.cat_model.specs.declared.key.Key.TheVariants as key;
ghost use Rattle.cat_model.specs.declared.object.Object.{Object};
ghost use Rattle.cat_model.specs.declared.object.Object.TheVariants as object;
ghost use Rattle.cat_model.specs.declared.object.QName.{QName};
ghost use Rattle.cat_model.specs.declared.type_name.TypeName.TheVariants.{Path};
ghost use Rattle.cat_model.specs.declared.value.Column.{Column};
ghost use Rattle.cat_model.specs.declared.value.Constraint.{Constraint};
ghost use Rattle.cat_model.specs.declared.value.Domain.{Domain};
ghost use Rattle.cat_model.specs.declared.value.Sequence.{Sequence};
ghost use Rattle.cat_model.specs.declared.value.Value.{Value};
ghost use Rattle.cat_model.specs.declared.value.Value.TheVariants as value;
ghost use Rattle.model_laws.specs.Examples.{catalogue_after, postgres};
ghost use Rattle.model_laws.specs.Runs.{empty_cluster, run_one, run_two, run_three, run_four};
ghost use Rattle.cat_sound.specs.Beside.{is_primary_at, HasKey};
ghost use Rattle.cat_sound.specs.Examples.{all_good};
ghost use Rattle.cat_sound.specs.Rights.{is_within};
ghost use Rattle.cat_sound.specs.Sound.{IsSound};
ghost use Rattle.cat_sound.specs.Texts.{Texts};

/// The export of an empty cluster is in order, whichever texts are good.
pub fn an_empty_cluster_is_sound()
    ensures { (texts : Texts) → IsSound texts empty_cluster }
{}

/// Where all texts are good, so is what runs of statements leave behind the export of an empty cluster.
pub fn what_runs_leave_is_sound()
    ensures one { IsSound all_good (catalogue_after postgres run_one empty_cluster) }
    ensures two { IsSound all_good (catalogue_after postgres run_two empty_cluster) }
    ensures three { IsSound all_good (catalogue_after postgres run_three empty_cluster) }
    ensures four { IsSound all_good (catalogue_after postgres run_four empty_cluster) }
{}

/// A relation whose schema isn't there; a role `public`; an owner that is no role; a table without an owner; rights that a
/// table hasn't; and rights of a role that isn't there.
pub fn what_lacks_a_role_or_schema_is_not_sound()
    ensures schema { (texts : Texts) (named : Named) (q : QName) (v : Value) → get named (key.Rel q) ≡ Some v → get named (key.Schema q.schema) ≡ None → IsSound texts named → ⊥ }
    ensures public { (texts : Texts) (named : Named) (v : Value) → get named (key.Role (codes "public")) ≡ Some v → IsSound texts named → ⊥ }
    ensures role { (texts : Texts) (named : Named) (o : Object) (role : Bytes) → get named (key.Owner o) ≡ Some (value.Owner role) → get named (key.Role role) ≡ None → IsSound texts named → ⊥ }
    ensures owner { (texts : Texts) (named : Named) (q : QName) (columns : List Column) → get named (key.Rel q) ≡ Some (value.Table columns) → get named (key.Owner (object.Relation q)) ≡ None → IsSound texts named → ⊥ }
    ensures rights { (texts : Texts) (named : Named) (q : QName) (grants : Grants) (h : Holder) (item : Item) (columns : List Column) → get named (key.Acl (object.Relation q)) ≡ Some (value.Grants grants) → get named (key.Rel q) ≡ Some (value.Table columns) → get grants h ≡ Some item → is_within item.rights table_rights ≡ false → IsSound texts named → ⊥ }
    ensures grantee { (texts : Texts) (named : Named) (o : Object) (grants : Grants) (name : Bytes) (item : Item) → get named (key.Acl o) ≡ Some (value.Grants grants) → get grants (ROLE name) ≡ Some item → get named (key.Role name) ≡ None → IsSound texts named → ⊥ }
{}

/// A constraint on a column that isn't there; a row with another number of fields than the table has columns; and a
/// sequence's value that doesn't lie between its bounds.
pub fn what_does_not_fit_its_table_is_not_sound()
    ensures column { (texts : Texts) (named : Named) (q : QName) (name : Bytes) (c : Constraint) (columns : List Column) → get named (key.Con q name) ≡ Some (value.Constraint c) → get named (key.Rel q) ≡ Some (value.Table columns) → columns_there columns c.columns ≡ false → IsSound texts named → ⊥ }
    ensures row { (texts : Texts) (named : Named) (q : QName) (row : Row) (rows : List Row) (columns : List Column) → get named (key.Rows q) ≡ Some (value.Rows (row ∷ rows)) → get named (key.Rel q) ≡ Some (value.Table columns) → (length row == length columns) ≡ false → IsSound texts named → ⊥ }
    ensures number { (texts : Texts) (named : Named) (q : QName) (n : ℤ) (called : Bool) (s : Sequence) → get named (key.SeqVal q) ≡ Some (value.SequenceValue n called) → get named (key.Rel q) ≡ Some (value.Sequence s) → within s.min s.max n ≡ false → IsSound texts named → ⊥ }
{}

/// A domain over itself; a second primary key of a table; a foreign key whose parent has no key on its columns; and the
/// relation of an index that neither a key nor an index has.
pub fn what_is_wrong_as_a_whole_is_not_sound()
    ensures domain { (texts : Texts) (named : Named) (q : QName) (d : Domain) → get named (key.UserType q) ≡ Some (value.Domain d) → d.base ≡ Path q → is_system q.schema ≡ false → IsSound texts named → ⊥ }
    ensures primary { (texts : Texts) (named : Named) (q : QName) (name other : Bytes) → is_primary_at (get named (key.Con q name)) ≡ true → is_primary_at (get named (key.Con q other)) ≡ true → (name ≡ other → ⊥) → IsSound texts named → ⊥ }
    ensures parent { (texts : Texts) (named : Named) (q parent : QName) (name : Bytes) (names : List Bytes) (c : Constraint) → get named (key.Con q name) ≡ Some (value.Constraint c) → c.parent ≡ Some (parent, names) → (HasKey named parent names → ⊥) → IsSound texts named → ⊥ }
    ensures index { (texts : Texts) (named : Named) (q table : QName) → get named (key.Rel q) ≡ Some (value.IndexOf table) → get named (key.Con table q.name) ≡ None → get named (key.Index table q.name) ≡ None → IsSound texts named → ⊥ }
{}
