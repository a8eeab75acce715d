//! Each statement leaves a catalogue in order: each law is the contract of a function that does nothing. A statement that
//! is refused changes nothing.
ghost use Rattle.std.specs.List.{AllByRecursion};
ghost use Rattle.std.specs.Prelude.{◌≡◌, ℤ, Bool, true, false, List, Option, Some, None};
ghost use Rattle.cat_model.specs.CopyEffect.{copy_rows};
ghost use Rattle.cat_model.specs.Effects.{effect};
ghost use Rattle.cat_model.specs.Grants.{granted, revoked};
ghost use Rattle.cat_model.specs.KeyEffects.{add_primary, add_unique, add_foreign, add_check, create_index, create_unique_index};
ghost use Rattle.cat_model.specs.ObjectEffects.{create_schema, owner_to, change_grants, comment_on};
ghost use Rattle.cat_model.specs.RelationEffects.{create_table, set_default, create_sequence, owned_by, set_value, create_view, replace_view};
ghost use Rattle.cat_model.specs.RoleEffects.{create_role, alter_role, grant_role, create_database};
ghost use Rattle.cat_model.specs.Trees.{next};
ghost use Rattle.cat_model.specs.TypeEffects.{create_enum, create_domain, add_domain_check};
ghost use Rattle.cat_model.specs.Values.{Bytes, Named};
ghost use Rattle.cat_model.specs.declared.constraint.ConstraintKind.TheVariants as kinds;
ghost use Rattle.cat_model.specs.declared.grant.Commented.{Commented};
ghost use Rattle.cat_model.specs.declared.grant.Granted.{Granted};
ghost use Rattle.cat_model.specs.declared.grant.Grantee.{Grantee};
ghost use Rattle.cat_model.specs.declared.grant.Owned.{Owned};
ghost use Rattle.cat_model.specs.declared.grant.Rights.{Rights};
ghost use Rattle.cat_model.specs.declared.key.Key.{Key};
ghost use Rattle.cat_model.specs.declared.key.Key.TheVariants as key;
ghost use Rattle.cat_model.specs.declared.object.QName.{QName};
ghost use Rattle.cat_model.specs.declared.stmt.Stmt.{Stmt};
ghost use Rattle.cat_model.specs.declared.table.CheckDef.{CheckDef};
ghost use Rattle.cat_model.specs.declared.table.ColumnDef.{ColumnDef};
ghost use Rattle.cat_model.specs.declared.table.RoleChanges.{RoleChanges};
ghost use Rattle.cat_model.specs.declared.type_name.TypeName.{TypeName};
ghost use Rattle.cat_model.specs.declared.value.Sequence.{Sequence};
ghost use Rattle.model_laws.specs.Examples.{catalogue_after};
ghost use Rattle.cat_sound.specs.Asked.{Asked};
ghost use Rattle.cat_sound.specs.Fit.{IsFit, AreFitColumns, AreFitChecks};
ghost use Rattle.cat_sound.specs.Itself.{IsDefault, check_of};
ghost use Rattle.cat_sound.specs.Rights.{is_within, rights_on};
ghost use Rattle.cat_sound.specs.Sound.{is_comment, IsMet, IsSound};
ghost use Rattle.cat_sound.specs.Texts.{Texts};

/// Every statement that is fit leaves a catalogue in order that was in order, where the boot role is there.
pub fn statements_keep()
    ensures { (texts : Texts) (boot : Bytes) (s : Stmt) (named : Named) → IsSound texts named → IsFit texts s → IsMet named (key.Role boot, Asked.there) → IsSound texts (next (effect boot s) named) }
{}

/// Whatever is there stays there behind a statement that is fit, but for comments: the boot role too, and the databases.
pub fn statements_leave_what_is_there()
    ensures { (texts : Texts) (boot : Bytes) (s : Stmt) (named : Named) (k : Key) → IsSound texts named → IsFit texts s → IsMet named (key.Role boot, Asked.there) → is_comment k ≡ false → IsMet named (k, Asked.there) → IsMet (next (effect boot s) named) (k, Asked.there) }
{}

/// So a run of fit statements leaves a catalogue in order.
pub fn runs_keep()
    ensures { (texts : Texts) (boot : Bytes) (ss : List Stmt) (named : Named) → IsSound texts named → AllByRecursion (IsFit texts) ss → IsMet named (key.Role boot, Asked.there) → IsSound texts (catalogue_after boot ss named) }
{}

/// CREATE SCHEMA leaves a sound catalogue sound, where the boot role is there.
pub fn create_schema_keeps()
    ensures { (texts : Texts) (named : Named) (boot name : Bytes) → IsSound texts named → IsMet named (key.Role boot, Asked.there) → IsSound texts (next (create_schema boot name) named) }
{}

/// CREATE TYPE .. AS ENUM leaves it so, where the boot role is there.
pub fn create_enum_keeps()
    ensures { (texts : Texts) (named : Named) (boot : Bytes) (q : QName) (labels : List Bytes) → IsSound texts named → IsMet named (key.Role boot, Asked.there) → IsSound texts (next (create_enum boot q labels) named) }
{}

/// CREATE DOMAIN, where the boot role is there, and the texts of the base, the default and the checks are good.
pub fn create_domain_keeps()
    ensures { (texts : Texts) (named : Named) (boot : Bytes) (q : QName) (base : TypeName) (not_null : Bool) (expression : Option Bytes) (checks : List CheckDef) → IsSound texts named → IsMet named (key.Role boot, Asked.there) → texts.type base ≡ true → IsDefault texts expression → AreFitChecks texts checks → IsSound texts (next (create_domain boot q base not_null expression checks) named) }
{}

/// ALTER DOMAIN .. ADD CONSTRAINT, where the text of the check is good.
pub fn add_domain_check_keeps()
    ensures { (texts : Texts) (named : Named) (q : QName) (name text : Bytes) → IsSound texts named → texts.constraint (check_of text) ≡ true → IsSound texts (next (add_domain_check q name text) named) }
{}

/// CREATE TABLE, where the boot role is there, and the texts of the columns' types and defaults and of the checks are good.
pub fn create_table_keeps()
    ensures { (texts : Texts) (named : Named) (boot : Bytes) (q : QName) (columns : List ColumnDef) (checks : List CheckDef) → IsSound texts named → IsMet named (key.Role boot, Asked.there) → AreFitColumns texts columns → AreFitChecks texts checks → IsSound texts (next (create_table boot q columns checks) named) }
{}

/// ALTER TABLE .. SET DEFAULT, where the text is an expression.
pub fn set_default_keeps()
    ensures { (texts : Texts) (named : Named) (q : QName) (column text : Bytes) → IsSound texts named → texts.expression text ≡ true → IsSound texts (next (set_default q column text) named) }
{}

/// CREATE SEQUENCE, where the boot role is there.
pub fn create_sequence_keeps()
    ensures { (texts : Texts) (named : Named) (boot : Bytes) (q : QName) (s : Sequence) → IsSound texts named → IsMet named (key.Role boot, Asked.there) → IsSound texts (next (create_sequence boot q s) named) }
{}

/// ALTER SEQUENCE .. OWNED BY, of any column: one that isn't there is refused.
pub fn owned_by_keeps()
    ensures { (texts : Texts) (named : Named) (q table : QName) (column : Bytes) → IsSound texts named → IsSound texts (next (owned_by q table column) named) }
{}

/// SELECT pg_catalog.setval, of any number: one beyond the bounds is refused.
pub fn set_value_keeps()
    ensures { (texts : Texts) (named : Named) (q : QName) (n : ℤ) (called : Bool) → IsSound texts named → IsSound texts (next (set_value q n called) named) }
{}

/// CREATE VIEW, where the boot role is there and the body is good.
pub fn create_view_keeps()
    ensures { (texts : Texts) (named : Named) (boot : Bytes) (q : QName) (body : Bytes) → IsSound texts named → IsMet named (key.Role boot, Asked.there) → texts.body body ≡ true → IsSound texts (next (create_view boot q body) named) }
{}

/// CREATE OR REPLACE VIEW, where the body is good.
pub fn replace_view_keeps()
    ensures { (texts : Texts) (named : Named) (q : QName) (body : Bytes) → IsSound texts named → texts.body body ≡ true → IsSound texts (next (replace_view q body) named) }
{}

/// ALTER TABLE .. ADD PRIMARY KEY, where its text is good.
pub fn add_primary_keeps()
    ensures { (texts : Texts) (named : Named) (q : QName) (name : Bytes) (names : List Bytes) (rest : Bytes) → IsSound texts named → texts.constraint (record { kind = kinds.Primary; columns = names; parent = None; text = rest }) ≡ true → IsSound texts (next (add_primary q name names rest) named) }
{}

/// ALTER TABLE .. ADD UNIQUE, where its text is good.
pub fn add_unique_keeps()
    ensures { (texts : Texts) (named : Named) (q : QName) (name : Bytes) (names : List Bytes) (rest : Bytes) → IsSound texts named → texts.constraint (record { kind = kinds.Unique; columns = names; parent = None; text = rest }) ≡ true → IsSound texts (next (add_unique q name names rest) named) }
{}

/// ALTER TABLE .. ADD FOREIGN KEY, where its text is good.
pub fn add_foreign_keeps()
    ensures { (texts : Texts) (named : Named) (q : QName) (name : Bytes) (names : List Bytes) (parent : QName) (parent_names : List Bytes) (rest : Bytes) → IsSound texts named → texts.constraint (record { kind = kinds.Foreign; columns = names; parent = Some (parent, parent_names); text = rest }) ≡ true → IsSound texts (next (add_foreign q name names parent parent_names rest) named) }
{}

/// ALTER TABLE .. ADD CHECK, where its text is good.
pub fn add_check_keeps()
    ensures { (texts : Texts) (named : Named) (q : QName) (name text : Bytes) → IsSound texts named → texts.constraint (check_of text) ≡ true → IsSound texts (next (add_check q name text) named) }
{}

/// CREATE INDEX, where its text is good.
pub fn create_index_keeps()
    ensures { (texts : Texts) (named : Named) (q : QName) (name method rest : Bytes) → IsSound texts named → texts.index q name (record { method = method; unique = false; text = rest }) ≡ true → IsSound texts (next (create_index q name method rest) named) }
{}

/// CREATE UNIQUE INDEX, where its text is good.
pub fn create_unique_index_keeps()
    ensures { (texts : Texts) (named : Named) (q : QName) (name method rest : Bytes) → IsSound texts named → texts.index q name (record { method = method; unique = true; text = rest }) ≡ true → IsSound texts (next (create_unique_index q name method rest) named) }
{}

/// COPY, of any text: the rows that it adds have a field for each column.
pub fn copy_keeps()
    ensures { (texts : Texts) (named : Named) (q : QName) (names : List Bytes) (rows : Bytes) → IsSound texts named → IsSound texts (next (copy_rows q names rows) named) }
{}

/// GRANT of rights that there are on the kind of object.
pub fn grant_keeps()
    ensures { (texts : Texts) (named : Named) (what : Granted) (rights : Rights) (who : Grantee) (option : Bool) → IsSound texts named → is_within rights (rights_on what) ≡ true → IsSound texts (next (change_grants what who (granted rights option)) named) }
{}

/// REVOKE of any rights.
pub fn revoke_keeps()
    ensures { (texts : Texts) (named : Named) (what : Granted) (rights : Rights) (who : Grantee) → IsSound texts named → IsSound texts (next (change_grants what who (revoked rights)) named) }
{}

/// COMMENT, also of none.
pub fn comment_keeps()
    ensures { (texts : Texts) (named : Named) (what : Commented) (text : Option Bytes) → IsSound texts named → IsSound texts (next (comment_on what text) named) }
{}

/// OWNER TO, of any object that can have an owner.
pub fn owner_to_keeps()
    ensures { (texts : Texts) (named : Named) (what : Owned) (role : Bytes) → IsSound texts named → IsSound texts (next (owner_to what role) named) }
{}

/// CREATE ROLE; `public` is refused.
pub fn create_role_keeps()
    ensures { (texts : Texts) (named : Named) (name : Bytes) → IsSound texts named → IsSound texts (next (create_role name) named) }
{}

/// ALTER ROLE, of any attributes.
pub fn alter_role_keeps()
    ensures { (texts : Texts) (named : Named) (name : Bytes) (changes : RoleChanges) → IsSound texts named → IsSound texts (next (alter_role name changes) named) }
{}

/// GRANT of a role, where the boot role is there.
pub fn grant_role_keeps()
    ensures { (texts : Texts) (named : Named) (boot role member : Bytes) (grantor : Option Bytes) (admin : Bool) (inherit : Option Bool) (may_set : Bool) → IsSound texts named → IsMet named (key.Role boot, Asked.there) → IsSound texts (next (grant_role boot role member grantor admin inherit may_set) named) }
{}

/// CREATE DATABASE, where the boot role is there.
pub fn create_database_keeps()
    ensures { (texts : Texts) (named : Named) (boot name : Bytes) → IsSound texts named → IsMet named (key.Role boot, Asked.there) → IsSound texts (next (create_database boot name) named) }
{}
