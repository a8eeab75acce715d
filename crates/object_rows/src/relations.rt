//! Rows of tables, views, sequences and indexes.
ghost use Rattle.std.specs.Prelude.{◌≡◌, ◌<◌, List, Some, IfOk};
ghost use Rattle.std.specs.FinMap.{get};
ghost use Rattle.cat_model.specs.declared.key.Key.TheVariants as key;
ghost use Rattle.cat_model.specs.declared.object.Object.TheVariants as object;
ghost use Rattle.cat_model.specs.declared.object.QName.{QName};
ghost use Rattle.cat_model.specs.declared.value.Column.{Column};
ghost use Rattle.cat_model.specs.declared.value.Sequence.{Sequence};
ghost use Rattle.cat_model.specs.declared.value.Value.TheVariants as value;
ghost use Rattle.cat_model.specs.Values.{Bytes, Named, Grants};
ghost use Rattle.cat_names.specs.declared.rights.GrantKind.TheVariants as on;
ghost use Rattle.named_objects.specs.Relations.{IsRelationRow};
ghost use Rattle.named_tables.specs.Oids.{Oids};
ghost use Rattle.object_rows.specs.Heads.{IsHead};

use crate::letters::letter;
use crate::parts::Head;
use cat_model::QName;
use cat_rows::ClassRow;
use std::alloc::AllocError;

// The row of a relation of a kind, by the kind's letter.
fn class_row(path: &QName, kind: u8, head: Head) -> Result<ClassRow, AllocError>
    requires { kind < 128 }
    ensures { IfOk result (λ row. row ≡ record { oid = head.oid; relname = path.now.name; relnamespace = head.schema; relkind = kind; relowner = head.owner; relpersistence = 112; relacl = head.rights }) }
{
    Ok(ClassRow {
        oid: head.oid,
        relname: path.name.clone()?,
        relnamespace: head.schema,
        relkind: letter(kind),
        relowner: head.owner,
        relpersistence: letter(b'p'),
        relacl: head.rights,
    })
}

/// The row of a table. The only error is want of memory.
/// See <https://www.postgresql.org/docs/16/catalog-pg-class.html>.
#[tactic(auto, using(crate::proofs::Classes::owned))]
pub fn table_class(path: &QName, head: Head) -> Result<ClassRow, AllocError>
    ensures { IfOk result (λ row. (named : Named) (oids : Oids) (role : Bytes) (grants : Grants) (columns : List Column) → get named (key.Owner (object.Relation path.now)) ≡ Some (value.Owner role) → get named (key.Acl (object.Relation path.now)) ≡ Some (value.Grants grants) → IsHead oids on.Table (key.Rel path.now) path.now.schema role grants head → IsRelationRow named oids (record { path = path.now; relation = value.Table columns }) row) }
{
    class_row(path, b'r', head)
}

/// The row of a view.
#[tactic(auto, using(crate::proofs::Classes::owned))]
pub fn view_class(path: &QName, head: Head) -> Result<ClassRow, AllocError>
    ensures { IfOk result (λ row. (named : Named) (oids : Oids) (role : Bytes) (grants : Grants) → get named (key.Owner (object.Relation path.now)) ≡ Some (value.Owner role) → get named (key.Acl (object.Relation path.now)) ≡ Some (value.Grants grants) → IsHead oids on.Table (key.Rel path.now) path.now.schema role grants head → IsRelationRow named oids (record { path = path.now; relation = value.View }) row) }
{
    class_row(path, b'v', head)
}

/// The row of a sequence among the relations.
#[tactic(auto, using(crate::proofs::Classes::owned))]
pub fn sequence_class(path: &QName, head: Head) -> Result<ClassRow, AllocError>
    ensures { IfOk result (λ row. (named : Named) (oids : Oids) (role : Bytes) (grants : Grants) (s : Sequence) → get named (key.Owner (object.Relation path.now)) ≡ Some (value.Owner role) → get named (key.Acl (object.Relation path.now)) ≡ Some (value.Grants grants) → IsHead oids on.Sequence (key.Rel path.now) path.now.schema role grants head → IsRelationRow named oids (record { path = path.now; relation = value.Sequence s }) row) }
{
    class_row(path, b'S', head)
}

/// The row of an index among the relations, by its oid, its schema's, and that of the role that owns its table.
pub fn index_class(path: &QName, oid: u32, schema: u32, owner: u32) -> Result<ClassRow, AllocError>
    ensures { IfOk result (λ row. (named : Named) (oids : Oids) (role : Bytes) (table : QName) → get named (key.Owner (object.Relation table)) ≡ Some (value.Owner role) → oids (key.Rel path.now) ≡ oid → oids (key.Schema path.now.schema) ≡ schema → oids (key.Role role) ≡ owner → IsRelationRow named oids (record { path = path.now; relation = value.IndexOf table }) row) }
{
    let head = Head {
        oid,
        schema,
        owner,
        rights: None,
    };
    class_row(path, b'i', head)
}
