//! Rows of enums, domains and labels.
ghost use Rattle.std.specs.Prelude.{◌≡◌, ◌+◌, ℕ, pos, List, IfOk};
ghost use Rattle.cat_model.specs.declared.key.Key.TheVariants as key;
ghost use Rattle.cat_model.specs.declared.object.QName.{QName};
ghost use Rattle.cat_model.specs.declared.value.Value.TheVariants as value;
ghost use Rattle.cat_model.specs.Values.{Bytes, Grants};
ghost use Rattle.cat_names.specs.declared.rights.GrantKind.TheVariants as on;
ghost use Rattle.cat_sound.specs.Itself.{IsDomain};
ghost use Rattle.named_objects.specs.Oids.{ObjectOids, type_oid};
ghost use Rattle.named_objects.specs.Types.{IsTypeRow, label_row};
ghost use Rattle.named_tables.specs.Oids.{Oids};
ghost use Rattle.object_rows.specs.Heads.{IsHead};
ghost use Rattle.good_texts.specs.Grammar.{grammar};

use crate::letters::letter;
use crate::parts::Head;
use crate::texts::type_text;
use crate::words::text_of;
use cat_model::{Domain, QName};
use cat_rows::{EnumRow, TypeRow};
use copy_text::Text;
use std::alloc::{AllocError, Global};

/// The row of an enum. The only error is want of memory.
/// See <https://www.postgresql.org/docs/16/catalog-pg-type.html>.
pub fn enum_row(alloc: Global, path: &QName, head: Head) -> Result<TypeRow, AllocError>
    ensures { IfOk result (λ row. (oids : Oids) (role : Bytes) (grants : Grants) (labels : List Bytes) → IsHead oids on.Type (key.UserType path.now) path.now.schema role grants head → IsTypeRow oids (record { path = path.now; type = value.Enum labels; owner = role; grants = grants }) row) }
{
    Ok(TypeRow {
        oid: head.oid,
        typname: path.name.clone()?,
        typnamespace: head.schema,
        typowner: head.owner,
        typtype: letter(b'e'),
        typnotnull: false,
        typbasetype: 0,
        basetext: text_of(String::new(alloc)),
        typdefault: None,
        typacl: head.rights,
    })
}

/// The row of a domain, with the oid of the user type that it is based on; 0 where that is another type.
#[tactic(auto, using(good_texts::proofs::Wholes::types_read, good_texts::proofs::Wholes::defaults_read))]
pub fn domain_row(
    alloc: Global,
    path: &QName,
    head: Head,
    domain: &Domain,
    base: u32,
) -> Result<TypeRow, AllocError>
    ensures { IfOk result (λ row. (oids : Oids) (role : Bytes) (grants : Grants) → IsHead oids on.Type (key.UserType path.now) path.now.schema role grants head → type_oid oids domain.now.base ≡ base → IsDomain grammar path.now domain.now → IsTypeRow oids (record { path = path.now; type = value.Domain domain.now; owner = role; grants = grants }) row) }
{
    Ok(TypeRow {
        oid: head.oid,
        typname: path.name.clone()?,
        typnamespace: head.schema,
        typowner: head.owner,
        typtype: letter(b'd'),
        typnotnull: domain.not_null,
        typbasetype: base,
        basetext: type_text(alloc, &domain.base)?,
        typdefault: domain.default.clone()?,
        typacl: head.rights,
    })
}

/// The row of a label of an enum, by its oid, the enum's, and its place among the labels, counted from 1.
/// See <https://www.postgresql.org/docs/16/catalog-pg-enum.html>.
pub fn label_row(oid: u32, of: u32, place: i64, label: &Text) -> Result<EnumRow, AllocError>
    ensures { IfOk result (λ row. (oids : ObjectOids) (q : QName) (labels : List Bytes) (i : ℕ) → oids.label q i ≡ oid → oids.of (key.UserType q) ≡ of → place ≡ pos (i + 1) → row ≡ label_row oids (record { path = q; labels = labels; place = i; label = label.now })) }
{
    Ok(EnumRow {
        oid,
        enumtypid: of,
        enumpos: place,
        enumlabel: label.clone()?,
    })
}
