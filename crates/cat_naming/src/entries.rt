//! The owners and grants of objects, as entries of the catalogue by names.
ghost use Rattle.std.specs.Prelude.{◌≡◌, [], ◌∷◌, ◌++◌, OnOk};
ghost use Rattle.cat_model.specs.declared.key.Key.TheVariants as keys;
ghost use Rattle.cat_model.specs.declared.value.Value.TheVariants as values;
ghost use Rattle.cat_names.specs.Grants.{grants_of};

use crate::grants::grants_of;
use cat_model::{Key, Object, Value};
use cat_names::GrantKind;
use cat_rows::Acl;
use copy_text::Name;
use eng_map::{Entries, let_go_key, push_entry};
use std::alloc::{AllocError, Global};

/// Adds the owner of an object.
pub(crate) fn push_owner(
    entries: &mut Entries,
    object: Object,
    owner: &Name,
) -> Result<(), AllocError>
    ensures { OnOk result (entries.new.items ≡ entries.old.items ++ (keys.Owner object, values.Owner owner.now) ∷ []) }
{
    let key = Key::Owner(object);
    match owner.clone() {
        Ok(owner) => push_entry(entries, key, Value::Owner(owner)),
        Err(error) => {
            let_go_key(key);
            Err(error)
        }
    }
}

/// Adds the grants on an object of a kind.
pub(crate) fn push_grants(
    alloc: Global,
    entries: &mut Entries,
    kind: GrantKind,
    object: Object,
    owner: &Name,
    acl: &Option<Acl>,
) -> Result<(), AllocError>
    ensures { OnOk result (entries.new.items ≡ entries.old.items ++ (keys.Acl object, values.Grants (grants_of kind owner.now acl.now)) ∷ []) }
{
    let key = Key::Acl(object);
    match grants_of(alloc, kind, owner, acl) {
        Ok(grants) => push_entry(entries, key, Value::Grants(grants)),
        Err(error) => {
            let_go_key(key);
            Err(error)
        }
    }
}
