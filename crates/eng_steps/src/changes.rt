//! Changes, one behind another.
ghost use Rattle.std.specs.Prelude.{◌≡◌, [], ◌∷◌, ◌++◌, Some, IfOk, OnOk};
ghost use Rattle.cat_model.specs.declared.key.Key.TheVariants as key;
ghost use Rattle.cat_model.specs.ObjectEffects.{made};
ghost use Rattle.cat_model.specs.declared.value.Value.TheVariants as value;

use cat_model::{Grants, Key, Object, Value};
use copy_text::Name;
use eng_map::{Change, let_go_changes, set};
use std::alloc::{AllocError, Global};

/// One key gets a value, and nothing else is changed.
pub fn one(alloc: Global, key: Key, value: Value) -> Result<Vec<Change>, AllocError>
    ensures { IfOk result (λ changes. changes.items ≡ (key, Some value) ∷ []) }
{
    let mut changes = Vec::new(alloc);
    match set(&mut changes, key, value) {
        Ok(()) => Ok(changes),
        Err(error) => {
            let_go_changes(changes);
            Err(error)
        }
    }
}

/// An object gets an owner.
pub fn set_owner(changes: &mut Vec<Change>, object: &Object, owner: &Name) -> Result<(), AllocError>
    ensures { OnOk result (changes.new.items ≡ changes.old.items ++ (key.Owner object.now, Some (value.Owner owner.now)) ∷ []) }
{
    let owner = owner.clone()?;
    set(changes, Key::Owner(object.clone()?), Value::Owner(owner))
}

/// An object gets grants.
pub fn set_grants(
    changes: &mut Vec<Change>,
    object: &Object,
    grants: Grants,
) -> Result<(), AllocError>
    ensures { OnOk result (changes.new.items ≡ changes.old.items ++ (key.Acl object.now, Some (value.Grants grants)) ∷ []) }
{
    set(changes, Key::Acl(object.clone()?), Value::Grants(grants))
}

// Behind changes, what each new object gets.
fn add_made(
    changes: &mut Vec<Change>,
    object: &Object,
    boot: &Name,
    grants: Grants,
) -> Result<(), AllocError>
    ensures { OnOk result (changes.new.items ≡ changes.old.items ++ made object.now boot.now grants) }
{
    set_owner(changes, object, boot)?;
    set_grants(changes, object, grants)
}

/// These changes, and behind them what each new object gets: the boot role as its owner, and grants.
pub fn with_made(
    mut changes: Vec<Change>,
    object: &Object,
    boot: &Name,
    grants: Grants,
) -> Result<Vec<Change>, AllocError>
    ensures { IfOk result (λ all. all.items ≡ changes.items ++ made object.now boot.now grants) }
{
    match add_made(&mut changes, object, boot, grants) {
        Ok(()) => Ok(changes),
        Err(error) => {
            let_go_changes(changes);
            Err(error)
        }
    }
}
