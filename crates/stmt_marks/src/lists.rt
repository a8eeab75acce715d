//! Lists of keys as marks, and lists of names.
ghost use Rattle.std.specs.Prelude.{◌≡◌, [], ◌∷◌, ◌++◌, List, IfOk, OnOk, map};
ghost use Rattle.cat_model.specs.Footprints.{marks as marks_of};
ghost use Rattle.cat_model.specs.TypeEffects.{but};
ghost use Rattle.cat_model.specs.declared.key.Key.TheVariants as key;

use cat_model::{Items, Key, Mark, QName};
use copy_text::Name;
use std::alloc::{AllocError, Global};

/// The list of one mark.
pub(crate) fn one(alloc: Global, mark: Mark) -> Result<Vec<Mark>, AllocError>
    ensures { IfOk result (λ v. v.items ≡ mark ∷ []) }
{
    Ok(vec![in alloc; mark]?)
}

fn as_marks(alloc: Global, keys: Vec<Key>) -> Result<Vec<Mark>, AllocError>
    ensures { IfOk result (λ v. v.items ≡ marks_of keys.items) }
{
    keys.into_iter().map(Mark::Key).collect(alloc)
}

/// Adds the marks of keys.
pub(crate) fn push_marks(
    alloc: Global,
    marks: &mut Vec<Mark>,
    keys: Vec<Key>,
) -> Result<(), AllocError>
    ensures { OnOk result (marks.new.items ≡ marks.old.items ++ marks_of keys.items) }
{
    let mut more = as_marks(alloc, keys)?;
    marks.append(&mut more)?;
    Ok(())
}

// The keys without this one.
fn without(alloc: Global, one: &Key, keys: Vec<Key>) -> Result<Vec<Key>, AllocError>
    ensures { IfOk result (λ v. v.items ≡ but one.now keys.items) }
{
    keys.into_iter().filter(|key| one != key).collect(alloc)
}

/// The keys without this type.
pub(crate) fn without_type(alloc: Global, q: &QName, keys: Vec<Key>) -> Result<Vec<Key>, AllocError>
    ensures { IfOk result (λ v. v.items ≡ but (key.UserType q.now) keys.items) }
{
    let own = Key::UserType(q.clone()?);
    let others = without(alloc, &own, keys);
    drop(own);
    others
}

/// The keys without this relation.
pub(crate) fn without_relation(
    alloc: Global,
    q: &QName,
    keys: Vec<Key>,
) -> Result<Vec<Key>, AllocError>
    ensures { IfOk result (λ v. v.items ≡ but (key.Rel q.now) keys.items) }
{
    let own = Key::Rel(q.clone()?);
    let others = without(alloc, &own, keys);
    drop(own);
    others
}

pub(crate) fn copied(alloc: Global, names: &[Name]) -> Result<Items<Name>, AllocError>
    ensures { IfOk result (λ v. v ≡ names.now) }
{
    Ok(Items::new(names.to_vec(alloc)?))
}
