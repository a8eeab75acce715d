//! Under which key a mark is listed.
ghost use Rattle.std.specs.Prelude.{◌≡◌, unwrap_or, IfOk};
ghost use Rattle.eng_map.specs.Groups.{class_group, group_of};
ghost use Rattle.plan_waits.specs.Buckets.{bucket};

use cat_model::{Class, Key, Mark};
use std::alloc::AllocError;

fn key_bucket(key: &Key) -> Result<Key, AllocError>
    ensures { IfOk result (λ k. k ≡ unwrap_or (group_of key.now) key.now) }
{
    match key {
        Key::Con(table, _) | Key::Index(table, _) => Ok(Key::Rel(table.clone()?)),
        Key::Member(role, member, _) => {
            Ok(Key::Member(role.clone()?, member.clone()?, member.clone()?))
        }
        _ => key.clone(),
    }
}

fn class_bucket(class: &Class) -> Result<Key, AllocError>
    ensures { IfOk result (λ k. k ≡ class_group class.now) }
{
    match class {
        Class::Constraints(table)
        | Class::Indexes(table)
        | Class::PrimaryKeys(table)
        | Class::KeysOn(table, _) => Ok(Key::Rel(table.clone()?)),
        Class::Members(role, member) => {
            Ok(Key::Member(role.clone()?, member.clone()?, member.clone()?))
        }
    }
}

/// The key under which a mark is listed.
pub(crate) fn bucket(mark: &Mark) -> Result<Key, AllocError>
    ensures { IfOk result (λ k. k ≡ bucket mark.now) }
{
    match mark {
        Mark::Key(key) => key_bucket(key),
        Mark::NewConstraint { table, .. } | Mark::NewIndex { table, .. } => {
            Ok(Key::Rel(table.clone()?))
        }
        Mark::Class(class) => class_bucket(class),
    }
}
