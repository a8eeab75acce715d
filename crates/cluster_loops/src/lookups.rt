//! What stands under the other keys of an object.
ghost use Rattle.std.specs.Prelude.{◌≡◌, Option};
ghost use Rattle.std.specs.FinMap.{get};
ghost use Rattle.std.specs.Option.{option_map};
ghost use Rattle.map_export.specs.Things.{owner_in, owner_of, grants_in, grants_on};

use crate::let_go::let_go_key;
use cat_model::{Grants, Key, Object, Value};
use copy_text::Name;
use eng_map::NamedMap;

fn owner_under<'a>(named: &'a NamedMap, key: &Key) -> Option<&'a Name>
    ensures { option_map (λ n. n.now) result ≡ owner_in (get named.now key.now) }
{
    match named.get(key) {
        Some(Value::Owner(name)) => Some(name),
        _ => None,
    }
}

/// The owner of an object.
pub fn owner_of(named: &NamedMap, object: Object) -> Option<&Name>
    ensures { option_map (λ n. n.now) result ≡ owner_of named.now object }
{
    let key = Key::Owner(object);
    let owner = owner_under(named, &key);
    let_go_key(key);
    owner
}

fn grants_under<'a>(named: &'a NamedMap, key: &Key) -> Option<&'a Grants>
    ensures { option_map (λ n. n.now) result ≡ grants_in (get named.now key.now) }
{
    match named.get(key) {
        Some(Value::Grants(grants)) => Some(grants),
        _ => None,
    }
}

/// The grants on an object.
pub fn grants_on(named: &NamedMap, object: Object) -> Option<&Grants>
    ensures { option_map (λ n. n.now) result ≡ grants_on named.now object }
{
    let key = Key::Acl(object);
    let grants = grants_under(named, &key);
    let_go_key(key);
    grants
}
