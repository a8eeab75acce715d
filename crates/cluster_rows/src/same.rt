//! Whether two objects have the same grants.
ghost use Rattle.std.specs.Prelude.{◌≡◌, ◌↔◌, IsTrue};

use cat_model::{Grants, Holder, Item};

fn same_holder(a: &Holder, b: &Holder) -> bool
    ensures { IsTrue result ↔ (a.now ≡ b.now) }
{
    a == b
}

fn same_item(a: &Item, b: &Item) -> bool
    ensures { IsTrue result ↔ (a.now ≡ b.now) }
{
    a == b
}

fn same_grant(a: (&Holder, &Item), b: (&Holder, &Item)) -> bool
    ensures { IsTrue result ↔ ((a.entry.0.now ≡ b.entry.0.now) × (a.entry.1.now ≡ b.entry.1.now)) }
{
    same_holder(a.0, b.0) && same_item(a.1, b.1)
}

/// Whether the same have the same rights by two grants.
pub(crate) fn same_grants(a: &Grants, b: &Grants) -> bool
    ensures { IsTrue result ↔ (a.now ≡ b.now) }
{
    let mut others = b.iter();
    for grant in a.iter() {
        match others.next() {
            Some(other) if same_grant(grant, other) => {}
            _ => return false,
        }
    }
    others.next().is_none()
}
