//! Whether two maps have the same checks.
ghost use Rattle.std.specs.Prelude.{◌≡◌, ◌↔◌, IsTrue};

use cat_model::Checks;
use copy_text::{Name, Text};

fn same_check(a: (&Name, &Text), b: (&Name, &Text)) -> bool
    ensures { IsTrue result ↔ ((a.entry.0.now ≡ b.entry.0.now) × (a.entry.1.now ≡ b.entry.1.now)) }
{
    a.0 == b.0 && a.1 == b.1
}

/// Whether two maps have the same checks with the same expressions.
pub(crate) fn same_checks(a: &Checks, b: &Checks) -> bool
    ensures { IsTrue result ↔ (a.now ≡ b.now) }
{
    let mut others = b.iter();
    for check in a.iter() {
        match others.next() {
            Some(other) if same_check(check, other) => {}
            _ => return false,
        }
    }
    others.next().is_none()
}
