//! The role that owns what is created.
ghost use Rattle.std.specs.Prelude.{◌≡◌, IfOk};
ghost use Rattle.cat_names.specs.Lookups.{role_name};
ghost use Rattle.cat_names.specs.Naming.{boot};

use cat_rows::{AuthidRow, Catalogue};
use copy_text::Name;
use std::alloc::AllocError;

/// The oid of the role that a new cluster's objects belong to.
const BOOT_ROLE: u32 = 10;

// The name of the first role of an oid.
#[tactic(auto, unfolding(cat_names::specs::Lookups::role_name))]
fn role_name(roles: &[AuthidRow], oid: u32) -> Result<Option<Name>, AllocError>
    ensures { IfOk result (λ name. name ≡ role_name roles.now oid) }
{
    for role in roles {
        if oid == role.oid {
            return Ok(Some(role.rolname.clone()?));
        }
    }
    Ok(None)
}

/// The role that owns what a script creates: that of oid 10. The only error is want of memory. See
/// <https://www.postgresql.org/docs/16/app-initdb.html>.
pub fn boot_role(cat: &Catalogue) -> Result<Option<Name>, AllocError>
    ensures { IfOk result (λ name. name ≡ boot cat.now) }
{
    role_name(cat.pg_authid.as_slice(), BOOT_ROLE)
}
