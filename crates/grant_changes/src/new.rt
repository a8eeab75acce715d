//! The grants on new objects.
ghost use Rattle.std.specs.Prelude.{◌≡◌, IfOk};
ghost use Rattle.cat_model.specs.Grants.{owner_only, type_grants, without_option};

use crate::rights::{NO_RIGHTS, TYPE_RIGHTS};
use cat_model::{Grants, Holder, Item, Rights};
use std::alloc::{AllocError, Global};

// These rights, none of which may be granted on.
fn without_option(rights: Rights) -> Item
    ensures { result ≡ without_option rights }
{
    Item {
        rights,
        options: NO_RIGHTS,
    }
}

/// The owner has these rights, and no one else has any. The only error is want of memory.
pub fn owner_only(alloc: Global, rights: Rights) -> Result<Grants, AllocError>
    ensures { IfOk result (λ grants. grants ≡ owner_only rights) }
{
    let mut grants = Grants::new(alloc);
    grants.put(Holder::Owner, without_option(rights))?;
    Ok(grants)
}

/// The grants on a new enum or domain, which everyone may use. The only error is want of memory.
pub fn type_grants(alloc: Global) -> Result<Grants, AllocError>
    ensures { IfOk result (λ grants. grants ≡ type_grants) }
{
    let mut grants = Grants::new(alloc);
    grants.put(Holder::Public, without_option(TYPE_RIGHTS))?;
    grants.put(Holder::Owner, without_option(TYPE_RIGHTS))?;
    Ok(grants)
}
