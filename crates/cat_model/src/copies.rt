//! Copies of values that are changed in part.
ghost use Rattle.std.specs.Prelude.{◌≡◌, IfOk};

use crate::items::Items;
use crate::value::{Domain, Resolved, Role};
use copy_text::Text;
use std::alloc::AllocError;

fn clone_labels(labels: &Option<Items<Text>>) -> Result<Option<Items<Text>>, AllocError>
    ensures { IfOk result (λ copy. copy ≡ labels.now) }
{
    match labels {
        Some(labels) => Ok(Some(labels.clone()?)),
        None => Ok(None),
    }
}

impl Clone for Role {
    ghost is_clone = { λ a b. b ≡ a };

    fn clone(&self) -> Result<Role, AllocError> {
        Ok(Role {
            superuser: self.superuser,
            inherit: self.inherit,
            create_role: self.create_role,
            create_db: self.create_db,
            login: self.login,
            replication: self.replication,
            bypass_rls: self.bypass_rls,
            limit: self.limit,
            password: self.password.clone()?,
            valid_until: self.valid_until.clone()?,
        })
    }
}

impl Clone for Resolved {
    ghost is_clone = { λ a b. b ≡ a };

    fn clone(&self) -> Result<Resolved, AllocError> {
        Ok(Resolved {
            type_name: self.type_name.clone()?,
            labels: clone_labels(&self.labels)?,
            not_null: self.not_null,
        })
    }
}

impl Clone for Domain {
    ghost is_clone = { λ a b. b ≡ a };

    fn clone(&self) -> Result<Domain, AllocError> {
        Ok(Domain {
            base: self.base.clone()?,
            resolved: self.resolved.clone()?,
            not_null: self.not_null,
            default: self.default.clone()?,
            checks: self.checks.clone()?,
        })
    }
}
