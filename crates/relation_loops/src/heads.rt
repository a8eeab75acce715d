//! What rows of objects with an owner and grants have in common.
ghost use Rattle.std.specs.Prelude.{◌≡◌, ◌∷◌, IfOk};
ghost use Rattle.cat_model.specs.declared.key.Key.{Key as TheKey};
ghost use Rattle.cluster_loops.specs.Ids.{of_keys};
ghost use Rattle.object_rows.specs.Heads.{IsHead};

use cat_model::Grants;
use cat_names::GrantKind;
use cluster_loops::{role_oid, schema_oid};
use cluster_rows::acl_of;
use copy_text::Name;
use object_ids::Ids;
use object_rows::Head;
use std::alloc::{AllocError, Global};

/// What an object of a kind stands for that has this oid, lies in this schema, and has this owner and these grants.
pub(crate) fn head_of(
    alloc: Global,
    ids: &Ids,
    kind: GrantKind,
    oid: u32,
    schema: &Name,
    owner: &Name,
    grants: &Grants,
) -> Result<Head, AllocError>
    ensures { IfOk result (λ head. (k : TheKey) → of_keys ids.now k ≡ oid → IsHead (of_keys ids.now) kind k schema.now owner.now grants.now head) }
{
    let within = schema_oid(ids, schema)?;
    let by = role_oid(ids, owner)?;
    Ok(Head {
        oid,
        schema: within,
        owner: by,
        rights: acl_of(alloc, kind, owner, grants)?,
    })
}
