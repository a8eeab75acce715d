//! The tables of the cluster.
ghost use Rattle.std.specs.Prelude.{◌≡◌, map, IfOk};
ghost use Rattle.std.specs.Map.Iter.{deref_pair};
ghost use Rattle.cat_model.specs.declared.key.Key.{Key as TheKey};
ghost use Rattle.cat_model.specs.declared.value.Value.{Value as TheValue};
ghost use Rattle.entry_ids.specs.Ids.{of_keys};
ghost use Rattle.whole_export.specs.Tables.{AreCluster};

use cat_model::{Key, Value};
use cat_rows::{AuthMembersRow, AuthidRow, DatabaseRow, NamespaceRow, Rows};
use cluster_loops::{database_rows, member_rows, role_rows, schema_rows};
use copy_text::Name;
use eng_map::NamedMap;
use object_ids::Ids;
use std::alloc::{AllocError, Global};

/// The rows of roles, memberships, databases and schemas.
#[derive(Drop)]
pub(crate) struct Cluster {
    pub(crate) roles: Rows<AuthidRow>,
    pub(crate) members: Rows<AuthMembersRow>,
    pub(crate) databases: Rows<DatabaseRow>,
    pub(crate) schemas: Rows<NamespaceRow>,
}

/// The tables of these entries, of which one database is the current one.
pub(crate) fn cluster_tables(
    alloc: Global,
    named: &NamedMap,
    ids: &Ids,
    current: &Name,
    entries: &[(&Key, &Value)],
) -> Result<Cluster, AllocError>
    ensures { IfOk result (λ made. AreCluster named.now (of_keys ids.now) current.now (map (deref_pair {K = TheKey} {X = TheValue}) entries.now) made.roles made.members made.databases made.schemas) }
{
    let roles = role_rows(alloc, ids, entries)?;
    let members = member_rows(alloc, ids, entries)?;
    let databases = database_rows(alloc, ids, named, current, entries)?;
    let schemas = schema_rows(alloc, ids, named, entries)?;
    Ok(Cluster {
        roles,
        members,
        databases,
        schemas,
    })
}
