//! The oids of an opening.
ghost use Rattle.std.specs.Prelude.{◌≡◌, OnOk, IfOk};
ghost use Rattle.object_ids.specs.Ids.{avoiding};
ghost use Rattle.opening_ids.specs.Opening.{cluster_given, objects_given, parts_given, depends_avoided, opening_ids};

use crate::cluster::give_cluster;
use crate::objects::give_objects;
use crate::parts::give_parts;
use cat_lookups::Lookups;
use cat_rows::DependRow;
use object_ids::Ids;
use std::alloc::{AllocError, Global};

// Notes that the two oids of a dependency are in use.
fn avoid_depend(ids: &mut Ids, row: &DependRow) -> Result<(), AllocError>
    ensures { OnOk result (ids.new ≡ avoiding (avoiding ids.old row.now.objid) row.now.refobjid) }
{
    ids.avoid(row.objid)?;
    ids.avoid(row.refobjid)
}

fn avoid_depends(ids: &mut Ids, rows: &[DependRow]) -> Result<(), AllocError>
    ensures { OnOk result (ids.new ≡ depends_avoided ids.old rows.now) }
{
    for row in rows {
        avoid_depend(ids, row)?;
    }
    Ok(())
}

// Gives the oids of all rows.
fn give_all(lookups: &Lookups<'_>, ids: &mut Ids) -> Result<(), AllocError>
    ensures { OnOk result (ids.new ≡ depends_avoided (parts_given lookups.now (objects_given lookups.now (cluster_given lookups.now ids.old))) lookups.now.pg_depend) }
{
    let book = lookups.book();
    give_cluster(book, ids)?;
    give_objects(book, ids)?;
    give_parts(lookups, ids)?;
    avoid_depends(ids, lookups.tables().pg_depend.as_slice())
}

/// The oids of an opening: each is given to what its row is of, where that has none yet and no other row of its table has the
/// oid, and isn't drawn again, nor is one that a dependency names. The only error is want of memory.
pub fn opening_ids(alloc: Global, lookups: &Lookups<'_>) -> Result<Ids, AllocError>
    ensures { IfOk result (λ ids. ids ≡ opening_ids lookups.now) }
{
    let mut ids = Ids::new(alloc);
    give_all(lookups, &mut ids)?;
    Ok(ids)
}
