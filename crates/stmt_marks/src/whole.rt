//! The footprint of a statement.
ghost use Rattle.std.specs.Prelude.{◌≡◌, IfOk};
ghost use Rattle.cat_model.specs.Footprints.{footprint_of};

use crate::reads::reads_of;
use crate::writes::writes_of;
use cat_model::{FkSet, Footprint, Items, Stmt};
use std::alloc::{AllocError, Global};

/// What a statement reads and writes: keys, and classes of keys. The pairs are those of a table and a parent of one of
/// its foreign keys, and only a COPY's footprint depends on them. The error says that there was no memory.
pub fn footprint(alloc: Global, stmt: &Stmt, keys: &FkSet) -> Result<Footprint, AllocError>
    ensures { IfOk result (λ f. f ≡ footprint_of stmt.now keys.now) }
{
    let reads = reads_of(alloc, stmt, keys.as_slice())?;
    let writes = writes_of(alloc, stmt)?;
    Ok(Footprint {
        reads: Items::new(reads),
        writes: Items::new(writes),
    })
}
